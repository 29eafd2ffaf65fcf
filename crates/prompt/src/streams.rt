//! Where lines come from and where replies go.
ghost use Rattle.std.specs.Prelude.{◌≡◌, true, IfOk, IfErr, OnOk, OnErr};
ghost use Rattle.std.specs.Option.{option_map};
ghost use Rattle.std.specs.Io.BufRead.{strip_last};
ghost use Rattle.std.specs.Io.KnownBytes.{Appends, Keeps};
ghost use Rattle.prompt.specs.Lines.{IsNext, IsReadInPart, stripped};
ghost use Rattle.prompt.specs.Conversation.{AppendsPrefix, IsReaders};
ghost use Rattle.prompt.specs.declared.fault.PromptFault.TheVariants as fault;

use crate::fault::PromptFault;
use crate::handover::Handover;
use std::alloc::{AllocError, Global};
use std::io::{BufRead, ErrorKind, Write};

/// A reader of lines and a writer of replies.
#[derive(Drop)]
pub struct Streams<R: Drop, W: Handover + Drop> {
    /// Where lines come from.
    pub reader: R,
    /// Where replies go.
    pub writer: W,
    /// Whether the writer handed on all that was written.
    pub is_flushed: bool,
    ghost flushed: { is_flushed ≡ true → W.handed writer ≡ W.contents writer },
}

// The line without its last byte, if that is `byte`.
fn strip_last(line: &[u8], byte: u8) -> &[u8]
    ensures { result.now ≡ strip_last byte line.entry.now }
{
    match line {
        [front @ .., last] if *last == byte => front,
        _ => line,
    }
}

// The line without its ending: a line feed, and one carriage return before it.
fn stripped(line: &[u8]) -> &[u8]
    ensures { result.now ≡ stripped line.entry.now }
{
    match line {
        [front @ .., last] if *last == b'\n' => strip_last(front, b'\r'),
        _ => line,
    }
}

fn copied(alloc: Global, line: &[u8]) -> Result<Vec<u8>, AllocError>
    ensures { IfOk result (λ copy. copy.items ≡ line.now) }
{
    let mut copy = Vec::new(alloc);
    copy.extend_from_slice(line)?;
    Ok(copy)
}

// Writes all of the text. At an `Err` a start of it went out.
fn write_all<W: Write>(writer: &mut W, text: &[u8]) -> Result<(), PromptFault>
    ensures ok { OnOk result (Appends (W.contents writer.old) (W.contents writer.new) text.now) }
    ensures err { IfErr result (λ e. e ≡ fault.Write) }
    ensures cut { OnErr result (AppendsPrefix (W.contents writer.old) (W.contents writer.new) text.now) }
{
    let mut rest = text;
    while !rest.is_empty() {
        let Ok(count) = writer.write(rest) else {
            return Err(PromptFault::Write);
        };
        if count == 0 {
            return Err(PromptFault::Write);
        }
        rest = rest.split_at(count).1;
    }
    Ok(())
}

impl<R: BufRead + Drop, W: Handover + Drop> Streams<R, W> {
    /// The next line without its ending, or `None` at the end of the input. All that was written
    /// has to be flushed before.
    ///
    /// - `alloc`: where the line is made.
    ///
    /// Refused if the reader fails (`Read`), and if memory runs out (`Memory`).
    pub(crate) fn next_line(&mut self, alloc: Global) -> Result<Option<Vec<u8>>, PromptFault>
        requires flushed { self.old.is_flushed ≡ true }
        ensures next { IfOk result (λ found. IsNext (R.remaining self.old.reader) (R.remaining self.new.reader) (option_map (λ line. line.items) found)) }
        ensures part { OnErr result (IsReadInPart (R.remaining self.old.reader) (R.remaining self.new.reader)) }
        ensures err { IfErr result IsReaders }
        ensures writer { self.new.writer ≡ self.old.writer }
    {
        let mut bytes = Vec::new(alloc);
        match self.reader.read_until(b'\n', &mut bytes) {
            Ok(0) => Ok(None),
            Ok(_) => Ok(Some(copied(alloc, stripped(bytes.as_slice()))?)),
            Err(e) if matches!(e.kind(), ErrorKind::OutOfMemory) => Err(PromptFault::Memory),
            Err(_) => Err(PromptFault::Read),
        }
    }

    /// Writes all of the text, which is not flushed then. At an `Err` a start of it went out.
    ///
    /// - `text`: the text.
    ///
    /// The only refusal is `Write`: the writer failed or took nothing.
    pub(crate) fn write(&mut self, text: &[u8]) -> Result<(), PromptFault>
        ensures ok { OnOk result (Appends (W.contents self.old.writer) (W.contents self.new.writer) text.now) }
        ensures err { IfErr result (λ e. e ≡ fault.Write) }
        ensures cut { OnErr result (AppendsPrefix (W.contents self.old.writer) (W.contents self.new.writer) text.now) }
        ensures reader { self.new.reader ≡ self.old.reader }
    {
        self.is_flushed = false;
        write_all(&mut self.writer, text)
    }

    /// Has the writer hand on all that was written.
    ///
    /// The only refusal is `Write`: the writer failed.
    pub(crate) fn flush(&mut self) -> Result<(), PromptFault>
        ensures flushed { OnOk result (self.new.is_flushed ≡ true) }
        ensures err { IfErr result (λ e. e ≡ fault.Write) }
        ensures kept { Keeps (W.contents self.old.writer) (W.contents self.new.writer) }
        ensures reader { self.new.reader ≡ self.old.reader }
    {
        let flushed = self.writer.hand_on().is_ok();
        self.is_flushed = flushed;
        if flushed {
            Ok(())
        } else {
            Err(PromptFault::Write)
        }
    }
}
