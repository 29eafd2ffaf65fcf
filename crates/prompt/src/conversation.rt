//! The loop over the lines.
ghost use Rattle.std.specs.Prelude.{◌≡◌, true, IfOk, IfErr, OnOk, OnErr};
ghost use Rattle.std.specs.Option.{option_map};
ghost use Rattle.std.specs.Io.KnownBytes.{Appends};
ghost use Rattle.prompt.specs.Lines.{IsReadInPart};
ghost use Rattle.prompt.specs.declared.fault.PromptFault.TheVariants as fault;
ghost use Rattle.prompt.specs.Start.{start_at};
ghost use Rattle.prompt.specs.Conversation.{AppendsPrefix, Conversed, IsAwaited, IsReaders, IsUnanswered, IsUnasked, IsWritten, prompt_text};

use crate::fault::PromptFault;
use crate::form::Form;
use crate::handover::Handover;
use crate::line_answer::{answer_line, prompt_text};
use crate::moment::is_quit;
use crate::save::Files;
use crate::state::PromptState;
use crate::streams::Streams;
use script_json::script_session::Session;
use script_json::world::Checkpoint;
use std::alloc::Global;
use std::io::BufRead;

/// What came of a conversation that was led to its end.
#[derive(Clone, Copy, PartialEq, Eq)]
pub struct Summary {
    /// How many lines were answered, with blank lines and remarks.
    pub lines: u64,
    /// How many of them were bad.
    pub bad: u64,
}

// The next line that is to be answered: `None` at the end of the input and at a line that ends the
// conversation.
fn next_to_answer<R: BufRead + Drop, W: Handover + Drop>(
    alloc: Global,
    streams: &mut Streams<R, W>,
) -> Result<Option<Vec<u8>>, PromptFault>
    requires flushed { streams.old.is_flushed ≡ true }
    ensures line { IfOk result (λ found. IsAwaited (R.remaining streams.old.reader) (R.remaining streams.new.reader) (option_map (λ line. line.items) found)) }
    ensures part { OnErr result (IsReadInPart (R.remaining streams.old.reader) (R.remaining streams.new.reader)) }
    ensures err { IfErr result IsReaders }
    ensures writer { streams.new.writer ≡ streams.old.writer }
{
    let Some(line) = streams.next_line(alloc)? else {
        return Ok(None);
    };
    if is_quit(alloc, line.as_slice())? {
        return Ok(None);
    }
    Ok(Some(line))
}

// Writes the prompt, and has all that was written handed on.
fn show<R: BufRead + Drop, W: Handover + Drop>(
    streams: &mut Streams<R, W>,
    prompt: &[u8],
) -> Result<(), PromptFault>
    ensures shown { OnOk result (Appends (W.contents streams.old.writer) (W.contents streams.new.writer) prompt.now) }
    ensures flushed { OnOk result (streams.new.is_flushed ≡ true) }
    ensures cut { OnErr result (AppendsPrefix (W.contents streams.old.writer) (W.contents streams.new.writer) prompt.now) }
    ensures err { IfErr result (λ e. e ≡ fault.Write) }
    ensures reader { streams.new.reader ≡ streams.old.reader }
{
    streams.write(prompt)?;
    streams.flush()
}

// Writes the prompt, flushes all that was written, and reads the next line that is to be answered.
fn ask<R: BufRead + Drop, W: Handover + Drop>(
    alloc: Global,
    streams: &mut Streams<R, W>,
    session: &Session,
    form: Form,
) -> Result<Option<Vec<u8>>, PromptFault>
    ensures line { IfOk result (λ found. IsAwaited (R.remaining streams.old.reader) (R.remaining streams.new.reader) (option_map (λ line. line.items) found)) }
    ensures shown { OnOk result (Appends (W.contents streams.old.writer) (W.contents streams.new.writer) (prompt_text form session.now)) }
    ensures handed { OnOk result (W.handed streams.new.writer ≡ W.contents streams.new.writer) }
    ensures cut { IfErr result (λ fault. IsUnasked (prompt_text form session.now) (R.remaining streams.old.reader) (R.remaining streams.new.reader) (W.contents streams.old.writer) (W.contents streams.new.writer) (W.handed streams.new.writer) fault) }
{
    let prompt = prompt_text(alloc, session, form)?;
    show(streams, prompt.as_str().as_bytes())?;
    next_to_answer(alloc, streams)
}

// Answers a line, writes the answer, and gives whether the line is bad.
fn write_answer<R: BufRead + Drop, W: Handover + Drop, F: Files>(
    alloc: Global,
    streams: &mut Streams<R, W>,
    state: &mut PromptState,
    files: &mut F,
    line: &[u8],
    form: Form,
) -> Result<bool, PromptFault>
    ensures whole { IfOk result (λ bad. IsWritten F.keeps form state.old line.now bad state.new (W.contents streams.old.writer) (W.contents streams.new.writer)) }
    ensures cut { IfErr result (λ fault. IsUnanswered F.keeps (streams.new.writer ≡ streams.old.writer) form state.old line.now (W.contents streams.old.writer) (W.contents streams.new.writer) fault) }
    ensures reader { streams.new.reader ≡ streams.old.reader }
{
    let answer = answer_line(alloc, state, files, line, form)?;
    streams.write(answer.bytes())?;
    Ok(answer.is_bad)
}

// Answers each line, from this state on.
fn answer_all<R: BufRead + Drop, W: Handover + Drop, F: Files>(
    alloc: Global,
    streams: &mut Streams<R, W>,
    state: &mut PromptState,
    files: &mut F,
    form: Form,
) -> Result<Summary, PromptFault>
    ensures { Conversed F.keeps state.old form (R.remaining streams.old.reader) (R.remaining streams.new.reader) (W.contents streams.old.writer) (W.contents streams.new.writer) (W.handed streams.new.writer) result }
{
    let mut bad = 0u64;
    for lines in 0..u64::MAX {
        let Some(line) = ask(alloc, streams, &state.session, form)? else {
            return Ok(Summary { lines, bad });
        };
        let is_bad = write_answer(alloc, streams, state, files, line.as_slice(), form)?;
        bad += u64::from(is_bad);
    }
    Err(PromptFault::Read)
}

/// Answers each line as it comes: its reply is written, and after it the remarks, lines that begin
/// with `# `, or both in one line of JSON; then all is handed on, and the next line is read. It ends
/// at a line `quit`, `exit`, `.quit` or `\q`, and at the end of the input.
///
/// - `streams`: where lines come from and replies go.
/// - `files`: where `save` keeps a checkpoint; it has kept one if the answer says so.
/// - `checkpoint`: where the session opens, if not before the declarations; then no server has a
///   lease, nothing is prepared, and no plan is kept.
/// - `form`: the form of the answers, and whether a prompt is written before each line is read.
///
/// Refused if the reader fails, or after 2^64 - 1 lines (`Read`), if the writer fails or takes
/// nothing (`Write`), and if memory runs out (`Memory`): what was written is what is due for the
/// lines that were read, in turn. Only at `Write` is the last prompt or answer cut short. No contract
/// of std says when a reader or a writer fails, so none says here that a fault had its cause;
/// `.ci/fuzz` and `.ci/prompts` show it.
pub fn converse<R: BufRead + Drop, W: Handover + Drop, F: Files>(
    alloc: Global,
    streams: &mut Streams<R, W>,
    files: &mut F,
    checkpoint: Option<Checkpoint>,
    form: Form,
) -> Result<Summary, PromptFault>
    ensures { Conversed F.keeps (start_at checkpoint) form (R.remaining streams.old.reader) (R.remaining streams.new.reader) (W.contents streams.old.writer) (W.contents streams.new.writer) (W.handed streams.new.writer) result }
{
    let mut state = PromptState::new(alloc, checkpoint);
    answer_all(alloc, streams, &mut state, files, form)
}
