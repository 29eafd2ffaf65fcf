//! A script from its bytes to the bytes of its replies.
ghost use Rattle.std.specs.Prelude.{◌≡◌, ◌≤◌, length, IfOk, IfErr, OnOk, OnErr};
ghost use Rattle.std.specs.Io.KnownBytes.{Appends};
ghost use Rattle.script.specs.Script.{limit, Ran, IsRead, AppendsPrefix};

use crate::watched::{Ending, Report, Watch, run_watched};
use script_session::Session;
use std::alloc::Global;
use std::io::{Read, Write};
use thiserror::Error;

/// What came of a script that was run to its end.
#[derive(Clone, Copy, PartialEq, Eq)]
pub struct Summary {
    /// How many lines it has, with blank lines and remarks.
    pub lines: u64,
    /// How many of them are bad.
    pub bad: u64,
}

/// Why a script was not run to its end.
#[derive(Clone, Copy, Debug, Drop, PartialEq, Eq, Error)]
pub enum ScriptFault {
    /// The reader failed; nothing was written.
    #[error("read")]
    Read,
    /// The script has more than 16,777,216 bytes; nothing was written.
    #[error("too long")]
    TooLong,
    /// The script is no UTF-8; nothing was written.
    #[error("not utf-8")]
    NotUtf8,
    /// The writer failed or took nothing; a start of the replies was written.
    #[error("write")]
    Write,
    /// Memory ran out; a start of the replies was written.
    #[error("memory")]
    Memory,
}

// No reports.
#[derive(Drop)]
struct NoReports;

impl Report for NoReports {
    fn report(&mut self, _: Global, _: &Session, _: u64, _: &str, _: &str) {}
}

// The longest script, in bytes.
const LIMIT: usize = 16_777_216;

/// All that is left to read, or the first fault. That a reader failed is its own to say, and no
/// contract sees it: that `Read` isn't answered at random is shown by the tests.
pub(crate) fn read_all<R: Read>(alloc: Global, reader: &mut R) -> Result<Vec<u8>, ScriptFault>
    ensures read { IsRead (R.remaining reader.old) result }
    ensures bounded { IfOk result (λ bytes. length bytes.items ≤ limit) }
{
    let mut bytes = Vec::new(alloc);
    let mut chunk = [0u8; 4096];
    for _ in 0..=LIMIT {
        let Ok(count) = reader.read(&mut chunk) else {
            return Err(ScriptFault::Read);
        };
        if count == 0 {
            return Ok(bytes);
        }
        if LIMIT - bytes.len() < count {
            return Err(ScriptFault::TooLong);
        }
        if bytes.extend_from_slice(&chunk[..count]).is_err() {
            return Err(ScriptFault::Memory);
        }
    }
    Err(ScriptFault::TooLong)
}

/// Writes all of the text. At an `Err` a start of it went out. That a writer failed is its own to
/// say, as with a reader.
pub(crate) fn write_all<W: Write>(writer: &mut W, text: &[u8]) -> Result<(), ScriptFault>
    ensures ok { OnOk result (Appends (W.contents writer.old) (W.contents writer.new) text.now) }
    ensures err { IfErr result (λ fault. fault ≡ ScriptFault.Write) }
    ensures cut { OnErr result (AppendsPrefix (W.contents writer.old) (W.contents writer.new) text.now) }
{
    let mut rest = text;
    while !rest.is_empty() {
        let Ok(count) = writer.write(rest) else {
            return Err(ScriptFault::Write);
        };
        if count == 0 {
            return Err(ScriptFault::Write);
        }
        rest = rest.split_at(count).1;
    }
    Ok(())
}

/// Reads a script to its end, and writes the reply to each line when the line is done.
///
/// Refused if the reader fails (`Read`), and then if the script is too long (`TooLong`) or no
/// UTF-8 (`NotUtf8`): nothing is written. Refused later if the writer fails (`Write`) or memory
/// runs out (`Memory`): what was written is a start of the replies.
pub fn run_script<R: Read, W: Write>(
    alloc: Global,
    reader: &mut R,
    writer: &mut W,
) -> Result<Summary, ScriptFault>
    ensures { Ran (R.remaining reader.old) (W.contents writer.old) (W.contents writer.new) result }
{
    let mut watch = Watch {
        reports: NoReports,
        stops: false,
    };
    let Ending { lines, bad, .. } = run_watched(alloc, reader, writer, &mut watch)?;
    Ok(Summary { lines, bad })
}
