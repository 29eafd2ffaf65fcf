//! A script whose bad and refused lines are reported beside its replies, and that may end at the
//! first of them.
ghost use Rattle.std.specs.Prelude.{◌≡◌, ◌≤◌, List, ℕ, length};
ghost use Rattle.std.specs.Io.KnownBytes.{Appends};
ghost use Rattle.script_session.specs.Session.{empty};
ghost use Rattle.script.specs.Script.{limit};
ghost use Rattle.script.specs.OneLine.{IsAnswered};
ghost use Rattle.script.specs.Watched.{AnsweredUntil, RanUntil, is_refusal, is_wrong, watched_status};

use crate::run::{ScriptFault, read_all, write_all};
use script_session::Session;
use std::alloc::Global;
use std::io::{Read, Write};

/// Where reports on bad and refused lines go. A report that cannot be made is lost: the reply
/// stands in any case.
pub trait Report {
    /// Reports what is wrong with a line.
    ///
    /// - `session`: the session after the line, which is only read.
    /// - `number`: the number of the line, from 1.
    /// - `line`: the line, without its ending.
    /// - `reply`: its reply, which is `bad line` or begins with `refused `.
    fn report(&mut self, alloc: Global, session: &Session, number: u64, line: &str, reply: &str);
}

/// Where reports go, and whether the first line that is bad or refused ends the run.
#[derive(Drop)]
pub struct Watch<E: Drop> {
    /// Where reports go.
    pub reports: E,
    /// Whether the first line that is bad or refused ends the run.
    pub stops: bool,
}

/// How a watched script ended.
#[derive(Clone, Copy, PartialEq, Eq)]
pub struct Ending {
    /// How many lines were answered, with blank lines and remarks.
    pub lines: u64,
    /// How many of them are bad.
    pub bad: u64,
    /// Whether a refused line ended the run.
    pub is_refused: bool,
}

/// What the reply to a line says of it.
#[derive(Clone, Copy)]
pub(crate) struct Verdict {
    /// Whether the line is bad.
    pub(crate) is_bad: bool,
    /// Whether it is bad or refused.
    pub(crate) is_wrong: bool,
}

fn is_refusal(reply: &[u8]) -> bool
    ensures { result ≡ is_refusal reply.now }
{
    reply.split_at(reply.len().min(8)).0 == b"refused ".as_slice()
}

// Whether a reply says that the line is bad or refused.
fn is_wrong(reply: &[u8], is_bad: bool) -> bool
    ensures { result ≡ is_wrong reply.now is_bad }
{
    is_bad || is_refusal(reply)
}

// Answers the line of this number, and reports it if it is bad or refused.
fn answer_one<W: Write, E: Report>(
    alloc: Global,
    session: &mut Session,
    number: u64,
    line: &str,
    writer: &mut W,
    reports: &mut E,
) -> Result<Verdict, ScriptFault>
    ensures { IsAnswered session.old line.now session.new (W.contents writer.old) (W.contents writer.new) result }
{
    let Ok(answer) = session.reply_to(alloc, line) else {
        return Err(ScriptFault::Memory);
    };
    let reply = answer.text.as_str();
    write_all(writer, reply.as_bytes())?;
    let is_bad = answer.is_bad;
    let is_wrong = is_wrong(reply.as_bytes(), is_bad);
    if is_wrong {
        reports.report(alloc, session, number, line, reply);
    }
    Ok(Verdict { is_bad, is_wrong })
}

// Answers each line from the session at the start of a script, and writes each answer before the
// next line is read.
fn answer_watched<W: Write, E: Report>(
    alloc: Global,
    session: &mut Session,
    text: &str,
    writer: &mut W,
    reports: &mut E,
    stops: bool,
) -> Result<Ending, ScriptFault>
    requires start { session.old ≡ empty }
    requires few { length text.now ≤ limit }
    ensures { (out : List ℕ) × Appends (W.contents writer.old) (W.contents writer.new) out × AnsweredUntil stops text.now out result }
{
    let mut lines = 0u64;
    let mut bad = 0u64;
    for line in text.lines() {
        lines += 1;
        let verdict = answer_one(alloc, session, lines, line, writer, reports)?;
        bad += u64::from(verdict.is_bad);
        if stops && verdict.is_wrong {
            let is_refused = !verdict.is_bad;
            return Ok(Ending {
                lines,
                bad,
                is_refused,
            });
        }
    }
    let is_refused = false;
    Ok(Ending {
        lines,
        bad,
        is_refused,
    })
}

/// Runs a script as `run_script` does, and reports each line that is bad or refused. The run may
/// end at the first of them.
///
/// - `reader`: where the script comes from; it is read to its end first.
/// - `writer`: where replies go.
/// - `watch`: where reports go, and whether the run ends at the first line that is bad or refused.
///
/// Refused as `run_script` is.
pub fn run_watched<R: Read, W: Write, E: Report + Drop>(
    alloc: Global,
    reader: &mut R,
    writer: &mut W,
    watch: &mut Watch<E>,
) -> Result<Ending, ScriptFault>
    ensures { RanUntil watch.old.stops (R.remaining reader.old) (W.contents writer.old) (W.contents writer.new) result }
{
    let bytes = read_all(alloc, reader)?;
    let Ok(text) = std::str::from_utf8(bytes.as_slice()) else {
        return Err(ScriptFault::NotUtf8);
    };
    let mut session = Session::new(alloc);
    let (stops, reports) = (watch.stops, &mut watch.reports);
    answer_watched(alloc, &mut session, text, writer, reports, stops)
}

/// The exit status after a watched script: 7 if a refused line ended it, and else that of a script.
///
/// - `outcome`: how it ended.
pub fn watched_status(outcome: &Result<Ending, ScriptFault>) -> u8
    ensures { result ≡ watched_status outcome.now }
{
    match outcome {
        Ok(ending) if ending.is_refused => 7,
        Ok(ending) if ending.bad == 0 => 0,
        Ok(_) => 1,
        Err(ScriptFault::Read | ScriptFault::TooLong | ScriptFault::NotUtf8) => 3,
        Err(ScriptFault::Write) => 4,
        Err(ScriptFault::Memory) => 5,
    }
}
