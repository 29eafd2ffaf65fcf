//! Lines whose `at M` was left out.
ghost use Rattle.std.specs.Prelude.{◌≡◌, ◌++◌, ◌==◌, IfOk, Some, codes, string_bytes, true, false};
ghost use Rattle.std.specs.Fmt.{decimal};
ghost use Rattle.std.specs.List.{before_first};
ghost use Rattle.std.specs.Option.{option_map};
ghost use Rattle.prompt.specs.Conversation.{is_quit, is_view, is_view_word, quits};
ghost use Rattle.prompt.specs.Moment.{IsForeign, IsCutAt, IsGiven, first_word, is_command, last_moment, moment_mark};

use script_grammar::{is_silent, read_command};
use script_json::script_session::Session;
use script_tokens::{LineFault, Mark, Token, is_mark, is_word, tokens_of};
use std::alloc::{AllocError, Global};

// Whether these are `quit`, `exit` or `.quit` alone.
fn quits(tokens: &[Token<'_>]) -> bool
    ensures { result ≡ quits (Some tokens.now) }
{
    match tokens {
        [only] => is_word(only, b"quit") || is_word(only, b"exit"),
        [dot, word] => is_mark(dot, Mark::Dot) && is_word(word, b"quit"),
        _ => false,
    }
}

/// Whether a line ends the conversation: it is `quit`, `exit`, `.quit` or `\q` alone.
///
/// - `line`: the line without its ending.
pub(crate) fn is_quit(alloc: Global, line: &[u8]) -> Result<bool, AllocError>
    ensures { IfOk result (λ quits. quits ≡ is_quit line.now) }
{
    if line == b"\\q".as_slice() {
        return Ok(true);
    }
    match tokens_of(alloc, line)? {
        Some(tokens) => Ok(quits(tokens.as_slice())),
        None => Ok(false),
    }
}

/// Whether a line is none that a script has: it is no command, and it is not silent.
///
/// - `line`: the line without its ending.
pub(crate) fn is_foreign(alloc: Global, line: &[u8]) -> Result<bool, AllocError>
    ensures yes { IfOk result (λ foreign. foreign ≡ true → IsForeign line.now) }
    ensures no { IfOk result (λ foreign. foreign ≡ false → IsForeign line.now → ⊥) }
{
    if is_silent(line) {
        return Ok(false);
    }
    let read = read_command(alloc, line);
    let foreign = match &read {
        Ok(_) => Ok(false),
        Err(LineFault::Malformed) => Ok(true),
        Err(LineFault::Memory) => Err(AllocError),
    };
    drop(read);
    foreign
}

// The moment that a left out one stands for: that of the log's last entry.
fn last_moment(session: &Session) -> u64
    ensures { result ≡ last_moment session.now }
{
    match session {
        Session::Declaring(_) => 0,
        Session::Running(opened) => opened.world.moment(),
    }
}

// What a line has before its first space.
pub(crate) fn first_word(line: &str) -> &str
    ensures { result.now ≡ first_word line.entry.now }
{
    match line.split_once(' ') {
        Some((word, _)) => word,
        None => line,
    }
}

// Whether a line with this first word may show a view of the session.
fn is_view_word(word: &str) -> bool
    ensures { result ≡ is_view_word word.now }
{
    match word {
        "help" | "describe" | "check" | "leases" | "progress" => true,
        "plan" | "timeline" | "explain" | "advance" | "finish" | "rows" | "try" => true,
        _ => false,
    }
}

/// Whether a line may show a view of the session, by its first word.
///
/// - `line`: the line without its ending; white space around it does not matter.
pub(crate) fn is_view(line: &str) -> bool
    ensures { result ≡ is_view line.now }
{
    is_view_word(first_word(line.trim()))
}

// What follows a left out moment, by the first word of the line: a colon, one of the words `pieces`
// and `limit`, or nothing.
fn moment_mark(word: &str) -> Option<&'static str>
    ensures { option_map (λ mark. mark.now) result ≡ moment_mark word.now }
{
    match word {
        "lease" | "commit" | "next" => Some(""),
        "txn" | "query" | "publish" | "publish:" => Some(":"),
        "reorganise" => Some(" pieces"),
        "work" => Some(" limit"),
        _ => None,
    }
}

// A line at the place of a left out moment: what is before it, the mark that follows it, and the
// rest.
fn cut_at_moment(line: &str) -> Option<(&str, &'static str, &str)>
    ensures { IsCutAt (moment_mark (first_word line.entry.now)) line.entry.now (option_map (λ cut. (cut.0.now, (cut.1.now, cut.2.now))) result) }
{
    let mark = moment_mark(first_word(line))?;
    if mark.is_empty() {
        return Some((line, "", ""));
    }
    let (front, back) = line.split_once(mark)?;
    Some((front, mark, back))
}

fn with_moment(
    alloc: Global,
    front: &str,
    moment: u64,
    mark: &str,
    back: &str,
) -> Result<String, AllocError>
    ensures { IfOk result (λ given. string_bytes given ≡ front.now ++ (codes " at " ++ decimal moment) ++ mark.now ++ back.now) }
{
    let mut given = front.to_string(alloc)?;
    write!(given, " at {moment}")?;
    given.push_str(mark)?;
    given.push_str(back)?;
    Ok(given)
}

// Whether a line is a command.
fn is_command(alloc: Global, line: &[u8]) -> Result<bool, AllocError>
    ensures { IfOk result (λ found. found ≡ is_command line.now) }
{
    let read = read_command(alloc, line);
    let found = match &read {
        Ok(_) => Ok(true),
        Err(LineFault::Malformed) => Ok(false),
        Err(LineFault::Memory) => Err(AllocError),
    };
    drop(read);
    found
}

/// What the session is given for a line: the line itself, or, if that is no command and one only
/// because its `at M` was left out, the line with the moment of the log's last entry.
///
/// - `session`: the session, which is only read.
/// - `line`: the line without its ending.
///
/// Refused only when out of memory.
pub(crate) fn given_line(alloc: Global, session: &Session, line: &str) -> Result<String, AllocError>
    ensures { IfOk result (λ given. IsGiven session.now line.now (string_bytes given)) }
{
    if !is_foreign(alloc, line.as_bytes())? {
        return line.to_string(alloc);
    }
    let Some((front, mark, back)) = cut_at_moment(line) else {
        return line.to_string(alloc);
    };
    let given = with_moment(alloc, front, last_moment(session), mark, back)?;
    if is_command(alloc, given.as_str().as_bytes())? {
        Ok(given)
    } else {
        line.to_string(alloc)
    }
}
