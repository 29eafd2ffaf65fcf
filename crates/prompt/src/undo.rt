//! The line `undo`, and the declarations that it takes back.
ghost use Rattle.std.specs.Prelude.{◌≡◌, IfOk, option_map, string_bytes};
ghost use Rattle.script_grammar.specs.Commands.{command_at};
ghost use Rattle.script_json.specs.Session.{empty};
ghost use Rattle.prompt.specs.Undo.{AreReplied, TakesBack, declared_after, declared_by, effect_of, is_undo, line_effect};

use crate::alone::is_alone;
use crate::state::PromptState;
use collections::List;
use keycode::Text;
use script_grammar::{Command, read_command};
use script_json::script_session::Session;
use script_tokens::LineFault;
use std::alloc::{AllocError, Global};

/// Whether a line is `undo`. Refused only when out of memory.
///
/// - `line`: the line without its ending.
pub(crate) fn is_undo(alloc: Global, line: &[u8]) -> Result<bool, AllocError>
    ensures { IfOk result (λ found. found ≡ is_undo line.now) }
{
    is_alone(alloc, line, b"undo")
}

// The session after these lines, in turn.
fn replayed(alloc: Global, lines: &[Text]) -> Result<Session, AllocError>
    ensures { IfOk result (λ session. AreReplied empty lines.now session) }
{
    let mut session = Session::new(alloc);
    for line in lines {
        session.reply_to(alloc, line.as_str())?;
    }
    Ok(session)
}

/// Takes the last declaration back, and gives its line; `None` if there is none. Refused only when
/// out of memory; discard the state then.
///
/// - `state`: the session and its declarations.
pub(crate) fn take_back(alloc: Global, state: &mut PromptState) -> Result<Option<Text>, AllocError>
    ensures { IfOk result (λ taken. TakesBack state.old taken state.new) }
{
    let declared = std::mem::replace(&mut state.declared, List::new(Vec::new(alloc)));
    let mut lines = declared.into_vec();
    let Some(last) = lines.pop() else {
        return Ok(None);
    };
    state.session = replayed(alloc, lines.as_slice())?;
    state.declared = List::new(lines);
    Ok(Some(last))
}

/// What was taken back, in words. Refused only when out of memory.
///
/// - `session`: the session, which is only read.
/// - `taken`: the line that was taken back, if there was one.
pub(crate) fn taken_text(
    alloc: Global,
    session: &Session,
    taken: Option<&Text>,
) -> Result<String, AllocError> {
    match (session, taken) {
        (_, Some(line)) => {
            let line = line.as_str().trim();
            format!(in alloc; "taken back: {line}")
        }
        (Session::Declaring(_), None) => "no declaration is left to take back".to_string(alloc),
        (Session::Running(_), None) => {
            "undo takes declarations back, before `open`".to_string(alloc)
        }
    }
}

/// What a good line does to the declarations before `open`.
#[derive(Clone, Copy, PartialEq, Eq)]
pub(crate) enum Effect {
    /// It is one more.
    Adds,
    /// It is `open`.
    Forgets,
    /// It is another line.
    Keeps,
}

fn effect_of(command: &Command) -> Effect
    ensures { result ≡ effect_of command.now }
{
    match command {
        Command::Length(_) | Command::Table { .. } | Command::Index { .. } => Effect::Adds,
        Command::Open => Effect::Forgets,
        _ => Effect::Keeps,
    }
}

fn line_effect(alloc: Global, line: &[u8]) -> Result<Effect, AllocError>
    ensures { IfOk result (λ effect. effect ≡ line_effect (command_at line.now)) }
{
    let read = read_command(alloc, line);
    let effect = match &read {
        Ok(command) => Ok(effect_of(command)),
        Err(LineFault::Malformed) => Ok(Effect::Keeps),
        Err(LineFault::Memory) => Err(AllocError),
    };
    drop(read);
    effect
}

// The declarations after a good line.
fn declared_by(alloc: Global, declared: List<Text>, line: String) -> Result<List<Text>, AllocError>
    ensures { IfOk result (λ lines. lines ≡ declared_by declared (string_bytes line) (line_effect (command_at (string_bytes line)))) }
{
    let mut declared = declared;
    match line_effect(alloc, line.as_str().as_bytes())? {
        Effect::Adds => {
            declared.push(Text::new(line))?;
            Ok(declared)
        }
        Effect::Forgets => Ok(List::new(Vec::new(alloc))),
        Effect::Keeps => Ok(declared),
    }
}

/// Keeps a line that was answered, if it is a declaration. Refused only when out of memory; discard
/// the state then.
///
/// - `state`: the session after the reply, and the declarations before it.
/// - `line`: the line.
/// - `is_bad`: whether its reply is `bad line`.
pub(crate) fn keep_declared(
    alloc: Global,
    state: &mut PromptState,
    line: String,
    is_bad: bool,
) -> Result<(), AllocError>
    ensures session { IfOk result (λ done. state.new.session ≡ state.old.session) }
    ensures declared { IfOk result (λ done. state.new.declared ≡ declared_after state.old.session state.old.declared (string_bytes line) is_bad) }
{
    let declared = std::mem::replace(&mut state.declared, List::new(Vec::new(alloc)));
    state.declared = match &state.session {
        Session::Running(_) => return Ok(()),
        Session::Declaring(_) if is_bad => declared,
        Session::Declaring(_) => declared_by(alloc, declared, line)?,
    };
    Ok(())
}
