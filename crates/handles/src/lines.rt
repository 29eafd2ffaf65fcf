//! A line of a session whose world is in a handle of its own: script and world are put together,
//! the line is answered, and they are taken apart again.
ghost use Rattle.std.specs.Prelude.{◌≡◌, None, Some, length};
ghost use Rattle.typed_calls.specs.SessionVariants.TheVariants as whole;
ghost use Rattle.handles.specs.Moments.{any_jump};
ghost use Rattle.handles.specs.Replies.{reply_status};
ghost use Rattle.handles.specs.Sessions.{opened_with, script_of, world_of, Answers, RepliesWith, RepliesEngine};
ghost use Rattle.handles.specs.declared.engine.Engine.TheVariants as engine;
ghost use Rattle.handles.specs.declared.engine.Script.TheVariants as of_script;

use crate::boxes::{filled, room, taken_out};
use crate::engine::{Conversation, Engine, Names, Script};
use crate::handle::Handle;
use crate::moments::is_line_too_far;
use crate::outcome::{Outcome, lay};
use std::alloc::Global;
use typed_calls::script_session::{Declarations, Opened, Session};
use typed_calls::status::{ALREADY_OPEN, BAD_LINE, CLOSED, NOT_UTF8, OK, OUT_OF_MEMORY, TOO_FAR};
use typed_calls::world::World;
use typed_calls::{ANY_JUMP, BoundedWorld};

// The session that these names and a world make together.
fn session_with(names: Names, world: World) -> Session
    ensures { result ≡ whole.Running (opened_with names world) }
{
    let Names {
        leases,
        pending,
        plan,
    } = names;
    Session::Running(Opened {
        world,
        leases,
        pending,
        plan,
    })
}

// Puts the world of a session into its closed handle, and gives what the session keeps besides it.
fn keep_parts(
    session: Session,
    furthest: u64,
    room: Box<Engine, Global>,
    handle: &mut Handle,
) -> Script
    requires { handle.old.place.value ≡ None }
    ensures script { result ≡ script_of session }
    ensures world { handle.new.place.value ≡ world_of furthest session }
{
    match session.into_opened() {
        Err(declared) => Script::Declaring(declared),
        Ok(opened) => {
            let (world, leases, pending, plan) = opened.into_parts();
            let bounded = BoundedWorld { world, furthest };
            handle.put(filled(room, Engine::World(bounded)));
            Script::Running(Names {
                leases,
                pending,
                plan,
            })
        }
    }
}

// What a line that has its reply is reported as.
fn answered(reply: &str, is_bad: bool) -> Outcome
    ensures { result ≡ record { status = reply_status is_bad; length = length reply.now } }
{
    Outcome {
        status: if is_bad { BAD_LINE } else { OK },
        length: reply.len(),
    }
}

// Answers a line in a session, whose world then goes into its closed handle, and gives what the
// handle of the session is to hold: nothing if memory runs out.
fn answer_line(
    alloc: Global,
    mut session: Session,
    furthest: u64,
    room: Box<Engine, Global>,
    handle: &mut Handle,
    line: &str,
    out: &mut [u8],
) -> (Outcome, Option<Engine>)
    requires { handle.old.place.value ≡ None }
    ensures { Answers furthest session line.now out.old result.0 out.new result.1 handle.new.place.value }
{
    let Ok(answer) = session.reply_to(alloc, line) else {
        return (Outcome::refusal(OUT_OF_MEMORY), None);
    };
    let script = keep_parts(session, furthest, room, handle);
    let text = answer.text.as_str();
    lay(out, text.as_bytes());
    let outcome = answered(text, answer.is_bad);
    let reply = answer.text;
    (
        outcome,
        Some(Engine::Session(Conversation { script, reply })),
    )
}

// A line before `open`, which leaves the world in a closed handle.
fn reply_declaring(
    alloc: Global,
    declared: Declarations,
    handle: &mut Handle,
    line: &str,
    out: &mut [u8],
) -> (Outcome, Option<Engine>)
    requires { handle.old.place.value ≡ None }
    ensures { Answers any_jump (whole.Declaring declared) line.now out.old result.0 out.new result.1 handle.new.place.value }
{
    let Ok(room) = room(alloc) else {
        return (Outcome::refusal(OUT_OF_MEMORY), None);
    };
    let session = Session::Declaring(declared);
    answer_line(alloc, session, ANY_JUMP, room, handle, line, out)
}

// A line after `open`, in this world, whose handle is closed meanwhile.
fn reply_running(
    alloc: Global,
    names: Names,
    bounded: BoundedWorld,
    room: Box<Engine, Global>,
    handle: &mut Handle,
    line: &str,
    out: &mut [u8],
) -> (Outcome, Option<Engine>)
    requires { handle.old.place.value ≡ None }
    ensures { Answers bounded.furthest (whole.Running (opened_with names bounded.world)) line.now out.old result.0 out.new result.1 handle.new.place.value }
{
    let BoundedWorld { world, furthest } = bounded;
    let session = session_with(names, world);
    answer_line(alloc, session, furthest, room, handle, line, out)
}

// The session of a line that is refused.
fn declined(status: i32, script: Script, reply: String) -> (Outcome, Option<Engine>)
    ensures outcome { result.0 ≡ record { status = status; length = 0 } }
    ensures session { result.1 ≡ Some (engine.Session (record { script = script; reply = reply })) }
{
    (
        Outcome::refusal(status),
        Some(Engine::Session(Conversation { script, reply })),
    )
}

// A line before `open`: the handle of its world is to be closed.
fn reply_before(
    alloc: Global,
    declared: Declarations,
    reply: String,
    handle: &mut Handle,
    line: &[u8],
    out: &mut [u8],
) -> (Outcome, Option<Engine>)
    ensures { RepliesWith (of_script.Declaring declared) reply handle.old.place.value line.now out.old result.0 out.new result.1 handle.new.place.value }
{
    if handle.is_open() {
        return declined(ALREADY_OPEN, Script::Declaring(declared), reply);
    }
    let Ok(text) = std::str::from_utf8(line) else {
        return declined(NOT_UTF8, Script::Declaring(declared), reply);
    };
    reply_declaring(alloc, declared, handle, text, out)
}

// A line after `open`, in this world.
fn reply_in(
    alloc: Global,
    names: Names,
    reply: String,
    bounded: BoundedWorld,
    room: Box<Engine, Global>,
    handle: &mut Handle,
    line: &[u8],
    out: &mut [u8],
) -> (Outcome, Option<Engine>)
    requires { handle.old.place.value ≡ None }
    ensures { RepliesWith (of_script.Running names) reply (Some (engine.World bounded)) line.now out.old result.0 out.new result.1 handle.new.place.value }
{
    let Ok(text) = std::str::from_utf8(line) else {
        handle.put(filled(room, Engine::World(bounded)));
        return declined(NOT_UTF8, Script::Running(names), reply);
    };
    let Ok(far) = is_line_too_far(alloc, &bounded, line) else {
        return (Outcome::refusal(OUT_OF_MEMORY), None);
    };
    if far {
        handle.put(filled(room, Engine::World(bounded)));
        return declined(TOO_FAR, Script::Running(names), reply);
    }
    reply_running(alloc, names, bounded, room, handle, text, out)
}

// A line after `open`: the handle is to hold a world.
fn reply_after(
    alloc: Global,
    names: Names,
    reply: String,
    handle: &mut Handle,
    line: &[u8],
    out: &mut [u8],
) -> (Outcome, Option<Engine>)
    ensures { RepliesWith (of_script.Running names) reply handle.old.place.value line.now out.old result.0 out.new result.1 handle.new.place.value }
{
    let Some(engine) = handle.take(alloc) else {
        return declined(CLOSED, Script::Running(names), reply);
    };
    let (held, room) = taken_out(alloc, engine);
    match held {
        Engine::World(bounded) => reply_in(alloc, names, reply, bounded, room, handle, line, out),
        other => {
            handle.put(filled(room, other));
            declined(CLOSED, Script::Running(names), reply)
        }
    }
}

/// Answers a line, if the engine is a session, whose world is in the handle, and gives what is left
/// of the engine.
pub(crate) fn reply_engine(
    alloc: Global,
    engine: Engine,
    handle: &mut Handle,
    line: &[u8],
    out: &mut [u8],
) -> (Outcome, Option<Engine>)
    ensures { RepliesEngine engine handle.old.place.value line.now out.old result.0 out.new result.1 handle.new.place.value }
{
    match engine {
        Engine::Session(conversation) => {
            let (script, reply) = conversation.into_parts();
            match script {
                Script::Declaring(declared) => {
                    reply_before(alloc, declared, reply, handle, line, out)
                }
                Script::Running(names) => reply_after(alloc, names, reply, handle, line, out),
            }
        }
        other => (Outcome::refusal(CLOSED), Some(other)),
    }
}
