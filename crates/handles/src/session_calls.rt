//! The calls of a session by lines, and the end of a handle.
ghost use Rattle.std.specs.Prelude.{◌≡◌};
ghost use Rattle.typed_calls.specs.Session.{nothing_declared};
ghost use Rattle.handles.specs.Calls.{Closes};
ghost use Rattle.handles.specs.Sessions.{no_names, OpensSession, RepliesTo, RepliesFrom};
ghost use Rattle.handles.specs.declared.engine.Script.TheVariants as of_script;

use crate::boxes::{filled, taken_out};
use crate::engine::{Conversation, Engine, Names, Script, nothing_declared};
use crate::handle::Handle;
use crate::lines::reply_engine;
use crate::outcome::{Outcome, lay};
use byte_map::KeyMap;
use collections::List;
use std::alloc::Global;
use typed_calls::status::{ALREADY_OPEN, CLOSED, OK};

impl Handle {
    // Opens a session with this script.
    fn open_script(&mut self, alloc: Global, script: Script) -> i32
        ensures { OpensSession script self.old.place.value result self.new.place.value }
    {
        if self.is_open {
            return ALREADY_OPEN;
        }
        self.fill(alloc, Engine::Session(Conversation::new(alloc, script)))
    }

    /// Opens a session at its start, before its line `open`. `OK`; else `ALREADY_OPEN` or
    /// `OUT_OF_MEMORY`, which change nothing.
    pub fn open_session(&mut self, alloc: Global) -> i32
        ensures { OpensSession (of_script.Declaring nothing_declared) self.old.place.value result self.new.place.value }
    {
        self.open_script(alloc, Script::Declaring(nothing_declared(alloc)))
    }

    /// Opens a session after its line `open`, with no leases, nothing prepared and no plan: for a
    /// world that is open. `OK`; else `ALREADY_OPEN` or `OUT_OF_MEMORY`, which change nothing.
    pub fn attach(&mut self, alloc: Global) -> i32
        ensures { OpensSession (of_script.Running no_names) self.old.place.value result self.new.place.value }
    {
        let names = Names {
            leases: KeyMap::new(alloc),
            pending: KeyMap::new(alloc),
            plan: List::new(Vec::new(alloc)),
        };
        self.open_script(alloc, Script::Running(names))
    }

    /// Answers a line, which is given without its ending, and writes as much of the reply to `out`
    /// as fits. Before its line `open` a session takes a closed handle `world`, in which that line
    /// leaves the world, with `ANY_JUMP`; after it, one that holds a world. `OK` or `BAD_LINE`; else
    /// `CLOSED` (of the session), `ALREADY_OPEN` or `CLOSED` (of `world`), `NOT_UTF8`, or `TOO_FAR`
    /// if the line names a moment that is, which change nothing, or `OUT_OF_MEMORY`, which may come
    /// in place of `TOO_FAR` and closes both handles.
    pub fn reply_to(
        &mut self,
        alloc: Global,
        world: &mut Handle,
        line: &[u8],
        out: &mut [u8],
    ) -> Outcome
        ensures { RepliesTo self.old.place.value world.old.place.value line.now out.old result out.new self.new.place.value world.new.place.value }
    {
        let Some(engine) = self.take(alloc) else {
            return Outcome::refusal(CLOSED);
        };
        let (held, room) = taken_out(alloc, engine);
        let (outcome, left) = reply_engine(alloc, held, world, line, out);
        if let Some(left) = left {
            self.put(filled(room, left));
        }
        outcome
    }

    /// Writes as much of the last reply to `out` as fits, from this byte of it on. `OK`; else
    /// `CLOSED`.
    pub fn reply_from(&mut self, alloc: Global, from: usize, out: &mut [u8]) -> Outcome
        ensures replies { RepliesFrom self.old.place.value from out.old result out.new }
        ensures same { self.new.place.value ≡ self.old.place.value }
    {
        let Some(engine) = self.take(alloc) else {
            return Outcome::refusal(CLOSED);
        };
        let Engine::Session(conversation) = &*engine else {
            self.put(engine);
            return Outcome::refusal(CLOSED);
        };
        let reply = conversation.reply.as_str().as_bytes();
        let length = reply.len();
        if from < length {
            lay(out, reply.split_at(from).1);
        }
        self.put(engine);
        Outcome { status: OK, length }
    }

    /// Frees what the handle holds, whatever it is, and closes it. `OK`; else `CLOSED`.
    pub fn close(&mut self, alloc: Global) -> i32
        ensures { Closes self.old.place.value result self.new.place.value }
    {
        match self.take(alloc) {
            Some(_) => OK,
            None => CLOSED,
        }
    }
}
