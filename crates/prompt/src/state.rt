//! What is kept between two lines.
ghost use Rattle.std.specs.Prelude.{◌≡◌, Some};
ghost use Rattle.prompt.specs.Start.{start_at};

use byte_map::KeyMap;
use collections::List;
use keycode::Text;
use script_json::script_session::{Opened, Session};
use script_json::world::{Checkpoint, World};
use std::alloc::Global;

/// The session, the lines that declared what is declared in it, and what has left it.
pub(crate) struct PromptState {
    /// The session.
    pub(crate) session: Session,
    /// The lines, of which `undo` takes the last back; none after `open`.
    pub(crate) declared: List<Text>,
    /// The names of elements that have left, by their numbers, for the lines that show earlier versions.
    pub(crate) gone: List<(u32, Text)>,
}

// By hand, so that a caller's proof sees one call and not each field's.
impl Drop for PromptState {
    fn drop(self) {
        let PromptState {
            session: _,
            declared: _,
            gone: _,
        } = self;
    }
}

// A session in which nothing but the world is there.
fn session_at(alloc: Global, checkpoint: Checkpoint) -> Session
    ensures { result ≡ (start_at (Some checkpoint)).session }
{
    Session::Running(Opened {
        world: World::open_at(alloc, checkpoint),
        leases: KeyMap::new(alloc),
        pending: KeyMap::new(alloc),
        plan: List::new(Vec::new(alloc)),
    })
}

impl PromptState {
    /// Where a conversation begins: nothing is declared, or a world goes on from a checkpoint.
    ///
    /// - `checkpoint`: the checkpoint, if there is one.
    pub(crate) fn new(alloc: Global, checkpoint: Option<Checkpoint>) -> PromptState
        ensures { result ≡ start_at checkpoint }
    {
        let session = match checkpoint {
            Some(checkpoint) => session_at(alloc, checkpoint),
            None => Session::new(alloc),
        };
        PromptState {
            session,
            declared: List::new(Vec::new(alloc)),
            gone: List::new(Vec::new(alloc)),
        }
    }
}
