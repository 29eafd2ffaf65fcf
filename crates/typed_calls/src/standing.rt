//! How far a begun reorganisation is, and how the world stands.
ghost use Rattle.std.specs.Prelude.{◌≡◌};
ghost use Rattle.typed_calls.specs.Progress.{reached_at, TellsStatus};

use crate::status::{NOT_WANTED, OUT_OF_MEMORY};
use script_session::script_replies;
use script_session::world::World;
use std::alloc::Global;

/// How far a begun reorganisation is.
#[derive(Clone, Copy, Drop)]
pub struct Reached {
    /// Whether all its pieces have ended.
    pub ended: bool,
    /// The number of the first piece that has not ended; 0 if all have.
    pub next: u32,
    /// How many items are left, of those that are present.
    pub left: usize,
    /// How many items there are, of those that are present.
    pub all: usize,
}

/// How far the begun reorganisation of an element is, in a world. Nothing changes.
///
/// - `element`: the number of the element.
///
/// Refused only by `NOT_WANTED`, if no reorganisation of the element has begun, or it is over.
pub fn progress(world: &World, element: u32) -> Result<Reached, i32>
    ensures { result ≡ reached_at world.now element }
{
    let Some((_, _, ended)) = world.progress(element) else {
        return Err(NOT_WANTED);
    };
    Ok(Reached {
        ended,
        next: world.next_piece(element).unwrap_or(0),
        left: world.items_left(element).unwrap_or(0),
        all: world.items_in_all(element).unwrap_or(0),
    })
}

/// How a world stands, as one line of JSON without a line end, which `script_replies::status_line`
/// describes. Nothing changes. Refused only by `OUT_OF_MEMORY`.
pub fn status_line(alloc: Global, world: &World) -> Result<String, i32>
    ensures { TellsStatus world.now result }
{
    match script_replies::status_line(alloc, world) {
        Ok(line) => Ok(line),
        Err(_) => Err(OUT_OF_MEMORY),
    }
}
