//! Boxes of engines: a call takes an engine out of its box and puts one back, without a further
//! allocation.
ghost use Rattle.std.specs.Prelude.{◌≡◌, IfOk};

use crate::engine::Engine;
use collections::List;
use std::alloc::{AllocError, Global};

// What is in a box that is to be filled.
fn vacant(alloc: Global) -> Engine {
    Engine::Bytes(List::new(Vec::new(alloc)))
}

/// A box with this engine. Refused only when out of memory; the engine is then let go.
pub(crate) fn boxed(alloc: Global, engine: Engine) -> Result<Box<Engine, Global>, AllocError>
    ensures { IfOk result (λ b. b.value ≡ engine) }
{
    Ok(Box::new(alloc, engine)?)
}

/// A box that is to be filled.
pub(crate) fn room(alloc: Global) -> Result<Box<Engine, Global>, AllocError> {
    boxed(alloc, vacant(alloc))
}

/// The engine of a box, and the box, which is to be filled.
pub fn taken_out(alloc: Global, mut engine: Box<Engine, Global>) -> (Engine, Box<Engine, Global>)
    ensures { result.0 ≡ engine.value }
{
    let held = std::mem::replace(&mut *engine, vacant(alloc));
    (held, engine)
}

/// The box with this engine.
pub fn filled(mut room: Box<Engine, Global>, engine: Engine) -> Box<Engine, Global>
    ensures { result.value ≡ engine }
{
    drop(std::mem::replace(&mut *room, engine));
    room
}
