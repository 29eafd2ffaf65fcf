//! What a transaction read before it was given other operations, and keeps when it reads again.
ghost use Rattle.std.specs.Prelude.{◌≡◌, IfOk, OnOk};
ghost use Rattle.std.specs.FinMap as map;
ghost use Rattle.typed_calls.specs.Pins.{IsPinnedView, pinned_key, pinned_all};

use crate::preparation::value_again;
use byte_map::Bytes;
use row_map::{ReadSet, ReadView};
use script_session::world::World;
use std::alloc::{AllocError, Global};

// Puts what was read of a key before, if the view has the key.
fn pin_key(view: &mut ReadView, key: &Bytes, value: &Option<Bytes>) -> Result<(), AllocError>
    ensures { OnOk result (view.new ≡ pinned_key view.old (key.now, value.now)) }
{
    if view.get(key.as_slice()).is_none() {
        return Ok(());
    }
    let value = value_again(value)?;
    view.insert(key.clone()?, value)
}

// The same of all keys that were read before.
fn pin_all(view: &mut ReadView, pins: &ReadView) -> Result<(), AllocError>
    ensures { OnOk result (view.new ≡ pinned_all view.old (map.entries pins.now)) }
{
    let entries = pins.entries();
    for (key, value) in entries {
        pin_key(view, key, value)?;
    }
    Ok(())
}

// The pairs of these keys: what was read before, or else what the world has there.
pub(crate) fn read_pinned(
    alloc: Global,
    world: &World,
    keys: &ReadSet,
    pins: &ReadView,
) -> Result<ReadView, AllocError>
    ensures { IfOk result (λ view. IsPinnedView world.now keys.now pins.now view) }
{
    let mut view = world.read(alloc, keys)?;
    pin_all(&mut view, pins)?;
    Ok(view)
}
