//! The status of a world as JSON.
ghost use Rattle.std.specs.Prelude.{◌≡◌, IfOk, string_bytes};
ghost use Rattle.serde_json.specs.View.{view};
ghost use Rattle.script_replies.specs.Status.{IsStatus, status_data};

use crate::elements::elements_value;
use crate::usable::{numbers_value, usable_versions};
use piece_work::world::World;
use serde_json::{Value, json};
use std::alloc::{AllocError, Global};

fn status_value(alloc: Global, world: &World, usable: &[u64]) -> Result<Value, AllocError>
    ensures { IfOk result (λ value. view value ≡ status_data world.now usable.now) }
{
    let elements = elements_value(alloc, world.newest().get())?;
    let log = world.log_len();
    let moment = world.moment();
    let usable = numbers_value(alloc, usable)?;
    let version = world.timeline().newest();
    json!(in alloc; {"elements": elements, "log": log, "moment": moment, "usable": usable, "version": version})
}

/// The one line of JSON that tells how a world stands: compact, with no line end, an object with
/// these keys in this order.
///
/// - `elements`: the live elements of the newest version by rising number, each an object with
///   `name`, `number`, `state` (`delete_only`, `write_only` or `public`), `table` (the table's
///   name) and `way` (`adding` or `dropping`);
/// - `log`: how many log entries there were ever, those that were cut off among them;
/// - `moment`: the moment of the last entry, 0 before the first;
/// - `usable`: the versions that a lease may still use at that moment, rising;
/// - `version`: the newest version's number.
///
/// `world` is only read. Refused only when out of memory.
pub fn status_line(alloc: Global, world: &World) -> Result<String, AllocError>
    ensures { IfOk result (λ text. IsStatus world.now (string_bytes text)) }
{
    let usable = usable_versions(alloc, world)?;
    status_value(alloc, world, usable.as_slice())?.to_string(alloc)
}
