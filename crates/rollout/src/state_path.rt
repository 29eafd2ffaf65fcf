//! The states that an element passes on its way.
ghost use Rattle.std.specs.Prelude.{◌≡◌};
ghost use Rattle.rollout.specs.StatePath.{next_state as next_state_of};

use schema_version::{ElementDef, ElementState, Way};

/// The state that comes next on the way of an element; `None` if it is public and not being
/// dropped, so that no change is under way.
///
/// - `element`: a live element of a version.
pub fn next_state(element: &ElementDef) -> Option<ElementState>
    ensures { result ≡ next_state_of element.now }
{
    use ElementState::{Absent, DeleteOnly, Public, WriteOnly};
    match (element.kind.is_filled(), element.way, element.state) {
        (true, Way::Adding, DeleteOnly) => Some(WriteOnly),
        (true, Way::Adding, WriteOnly) => Some(Public),
        (true, Way::Dropping, WriteOnly) => Some(DeleteOnly),
        (true, Way::Dropping, DeleteOnly) => Some(Absent),
        (false, Way::Adding, DeleteOnly) => Some(Public),
        (false, Way::Dropping, DeleteOnly) => Some(Absent),
        _ => None,
    }
}
