//! The names of elements that have left, which no version at hand has any more.
use collections::{ArcValue, List};
use keycode::Text;
use schema_version::Schema;
use script_json::script_session::Session;
use script_json::script_views::push_element;
use script_json::world::World;
use std::alloc::{AllocError, Global};

/// The newest version of an opened world; `None` before `open`. Refused only when out of memory.
///
/// - `session`: the session, which is only read.
pub(crate) fn newest_of(session: &Session) -> Result<Option<ArcValue<Schema>>, AllocError> {
    match session {
        Session::Declaring(_) => Ok(None),
        Session::Running(opened) => Ok(Some(opened.world.newest().clone()?)),
    }
}

fn push_name(
    alloc: Global,
    gone: &mut List<(u32, Text)>,
    before: &Schema,
    number: u32,
) -> Result<(), AllocError> {
    let mut name = String::new(alloc);
    push_element(&mut name, before, number)?;
    gone.push((number, Text::new(name)))?;
    Ok(())
}

// Keeps the names of elements that a version lacks, and the one before it had.
fn keep_left(
    alloc: Global,
    gone: &mut List<(u32, Text)>,
    before: &Schema,
    newest: &Schema,
) -> Result<(), AllocError> {
    for element in before.elements() {
        if newest.element(element.number).is_none() {
            push_name(alloc, gone, before, element.number)?;
        }
    }
    Ok(())
}

/// Keeps the name of each element of an earlier version that the newest one of a world lacks. Refused
/// only when out of memory.
///
/// - `gone`: the names so far, by their numbers.
/// - `before`: the newest version before the line, if a world was open.
/// - `world`: the world after it, which is only read.
pub(crate) fn keep_gone(
    alloc: Global,
    gone: &mut List<(u32, Text)>,
    before: &Option<ArcValue<Schema>>,
    world: &World,
) -> Result<(), AllocError> {
    match before {
        Some(before) => keep_left(alloc, gone, before.get(), world.newest().get()),
        None => Ok(()),
    }
}

/// The same of the world of a session; nothing before `open`.
///
/// - `session`: the session after the line, which is only read.
pub(crate) fn keep_gone_of(
    alloc: Global,
    gone: &mut List<(u32, Text)>,
    before: &Option<ArcValue<Schema>>,
    session: &Session,
) -> Result<(), AllocError> {
    match session {
        Session::Declaring(_) => Ok(()),
        Session::Running(opened) => keep_gone(alloc, gone, before, &opened.world),
    }
}
