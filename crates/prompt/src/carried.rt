//! What goes with the reply to a line that carries changes on.
use std::alloc::{AllocError, Global};

/// That a plan is dropped, and from when on `advance` does what it waits for. Refused only when out of
/// memory.
///
/// - `dropped`: that a plan is dropped; empty if none is.
/// - `reply`: the reply.
pub(crate) fn carried_text(
    alloc: Global,
    dropped: String,
    reply: &str,
) -> Result<String, AllocError> {
    let Some(moment) = reply.strip_prefix("ok waiting ") else {
        return Ok(dropped);
    };
    let moment = moment.trim_end();
    let waits = format!(in alloc; "`advance at {moment}` goes on")?;
    if dropped.is_empty() {
        return Ok(waits);
    }
    let mut out = dropped;
    out.push_str("\n")?;
    out.push_str(waits.as_str())?;
    Ok(out)
}
