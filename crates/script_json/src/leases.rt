//! The leases of servers as JSON.
use crate::object::{Object, list_object, put_flag, put_number, put_text};
use script_progress::script_session::{Opened, ServerLease};
use script_progress::{Standing, standing_of, standing_word};
use serde_json::{Map, Value};
use std::alloc::{AllocError, Global};

fn put_lease(
    alloc: Global,
    out: &mut Object,
    opened: &Opened,
    held: &ServerLease,
) -> Result<(), AllocError> {
    let lease = &held.lease;
    let standing = standing_of(opened, held);
    let in_force = matches!(standing, Standing::InForce);
    put_number(alloc, out, "version", lease.version)?;
    put_number(alloc, out, "from", lease.granted)?;
    put_number(alloc, out, "until", lease.until)?;
    put_flag(alloc, out, "in_force", in_force)?;
    put_text(alloc, out, "standing", standing_word(standing))
}

fn lease_value(
    alloc: Global,
    opened: &Opened,
    server: &str,
    held: &ServerLease,
) -> Result<Value, AllocError> {
    let mut out = Map::new(alloc);
    put_text(alloc, &mut out, "server", server)?;
    put_lease(alloc, &mut out, opened, held)?;
    Ok(Value::Object(out))
}

/// The leases of all servers, by their names: `{"leases": [..]}`, each with `server`, `version`, `from`,
/// `until`, `in_force`, and `standing` in words. Refused only when out of memory.
pub(crate) fn leases_value(alloc: Global, opened: &Opened) -> Result<Value, AllocError> {
    let mut leases = Vec::new(alloc);
    for (name, held) in opened.leases.entries() {
        let server = std::str::from_utf8(name.as_slice()).unwrap_or("");
        leases.push(lease_value(alloc, opened, server, held)?)?;
    }
    list_object(alloc, "leases", leases)
}
