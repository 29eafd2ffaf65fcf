//! The leases that servers hold.
use lease::LeaseFault;
use script_views::script_session::{Opened, ServerLease};
use std::alloc::{AllocError, Global};

/// How a lease stands at the moment of the last entry.
#[derive(Clone, Copy, PartialEq, Eq)]
pub enum Standing {
    /// It is in force.
    InForce,
    /// It has ended.
    Ended,
    /// No grant could have given it.
    NeverGranted,
}

/// How a server's lease stands at the moment of the last entry.
///
/// - `opened`: the world.
/// - `held`: the lease.
pub fn standing_of(opened: &Opened, held: &ServerLease) -> Standing {
    let moment = opened.world.moment();
    match opened.world.timeline().standing(&held.lease, moment) {
        Ok(()) => Standing::InForce,
        Err(LeaseFault::LeaseEnded { .. }) => Standing::Ended,
        Err(_) => Standing::NeverGranted,
    }
}

/// How a lease stands, in words.
pub fn standing_word(standing: Standing) -> &'static str {
    match standing {
        Standing::InForce => "in force",
        Standing::Ended => "ended",
        Standing::NeverGranted => "never granted",
    }
}

fn push_lease(
    out: &mut String,
    opened: &Opened,
    name: &str,
    held: &ServerLease,
) -> Result<(), AllocError> {
    let lease = &held.lease;
    let (version, granted, until) = (lease.version, lease.granted, lease.until);
    let standing = standing_word(standing_of(opened, held));
    write!(
        out,
        "{name:<8}  version {version}, from {granted} until {until}, {standing}\n"
    )
}

/// The leases of all servers, by their names. Refused only when out of memory.
pub fn leases_text(alloc: Global, opened: &Opened) -> Result<String, AllocError> {
    let mut out = String::new(alloc);
    for (name, held) in opened.leases.entries() {
        let name = std::str::from_utf8(name.as_slice()).unwrap_or("");
        push_lease(&mut out, opened, name, held)?;
    }
    if out.is_empty() {
        out.push_str("no server has a lease")?;
    }
    Ok(out)
}
