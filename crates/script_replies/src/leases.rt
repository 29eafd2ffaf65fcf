//! The opening of a world, and the lease that a server is granted.
ghost use Rattle.std.specs.Prelude.{◌≡◌, IfOk, string_bytes};
ghost use Rattle.script_replies.specs.Texts.{line, refused, open_name, grant_name, leased};

use lease::Lease;
use piece_work::world::{GrantFault, OpenFault};
use std::alloc::{AllocError, Global};

/// The reply if no world was opened: `refused BadTable`.
///
/// - `fault`: why none was.
pub fn open_refusal(alloc: Global, fault: OpenFault) -> Result<String, AllocError>
    ensures { IfOk result (λ text. string_bytes text ≡ line (refused (open_name fault))) }
{
    match fault {
        OpenFault::BadTable => "refused BadTable\n".to_string(alloc),
        OpenFault::BadLength => "refused BadLength\n".to_string(alloc),
        OpenFault::Memory => "refused Memory\n".to_string(alloc),
    }
}

/// The reply if no lease was granted: `refused MomentTooLarge`.
///
/// - `fault`: why none was.
pub fn grant_refusal(alloc: Global, fault: GrantFault) -> Result<String, AllocError>
    ensures { IfOk result (λ text. string_bytes text ≡ line (refused (grant_name fault))) }
{
    match fault {
        GrantFault::MomentTooLarge => "refused MomentTooLarge\n".to_string(alloc),
        GrantFault::Memory => "refused Memory\n".to_string(alloc),
    }
}

/// The reply to a lease that was granted: `ok lease VERSION GRANTED UNTIL`.
///
/// - `lease`: the lease.
pub fn lease_line(alloc: Global, lease: &Lease) -> Result<String, AllocError>
    ensures { IfOk result (λ text. string_bytes text ≡ line (leased lease.now)) }
{
    let version = lease.version;
    let granted = lease.granted;
    let until = lease.until;
    let mut text = String::new(alloc);
    text.push_str("ok lease ")?;
    write!(text, "{version}")?;
    text.push_str(" ")?;
    write!(text, "{granted}")?;
    text.push_str(" ")?;
    write!(text, "{until}")?;
    text.push_str("\n")?;
    Ok(text)
}
