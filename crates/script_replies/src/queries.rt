//! Why a query was not answered.
ghost use Rattle.std.specs.Prelude.{◌≡◌, ◌++◌, IfOk, OnOk, string_bytes};
ghost use Rattle.script_replies.specs.Rows.{fault_name, refusal_name};
ghost use Rattle.script_replies.specs.Texts.{line, refused};

use crate::numbers::{push_ended, push_number};
use piece_work::world::QueryRefusal;
use row_query::QueryFault;
use std::alloc::{AllocError, Global};

fn push_fault(out: &mut String, fault: QueryFault) -> Result<(), AllocError>
    ensures { OnOk result (string_bytes out.new ≡ string_bytes out.old ++ fault_name fault) }
{
    match fault {
        QueryFault::NoTable => out.push_str("NoTable"),
        QueryFault::NotPublic { column } => {
            out.push_str("NotPublic ")?;
            push_number(out, u64::from(column))
        }
        QueryFault::WrongType => out.push_str("WrongType"),
        QueryFault::Memory => out.push_str("Memory"),
    }
}

fn push_refusal(out: &mut String, refusal: QueryRefusal) -> Result<(), AllocError>
    ensures { OnOk result (string_bytes out.new ≡ string_bytes out.old ++ refusal_name refusal) }
{
    match refusal {
        QueryRefusal::MomentTooLarge => out.push_str("MomentTooLarge"),
        QueryRefusal::BadLease => out.push_str("BadLease"),
        QueryRefusal::LeaseEnded { until, now } => push_ended(out, until, now),
        QueryRefusal::Query(fault) => push_fault(out, fault),
    }
}

/// The reply to a query that was not answered: `refused LeaseEnded UNTIL NOW`.
///
/// - `refusal`: why it was not.
pub fn unanswered_line(alloc: Global, refusal: QueryRefusal) -> Result<String, AllocError>
    ensures { IfOk result (λ text. string_bytes text ≡ line (refused (refusal_name refusal))) }
{
    let mut text = String::new(alloc);
    text.push_str("refused ")?;
    push_refusal(&mut text, refusal)?;
    text.push_str("\n")?;
    Ok(text)
}
