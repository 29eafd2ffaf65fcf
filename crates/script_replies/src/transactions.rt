//! The end of a transaction.
ghost use Rattle.std.specs.Prelude.{◌≡◌, ◌++◌, OnOk, IfOk, string_bytes};
ghost use Rattle.script_replies.specs.Texts.{line, refused};
ghost use Rattle.script_replies.specs.Transactions.{prepare_name, commit_name, row_name, committed_text};

use crate::numbers::{push_ended, push_number};
use piece_work::world::{CommitFault, Committed};
use row_write::{PrepareFault, RowFault};
use script_grammar::push_hex;
use std::alloc::{AllocError, Global};

fn push_prepare(out: &mut String, fault: PrepareFault) -> Result<(), AllocError>
    ensures { OnOk result (string_bytes out.new ≡ string_bytes out.old ++ prepare_name fault) }
{
    match fault {
        PrepareFault::NoTable => out.push_str("NoTable"),
        PrepareFault::NotPublic { column } => {
            out.push_str("NotPublic ")?;
            push_number(out, u64::from(column))
        }
        PrepareFault::WrongType => out.push_str("WrongType"),
        PrepareFault::TooManyOps => out.push_str("TooManyOps"),
        PrepareFault::ViewMismatch => out.push_str("ViewMismatch"),
        PrepareFault::Memory => out.push_str("Memory"),
    }
}

fn push_commit(out: &mut String, fault: &CommitFault) -> Result<(), AllocError>
    ensures { OnOk result (string_bytes out.new ≡ string_bytes out.old ++ commit_name fault.now) }
{
    match fault {
        CommitFault::MomentTooLarge => out.push_str("MomentTooLarge"),
        CommitFault::BadLease => out.push_str("BadLease"),
        CommitFault::LeaseEnded { until, now } => push_ended(out, *until, *now),
        CommitFault::WrongSchema => out.push_str("WrongSchema"),
        CommitFault::Conflict { key } => {
            out.push_str("Conflict ")?;
            push_hex(out, key.as_slice())
        }
        CommitFault::Memory => out.push_str("Memory"),
    }
}

fn push_row(out: &mut String, why: RowFault) -> Result<(), AllocError>
    ensures { OnOk result (string_bytes out.new ≡ string_bytes out.old ++ row_name why) }
{
    match why {
        RowFault::Duplicate => out.push_str("Duplicate"),
        RowFault::NoRow => out.push_str("NoRow"),
    }
}

fn push_committed(out: &mut String, done: &Committed) -> Result<(), AllocError>
    ensures { OnOk result (string_bytes out.new ≡ string_bytes out.old ++ committed_text done.now) }
{
    match done {
        Committed::Done(receipt) => {
            out.push_str("ok done ")?;
            push_number(out, receipt.place)
        }
        Committed::Refused { op, why } => {
            out.push_str("ok refused ")?;
            push_number(out, *op as u64)?;
            out.push_str(" ")?;
            push_row(out, *why)
        }
    }
}

/// The reply to a transaction that could not be prepared: `refused NotPublic COLUMN`.
///
/// - `fault`: why it could not be.
pub fn unprepared_line(alloc: Global, fault: PrepareFault) -> Result<String, AllocError>
    ensures { IfOk result (λ text. string_bytes text ≡ line (refused (prepare_name fault))) }
{
    let mut text = String::new(alloc);
    text.push_str("refused ")?;
    push_prepare(&mut text, fault)?;
    text.push_str("\n")?;
    Ok(text)
}

/// The reply to a commit that the world accepted, `ok done PLACE`, or that its rows refused,
/// `ok refused OPERATION REASON`.
///
/// - `done`: what became of the transaction.
pub fn committed_line(alloc: Global, done: &Committed) -> Result<String, AllocError>
    ensures { IfOk result (λ text. string_bytes text ≡ line (committed_text done.now)) }
{
    let mut text = String::new(alloc);
    push_committed(&mut text, done)?;
    text.push_str("\n")?;
    Ok(text)
}

/// The reply to a commit that the world refused: `refused Conflict KEY`.
///
/// - `fault`: why it was refused.
pub fn rejected_line(alloc: Global, fault: &CommitFault) -> Result<String, AllocError>
    ensures { IfOk result (λ text. string_bytes text ≡ line (refused (commit_name fault.now))) }
{
    let mut text = String::new(alloc);
    text.push_str("refused ")?;
    push_commit(&mut text, fault)?;
    text.push_str("\n")?;
    Ok(text)
}
