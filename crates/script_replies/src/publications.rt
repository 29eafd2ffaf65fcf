//! The publication of a version.
ghost use Rattle.std.specs.Prelude.{◌≡◌, ◌++◌, IfOk, OnOk, codes, string_bytes};
ghost use Rattle.std.specs.Fmt.{decimal};
ghost use Rattle.script_replies.specs.Publications.{step_name, publish_name, published_text};
ghost use Rattle.script_replies.specs.Texts.{line, refused};

use crate::numbers::{push_number, push_numbered};
use piece_work::world::{PublishFault, Receipt};
use schema_version::StepFault;
use std::alloc::{AllocError, Global};

fn push_step_fault(out: &mut String, fault: StepFault) -> Result<(), AllocError>
    ensures { OnOk result (string_bytes out.new ≡ string_bytes out.old ++ step_name fault) }
{
    match fault {
        StepFault::Unknown => out.push_str("Unknown"),
        StepFault::NotAdjacent => out.push_str("NotAdjacent"),
        StepFault::WrongWay => out.push_str("WrongWay"),
        StepFault::Dependent { on } => {
            out.push_str("Dependent ")?;
            push_number(out, u64::from(on))
        }
        StepFault::NameTaken => out.push_str("NameTaken"),
        StepFault::Limit => out.push_str("Limit"),
        StepFault::Memory => out.push_str("Memory"),
    }
}

fn push_unfinished(out: &mut String, element: u32) -> Result<(), AllocError>
    ensures { OnOk result (string_bytes out.new ≡ string_bytes out.old ++ codes "Unfinished " ++ decimal element) }
{
    out.push_str("Unfinished ")?;
    push_number(out, u64::from(element))
}

fn push_fault(out: &mut String, fault: PublishFault) -> Result<(), AllocError>
    ensures { OnOk result (string_bytes out.new ≡ string_bytes out.old ++ publish_name fault) }
{
    match fault {
        PublishFault::MomentTooLarge => out.push_str("MomentTooLarge"),
        PublishFault::TooEarly { earliest } => {
            out.push_str("TooEarly ")?;
            push_number(out, earliest)
        }
        PublishFault::Step(fault) => push_step_fault(out, fault),
        PublishFault::Unfinished { element } => push_unfinished(out, element),
        PublishFault::VersionsSpent => out.push_str("VersionsSpent"),
        PublishFault::Memory => out.push_str("Memory"),
    }
}

fn version_line(alloc: Global, version: u64) -> Result<String, AllocError>
    ensures { IfOk result (λ text. string_bytes text ≡ line (codes "ok version " ++ decimal version)) }
{
    let mut text = String::new(alloc);
    push_numbered(&mut text, "ok version ", version)?;
    Ok(text)
}

fn refused_line(alloc: Global, fault: PublishFault) -> Result<String, AllocError>
    ensures { IfOk result (λ text. string_bytes text ≡ line (refused (publish_name fault))) }
{
    let mut text = String::new(alloc);
    text.push_str("refused ")?;
    push_fault(&mut text, fault)?;
    text.push_str("\n")?;
    Ok(text)
}

/// The reply to a publication: `ok version VERSION`, or a refusal as `refused TooEarly EARLIEST`.
///
/// - `published`: the number of the new version with the receipt for its entry, or why there is
///   none.
pub fn published_line(
    alloc: Global,
    published: &Result<(u64, Receipt), PublishFault>,
) -> Result<String, AllocError>
    ensures { IfOk result (λ text. string_bytes text ≡ line (published_text published.now)) }
{
    match published {
        Ok((version, _)) => version_line(alloc, *version),
        Err(fault) => refused_line(alloc, *fault),
    }
}
