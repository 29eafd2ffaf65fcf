//! A step of the schema.
ghost use Rattle.std.specs.Prelude.{◌≡◌, IfOk, IfErr, OnOk};
ghost use Rattle.schema_version.specs.Moves.{after_step};
ghost use Rattle.drafts.specs.Calls.{IsPublication, publish_draft};
ghost use Rattle.drafts.specs.Made.{IsControlOf};
ghost use Rattle.drafts.specs.Publish.{publication, IsPublishedBy, PublishRefusal};
ghost use Rattle.drafts.specs.declared.publish.PublishFault.TheVariants.{Memory};

use crate::found::first_unfinished;
use crate::key::Key;
use crate::newest::{Newest, newest_reads};
use crate::record::{Control, Record, Reorg};
use crate::step_records::{push_step_reads, push_step_writes};
use collections::{ArcValue, List};
use schema_version::{Move, Schema, Step, StepFault};
use std::alloc::{AllocError, Global};
use thiserror::Error;

/// The greatest number of the version before the newest one with which a next one is published.
const MAX_VERSIONS: u32 = 1_000_000;

/// Why no step is drafted. Of several reasons the first in this order is reported.
#[derive(Clone, Copy, Debug, PartialEq, Eq, Error)]
pub enum PublishFault {
    /// The newest version has the number 1,000,002: no later number is given.
    #[error("no version is left")]
    VersionsSpent,
    /// The step isn't allowed.
    #[error("{0}")]
    Step(StepFault),
    /// A move needs a fill or a clear that was not found.
    #[error("the reorganisation of the element {element} is not finished")]
    Unfinished {
        /// The first such element in the step's order.
        element: u32,
    },
    /// Out of memory.
    #[error("out of memory")]
    Memory,
}

impl From<AllocError> for PublishFault {
    ghost from_gives = { λ _ fault. fault ≡ Memory };

    fn from(_: AllocError) -> PublishFault {
        PublishFault::Memory
    }
}

/// What a step compares.
fn publish_reads(
    alloc: Global,
    newest: &Newest,
    step: &[Move],
    found: &[Reorg],
) -> Result<Vec<(Key, Option<Record>)>, AllocError>
    ensures { IfOk result (λ points. points.items ≡ (publish_draft (publication newest.now step.now found.now)).reads) }
{
    let mut out = newest_reads(alloc, newest)?;
    push_step_reads(alloc, &mut out, found, step)?;
    Ok(out)
}

/// What it writes.
fn publish_writes(
    alloc: Global,
    newest: &Newest,
    step: &[Move],
    found: &[Reorg],
    next: Schema,
) -> Result<Vec<(Key, Option<Record>)>, AllocError>
    requires { next ≡ after_step newest.now.schema step.now }
    ensures { IfOk result (λ points. points.items ≡ (publish_draft (publication newest.now step.now found.now)).writes) }
{
    let number = u64::from(newest.before);
    let mut out = Vec::new(alloc);
    let schema = ArcValue::new(alloc, next)?;
    out.push((Key::version(number + 2), Some(Record::Version(schema))))?;
    out.push((Key::version(number), None))?;
    push_step_writes(alloc, &mut out, found, step)?;
    Ok(out)
}

/// The version that a step gives, if it may be drafted.
fn next_version(newest: &Newest, step: &Step, found: &[Reorg]) -> Result<Schema, PublishFault>
    ensures may { OnOk result (IsPublication (publication newest.now step.now found.now)) }
    ensures next { IfOk result (λ next. next ≡ after_step newest.now.schema step.now) }
    ensures refused { IfErr result (λ fault. PublishRefusal newest.now step.now found.now fault) }
{
    if newest.before > MAX_VERSIONS {
        return Err(PublishFault::VersionsSpent);
    }
    let next = match newest.schema.get().apply(step) {
        Ok(next) => next,
        Err(StepFault::Memory) => return Err(PublishFault::Memory),
        Err(fault) => return Err(PublishFault::Step(fault)),
    };
    if let Some(element) = first_unfinished(newest.schema.get(), found, step.as_slice()) {
        return Err(PublishFault::Unfinished { element });
    }
    Ok(next)
}

/// The publication of this next version.
fn publish_control(
    alloc: Global,
    newest: &Newest,
    step: &[Move],
    found: &[Reorg],
    next: Schema,
) -> Result<Control, AllocError>
    requires { next ≡ after_step newest.now.schema step.now }
    ensures { IfOk result (λ control. IsControlOf (publish_draft (publication newest.now step.now found.now)) control) }
{
    let reads = publish_reads(alloc, newest, step, found)?;
    let writes = publish_writes(alloc, newest, step, found, next)?;
    Ok(Control {
        reads: List::new(reads),
        writes: List::new(writes),
    })
}

/// Drafts a step of the schema. The store applies it if this is still the newest version, the
/// reorganisations of what the step moves are those that were found, and the pieces of each that a
/// move needs have come to their ends. Then the next version is open, the one before this one is
/// closed, and the reorganisations of what the step moves are over. It waits for nothing else, and
/// compares and writes no pair.
///
/// - `newest`: the newest version, as the store had its record.
/// - `step`: the moves.
/// - `found`: the begun reorganisations of the elements that it moves, as the store had their
///   records; there may be others among them.
///
/// The refusals, in their order: `VersionsSpent`; `Step`, the step is not allowed, with the reason of
/// its first faulty move; `Unfinished`, with the first element in the step's order that needs a fill
/// or a clear that was not found; `Memory`, also in place of `Unfinished`.
pub fn draft_publish(
    alloc: Global,
    newest: &Newest,
    step: &Step,
    found: &[Reorg],
) -> Result<Control, PublishFault>
    ensures published { IfOk result (λ control. IsPublishedBy newest.now step.now found.now control) }
    ensures refused { IfErr result (λ fault. PublishRefusal newest.now step.now found.now fault) }
{
    let next = next_version(newest, step, found)?;
    Ok(publish_control(alloc, newest, step.as_slice(), found, next)?)
}
