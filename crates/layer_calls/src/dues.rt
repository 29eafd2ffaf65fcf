//! What is due: the next act of a change, by the control records that were found.
ghost use Rattle.std.specs.Prelude.{◌≡◌, ◌⊎◌, drop, IfErr, IfOk, OnOk};
ghost use Rattle.entry_code.specs.Known.{IsPlan};
ghost use Rattle.drafts.specs.Store.{reorg_key, cursor_key};
ghost use Rattle.record_code.specs.Keys.{key_code};
ghost use Rattle.handles.specs.Statuses.{bad_code, out_of_memory};
ghost use Rattle.layer_calls.specs.Changes.{newest_of};
ghost use Rattle.layer_calls.specs.Dues.{seen, IsAdded, AreAdded, IsUnknown, HasUnknown, GivesRecords, steps_in, GivesSteps, stuck_outcome as stuck_outcome_of, DueBy, DueFrom, act_outcome as act_outcome_of, due_outcome as due_outcome_of, Dues};
ghost use Rattle.layer_calls.specs.Given.{alone};

use crate::given;
use crate::outcome::{DueOutcome, LayerOutcome};
use byte_map::Bytes;
use change_plan::PlanStep;
use checkpoint_code::{PageFault, page_of};
use collections::{ArcValue, List};
use drafts::{KeyName, Newest};
use entry_code::{CodeFault, plan_of};
use handles::typed_calls::status::{BAD_CODE, BAD_PIECE, NOT_WANTED, OK, OUT_OF_MEMORY};
use layer_due::{Act, Cursor, DueFault, Records};
use record_code::{NoKey, key_of};
use schema_version::{Schema, Step};
use std::alloc::{AllocError, Global};

// Notes that a version has a record.
fn see_version(records: &mut Records, number: u64)
    ensures { records.new ≡ seen records.old number }
{
    if number == u64::from(records.newest.before) {
        records.previous_is_open = true;
    }
}

// Adds the reorganisation or the cursor of a pair, or notes the version.
fn add(alloc: Global, records: &mut Records, pair: &(Bytes, Bytes)) -> Result<(), LayerOutcome>
    ensures added { OnOk result (IsAdded pair.now records.old records.new) }
    ensures refused { IfErr result (λ outcome. (outcome ≡ alone out_of_memory) ⊎ ((outcome ≡ alone bad_code) × IsUnknown pair.now)) }
{
    match key_of(alloc, pair.0.as_slice()) {
        Ok(key) => match key.name() {
            KeyName::Version(number) => {
                see_version(records, *number);
                Ok(())
            }
            KeyName::Reorg(_) => {
                let reorg = given::reorg(alloc, pair.1.as_slice())?;
                records.reorgs.push(reorg)?;
                Ok(())
            }
            KeyName::Cursor { element, piece } => {
                let key = given::cursor(alloc, pair.1.as_slice())?;
                records.cursors.push(Cursor {
                    element: *element,
                    piece: *piece,
                    key,
                })?;
                Ok(())
            }
            KeyName::Mark(_) => Err(LayerOutcome::of(BAD_CODE)),
        },
        Err(NoKey::Malformed) => Err(LayerOutcome::of(BAD_CODE)),
        Err(NoKey::Memory) => Err(LayerOutcome::of(OUT_OF_MEMORY)),
    }
}

// Adds what these pairs have.
fn add_all(
    alloc: Global,
    records: &mut Records,
    pairs: &[(Bytes, Bytes)],
) -> Result<(), LayerOutcome>
    ensures added { OnOk result (AreAdded pairs.now records.old records.new) }
    ensures refused { IfErr result (λ outcome. (outcome ≡ alone out_of_memory) ⊎ ((outcome ≡ alone bad_code) × HasUnknown pairs.now)) }
{
    match pairs {
        [] => Ok(()),
        [first, rest @ ..] => {
            add(alloc, records, first)?;
            add_all(alloc, records, rest)
        }
    }
}

// The control records that were found, by their pairs.
fn records_found(
    alloc: Global,
    before: u32,
    schema: ArcValue<Schema>,
    bytes: &[u8],
) -> Result<Records, LayerOutcome>
    ensures { GivesRecords (newest_of before schema) bytes.now result }
{
    match page_of(alloc, bytes) {
        Ok(pairs) => {
            let mut records = Records {
                newest: Newest { before, schema },
                previous_is_open: false,
                reorgs: List::new(Vec::new(alloc)),
                cursors: List::new(Vec::new(alloc)),
            };
            add_all(alloc, &mut records, pairs.as_slice())?;
            Ok(records)
        }
        Err(PageFault::Memory) => Err(LayerOutcome::of(OUT_OF_MEMORY)),
        Err(_) => Err(LayerOutcome::of(BAD_CODE)),
    }
}

// The steps of a plan, alone.
fn steps_alone(alloc: Global, plan: List<PlanStep>) -> Result<Vec<Step>, AllocError>
    ensures { IfOk result (λ steps. steps.items ≡ steps_in plan) }
{
    let mut steps = Vec::new(alloc);
    for planned in plan.into_vec() {
        let PlanStep { before: _, step } = planned;
        steps.push(step)?;
    }
    Ok(steps)
}

// The steps of the plan whose code this is.
fn steps_given(alloc: Global, bytes: &[u8]) -> Result<List<Step>, LayerOutcome>
    ensures { GivesSteps bytes.now result }
{
    match plan_of(alloc, bytes) {
        Ok(plan) => Ok(List::new(steps_alone(alloc, plan)?)),
        Err(CodeFault::Memory) => Err(LayerOutcome::of(OUT_OF_MEMORY)),
        Err(_) => Err(LayerOutcome::of(BAD_CODE)),
    }
}

// The steps after so many.
fn steps_left(steps: &[Step], published: u64) -> &[Step]
    ensures { result.now ≡ drop published steps.now }
{
    if published < steps.len() as u64 {
        &steps[published as usize..]
    } else {
        &[]
    }
}

// What it is reported as that nothing can be done.
fn stuck_outcome(fault: DueFault) -> LayerOutcome
    ensures { result ≡ stuck_outcome_of fault }
{
    match fault {
        DueFault::NoCursor { .. } => LayerOutcome::of(BAD_PIECE),
        DueFault::NotReady => LayerOutcome::of(NOT_WANTED),
    }
}

// What is due by these records and steps.
fn due_by(records: &Records, steps: &[Step]) -> Result<Act, LayerOutcome>
    ensures { DueBy records.now steps.now result }
{
    match layer_due::due(records, steps) {
        Ok(act) => Ok(act),
        Err(fault) => Err(stuck_outcome(fault)),
    }
}

// What is due by what is given.
fn due_from(
    alloc: Global,
    before: u32,
    version: &[u8],
    found: &[u8],
    plan: &[u8],
    published: u64,
) -> Result<Act, LayerOutcome>
    ensures { DueFrom before version.now found.now plan.now published result }
{
    let schema = given::version(alloc, version)?;
    let records = records_found(alloc, before, schema, found)?;
    let steps = steps_given(alloc, plan)?;
    due_by(&records, steps_left(steps.as_slice(), published))
}

// What an act is reported as.
fn act_outcome(act: Act) -> DueOutcome
    ensures { result ≡ act_outcome_of act }
{
    match act {
        Act::Nothing => DueOutcome::of(OK),
        Act::Begin { element } => DueOutcome::act(1, element, 0),
        Act::Close => DueOutcome::act(2, 0, 0),
        Act::Publish => DueOutcome::act(3, 0, 0),
        Act::Work { element, piece } => DueOutcome::act(4, element, piece),
    }
}

// What the answer is reported as.
fn due_outcome(answer: &Result<Act, LayerOutcome>) -> DueOutcome
    ensures { result ≡ due_outcome_of answer.now }
{
    match answer {
        Ok(act) => act_outcome(*act),
        Err(outcome) => DueOutcome::of(outcome.status),
    }
}

/// What is due of a change, by the control records alone: the act that any server may do next, as
/// `layer_due::due` gives it. At `OK` the `act` is 0 if nothing is due, 1 to begin the fill or the clear
/// of the `element`, 2 to close the version before the newest, 3 to publish the next step of the plan, and
/// 4 to work on the `piece` of the `element`. Of several begins that of the lowest element is given, and
/// of several pieces the first that has not ended of the first reorganisation that has one.
///
/// - `before`: the number of the version before the newest; 0 if that is the first.
/// - `version`: the record of the newest.
/// - `found`: the code of the pairs of the versions, reorganisations and cursors that the store has, by
///   rising key; of a version the key alone is read.
/// - `plan`: what `entry_code::plan_bytes` gives for the steps of a plan; of none if nothing more is
///   planned.
/// - `published`: how many of its steps have been published.
///
/// Refused, in this order: `BAD_CODE` if the record, a pair that was found or the plan is none;
/// `BAD_PIECE` if the piece that would be given has no cursor, since the records were not read at one
/// moment; `NOT_WANTED` if the step needs what no element wants; `OUT_OF_MEMORY`, which may come in place
/// of any.
pub fn due(
    alloc: Global,
    before: u32,
    version: &[u8],
    found: &[u8],
    plan: &[u8],
    published: u64,
) -> DueOutcome
    ensures { Dues before version.now found.now plan.now published result }
{
    let answer = due_from(alloc, before, version, found, plan, published);
    due_outcome(&answer)
}
