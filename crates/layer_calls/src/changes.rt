//! Schema changes: plans, steps, closes and begins.
ghost use Rattle.std.specs.Prelude.{◌≡◌, ◌++◌, List as PlainList, IfErr, OnOk, ◌⊎◌};
ghost use Rattle.drafts.specs.declared.record.Reorg.{Reorg as PlainReorg};
ghost use Rattle.handles.specs.Statuses.{bad_code, out_of_memory};
ghost use Rattle.layer_calls.specs.Given.{alone, With, GivesVersion, GivesStep, GivesKeys};
ghost use Rattle.layer_calls.specs.Changes.{newest_of, Plans, publish_refusal as publish_refusal_of, divide_refusal as divide_refusal_of, AreReorgs, HasBad, GivesReorgs, Publishes, Closes, Begins};

use crate::given;
use crate::outcome::{LayerOutcome, LayerReply};
use byte_map::Bytes;
use checkpoint_code::{PageFault, page_of};
use collections::{ArcValue, List};
use drafts::{DivideFault, Newest, PublishFault, Reorg, draft_close, draft_divide, draft_publish};
use handles::typed_calls::status::{
    BAD_CODE, BAD_COUNT, BAD_PIECE, NOT_WANTED, OUT_OF_MEMORY, UNFINISHED, VERSIONS_SPENT,
};
use handles::typed_calls::{plan_coded, step_refusal};
use record_code::control_bytes;
use schema_version::{Schema, Step};
use std::alloc::Global;

// The plan of these changes, with the status of its refusal.
fn plan_from(alloc: Global, schema: &Schema, changes: &[u8]) -> Result<LayerReply, LayerOutcome>
    ensures { Plans schema.now changes.now result }
{
    match plan_coded(alloc, schema, changes) {
        Ok(code) => Ok(LayerReply { code, number: 0 }),
        Err(status) => Err(LayerOutcome::of(status)),
    }
}

/// The code of the least plan of a batch of changes, from a version.
///
/// - `version`: its record.
/// - `changes`: what `entry_code::changes_bytes` gives for the batch.
///
/// Refused, in this order: `BAD_CODE` if the record or the changes are none; of the first change that
/// cannot be planned the first of `UNKNOWN`, `NAME_TAKEN`, `DEPENDENT` if an index lists the column,
/// `IN_CHANGE` and `OVER_LIMIT`; `OUT_OF_MEMORY`, which may come in place of any.
pub fn plan(alloc: Global, version: &[u8], changes: &[u8]) -> Result<LayerReply, LayerOutcome>
    ensures { With GivesVersion (λ v a. Plans v changes.now a) version.now result }
{
    let schema = given::version(alloc, version)?;
    plan_from(alloc, schema.get(), changes)
}

// Adds the reorganisations whose records are the values of these pairs.
fn push_reorgs(
    alloc: Global,
    out: &mut Vec<Reorg>,
    pairs: &[(Bytes, Bytes)],
) -> Result<(), LayerOutcome>
    ensures made { OnOk result ((found : PlainList PlainReorg) × (out.new.items ≡ out.old.items ++ found) × AreReorgs pairs.now found) }
    ensures refused { IfErr result (λ outcome. (outcome ≡ alone out_of_memory) ⊎ ((outcome ≡ alone bad_code) × HasBad pairs.now)) }
{
    match pairs {
        [] => Ok(()),
        [first, rest @ ..] => {
            let reorg = given::reorg(alloc, first.1.as_slice())?;
            out.push(reorg)?;
            push_reorgs(alloc, out, rest)
        }
    }
}

// The reorganisations that were found, by the pairs of their records.
fn reorgs(alloc: Global, bytes: &[u8]) -> Result<List<Reorg>, LayerOutcome>
    ensures { GivesReorgs bytes.now result }
{
    match page_of(alloc, bytes) {
        Ok(pairs) => {
            let mut found = Vec::new(alloc);
            push_reorgs(alloc, &mut found, pairs.as_slice())?;
            Ok(List::new(found))
        }
        Err(PageFault::Memory) => Err(LayerOutcome::of(OUT_OF_MEMORY)),
        Err(_) => Err(LayerOutcome::of(BAD_CODE)),
    }
}

// What a step that is not drafted is reported as.
fn publish_refusal(fault: PublishFault) -> LayerOutcome
    ensures { result ≡ publish_refusal_of fault }
{
    match fault {
        PublishFault::VersionsSpent => LayerOutcome::of(VERSIONS_SPENT),
        PublishFault::Step(fault) => {
            let refusal = step_refusal(fault);
            LayerOutcome::at(refusal.status, refusal.number)
        }
        PublishFault::Unfinished { element } => LayerOutcome::at(UNFINISHED, u64::from(element)),
        PublishFault::Memory => LayerOutcome::of(OUT_OF_MEMORY),
    }
}

// The draft of a step.
#[tactic(auto, using(crate::proofs::Fits::fit_by))]
fn publish_step(
    alloc: Global,
    newest: &Newest,
    step: &Step,
    found: &[Reorg],
) -> Result<LayerReply, LayerOutcome>
    ensures { Publishes newest.now step.now found.now result }
{
    match draft_publish(alloc, newest, step, found) {
        Ok(control) => Ok(LayerReply::of(control_bytes(alloc, &control)?)),
        Err(fault) => Err(publish_refusal(fault)),
    }
}

/// The code of the draft of a step of the schema, from the newest version.
///
/// - `before`: the number of the version before the newest; 0 if that is the first.
/// - `version`: the record of the newest.
/// - `step`: what `entry_code::step_bytes` gives for the moves.
/// - `found`: the code of the pairs of all reorganisations' records that the store has, by rising
///   key; those of elements that the step does not move may be left out.
///
/// Refused, in this order: `BAD_CODE` if the record, the step or what was found is none;
/// `VERSIONS_SPENT`; the step's own `UNKNOWN`, `NOT_ADJACENT`, `WRONG_WAY`, `DEPENDENT` with the
/// element, `NAME_TAKEN` and `OVER_LIMIT`; `UNFINISHED` with the element, if a move needs a fill or a
/// clear that was not found; `OUT_OF_MEMORY`, which may come in place of any.
pub fn publish(
    alloc: Global,
    before: u32,
    version: &[u8],
    step: &[u8],
    found: &[u8],
) -> Result<LayerReply, LayerOutcome>
    ensures { With GivesVersion (λ v a. With GivesStep (λ s b. With GivesReorgs (Publishes (newest_of before v) s) found.now b) step.now a) version.now result }
{
    let schema = given::version(alloc, version)?;
    let step = given::step(alloc, step)?;
    let found = reorgs(alloc, found)?;
    publish_step(alloc, &Newest { before, schema }, &step, found.as_slice())
}

// The draft of a close.
#[tactic(auto, using(crate::proofs::Fits::fit_by))]
fn close_before(alloc: Global, newest: &Newest) -> Result<LayerReply, LayerOutcome>
    ensures { Closes newest.now result }
{
    let control = draft_close(alloc, newest)?;
    Ok(LayerReply::of(control_bytes(alloc, &control)?))
}

/// The code of the draft that closes the version before the newest: from then on no transaction under
/// it is applied, and a reorganisation may begin.
///
/// - `before`, `version`: as for `publish`.
///
/// Refused: `BAD_CODE` if the record is none; `OUT_OF_MEMORY`, which may come in its place.
pub fn close(alloc: Global, before: u32, version: &[u8]) -> Result<LayerReply, LayerOutcome>
    ensures { With GivesVersion (λ v a. Closes (newest_of before v) a) version.now result }
{
    let schema = given::version(alloc, version)?;
    close_before(alloc, &Newest { before, schema })
}

// What a begin that is not drafted is reported as.
fn divide_refusal(fault: DivideFault) -> LayerOutcome
    ensures { result ≡ divide_refusal_of fault }
{
    match fault {
        DivideFault::NotWanted => LayerOutcome::of(NOT_WANTED),
        DivideFault::TooManyPieces => LayerOutcome::of(BAD_COUNT),
        DivideFault::BadKey { at } => LayerOutcome::at(BAD_PIECE, at as u64),
        DivideFault::Memory => LayerOutcome::of(OUT_OF_MEMORY),
    }
}

// The draft of a begin.
#[tactic(auto, using(crate::proofs::Fits::fit_by))]
fn begin_at(
    alloc: Global,
    newest: &Newest,
    element: u32,
    keys: &[Bytes],
) -> Result<LayerReply, LayerOutcome>
    ensures { Begins newest.now element keys.now result }
{
    match draft_divide(alloc, newest, element, keys) {
        Ok(control) => Ok(LayerReply::of(control_bytes(alloc, &control)?)),
        Err(fault) => Err(divide_refusal(fault)),
    }
}

/// The code of the draft that begins the fill or the clear that an element wants, in pieces of which
/// the first begins where its range does, and each other one at a given key.
///
/// - `before`, `version`: as for `publish`.
/// - `element`: its number.
/// - `keys`: what `entry_code::points_bytes` gives for at most 63 keys, each without a value, by rising
///   key: of rows of its table, or of pairs of the index if one is cleared; whether they are there is
///   not asked.
///
/// Refused, in this order: `BAD_CODE` if the record or the keys are none; `NOT_WANTED`; `BAD_COUNT` if
/// there are more than 63 keys; `BAD_PIECE` with the place of the first key, from 0, at which no piece
/// may begin; `OUT_OF_MEMORY`, which may come in place of any.
pub fn begin(
    alloc: Global,
    before: u32,
    version: &[u8],
    element: u32,
    keys: &[u8],
) -> Result<LayerReply, LayerOutcome>
    ensures { With GivesVersion (λ v a. With GivesKeys (Begins (newest_of before v) element) keys.now a) version.now result }
{
    let schema = given::version(alloc, version)?;
    let keys = given::keys(alloc, keys)?;
    begin_at(alloc, &Newest { before, schema }, element, keys.as_slice())
}
