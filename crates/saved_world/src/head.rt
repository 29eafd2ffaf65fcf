//! The head of a checkpoint as bytes.
ghost use Rattle.std.specs.Option.{option_map};
ghost use Rattle.std.specs.Prelude.{◌≡◌, IfOk, IfSome, OnOk};
ghost use Rattle.keycode.specs.Valid.{IsStorable};
ghost use Rattle.schema_version.specs.Sound.{IsSoundVersion};
ghost use Rattle.checkpoint_code.specs.Head.{head_code, IsKnown};
ghost use Rattle.saved_world.specs.Head.{head_of};

use checkpoint_code::{Head, head_bytes};
use collections::{ArcValue, List};
use lease::Timeline;
use reorganise::Progress;
use schema_version::Schema;
use std::alloc::{AllocError, Global};
use world::Checkpoint;

fn copy_line(line: &Timeline) -> Result<Timeline, AllocError>
    ensures { IfOk result (λ copy. copy ≡ line.now) }
{
    line.clone()
}

fn copy_version(version: &ArcValue<Schema>) -> Result<ArcValue<Schema>, AllocError>
    ensures { IfOk result (λ copy. copy ≡ version.now) }
{
    version.clone()
}

fn copy_before(before: Option<&ArcValue<Schema>>) -> Result<Option<ArcValue<Schema>>, AllocError>
    ensures { IfOk result (λ copy. copy ≡ option_map (λ v. v.now) before.entry) }
{
    match before {
        Some(version) => Ok(Some(copy_version(version)?)),
        None => Ok(None),
    }
}

fn copy_progress(progress: &Progress) -> Result<Progress, AllocError>
    ensures { IfOk result (λ copy. copy ≡ progress.now) }
{
    progress.clone()
}

fn copy_begun(alloc: Global, begun: &[Progress]) -> Result<List<Progress>, AllocError>
    ensures { IfOk result (λ copy. copy ≡ begun.now) }
{
    let mut copy = Vec::with_capacity(alloc, begun.len())?;
    for progress in begun {
        copy.push(copy_progress(progress)?)?;
    }
    Ok(List::new(copy))
}

// The head of a checkpoint, copied. The versions are shared.
fn head_in(alloc: Global, checkpoint: &Checkpoint) -> Result<Head, AllocError>
    ensures { IfOk result (λ head. head ≡ head_of checkpoint.now) }
{
    let line = copy_line(checkpoint.timeline())?;
    let newest = copy_version(checkpoint.newest())?;
    let before = copy_before(checkpoint.before())?;
    let begun = copy_begun(alloc, checkpoint.begun())?;
    Ok(Head {
        place: checkpoint.place(),
        moment: checkpoint.moment(),
        line,
        newest,
        before,
        begun,
    })
}

// That the versions of a head are sound, for a caller's proof. It does nothing.
fn lemma_sound(head: &Head)
    ensures newest { IsSoundVersion head.now.newest }
    ensures before { IfSome head.now.before IsSoundVersion }
{
    head.newest.get().lemma_known();
    match &head.before {
        Some(version) => version.get().lemma_known(),
        None => (),
    }
}

/// The head of a checkpoint as bytes: all but its pairs. Refused only when out of memory.
///
/// It takes time and memory in proportion to the head. The reader `checkpoint_code::head_of` refuses
/// these bytes only when out of memory.
pub fn save_head(alloc: Global, checkpoint: &Checkpoint) -> Result<Vec<u8>, AllocError>
    ensures code { IfOk result (λ bytes. bytes.items ≡ head_code (head_of checkpoint.now)) }
    ensures known { OnOk result (IsKnown IsStorable (head_of checkpoint.now)) }
{
    checkpoint.lemma_whole();
    let head = head_in(alloc, checkpoint)?;
    lemma_sound(&head);
    head_bytes(alloc, &head)
}
