//! A checkpoint written as one list of bytes.
ghost use Rattle.std.specs.Prelude.{◌≡◌, ◌++◌, [], IfOk, List, ℕ, OnOk};
ghost use Rattle.std.specs.FinMap as map;
ghost use Rattle.saved_world.specs.Saved.{IsSaved, IsSavedWhole};
ghost use Rattle.saved_world.specs.inner.Pushes.{ArePushed};

use crate::head::save_head;
use crate::pages::pages_of;
use crate::parts::push_part;
use digested_bytes::{add_digest, marker};
use std::alloc::{AllocError, Global};
use world::Checkpoint;

/// The most pairs of a page.
const PAGE: usize = 1000;

// Adds all pages.
fn push_pages(alloc: Global, out: &mut Vec<u8>, checkpoint: &Checkpoint) -> Result<(), AllocError>
    ensures { OnOk result (ArePushed 1000 out.old.items out.new.items (map.entries checkpoint.now.pairs) []) }
{
    let mut pages = pages_of(checkpoint);
    while let Some(page) = pages.next_page(alloc, PAGE)? {
        push_part(out, page.as_slice())?;
    }
    Ok(())
}

// Adds all parts: the head, pages and an empty part.
fn push_parts(alloc: Global, out: &mut Vec<u8>, checkpoint: &Checkpoint) -> Result<(), AllocError>
    ensures { OnOk result ((parts : List ℕ) × IsSaved 1000 checkpoint.now parts × (out.new.items ≡ out.old.items ++ parts)) }
{
    checkpoint.lemma_whole();
    let head = save_head(alloc, checkpoint)?;
    push_part(out, head.as_slice())?;
    push_pages(alloc, out, checkpoint)?;
    push_part(out, &[])
}

/// A checkpoint as one list of bytes, which `load` reads. Refused only when out of memory.
///
/// After a marker its parts stand one after another, each after its length: the head, pages of at
/// most 1,000 pairs, and an empty part; then SHA-256 of all this. It takes memory for all of them.
pub fn save(alloc: Global, checkpoint: &Checkpoint) -> Result<Vec<u8>, AllocError>
    ensures { IfOk result (λ bytes. IsSavedWhole 1000 checkpoint.now bytes.items) }
{
    let mut out = Vec::new(alloc);
    out.extend_from_slice(&marker())?;
    push_parts(alloc, &mut out, checkpoint)?;
    add_digest(&mut out)?;
    Ok(out)
}
