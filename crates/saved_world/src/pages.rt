//! The pairs of a checkpoint as pages of bytes.
ghost use Rattle.std.specs.Prelude.{◌≡◌, ◌++◌, ◌≤◌, [], IfOk, IfSome, IfNone, OnErr, map as each};
ghost use Rattle.std.specs.Option.{option_map};
ghost use Rattle.std.specs.FinMap as map;
ghost use Rattle.saved_world.specs.Pages.{page_size, IsNextPage};
ghost use Rattle.saved_world.specs.Taken.{plain, all_plain};

use crate::taken::{Taken, copy_pairs, fill, first_of, let_go};
use checkpoint_code::page_bytes;
use row_map::{PairView, Walk};
use std::alloc::{AllocError, Global};
use std::marker::Model;
use world::Checkpoint;

/// The pairs of a checkpoint that are still to be written, in the order of their keys.
#[derive(Drop)]
pub struct Pages<'a> {
    /// Those that were taken from the walk and not written: some only after a call ran out of
    /// memory.
    taken: Option<Vec<Taken<'a>>>,
    left: Walk<'a>,
}

impl<'a> Model for Pages<'a> {
    ghost use Rattle.std.specs.Prelude.{List, ℕ, ◌++◌};
    ghost use Rattle.std.specs.Option.{option_map};
    ghost use Rattle.saved_world.specs.Taken.{all_plain};

    ghost Value = { List (List ℕ × List ℕ) };

    ghost view = { λ p. all_plain (option_map (λ v. v.items) p.taken) ++ p.left };
}

/// All pairs of a checkpoint, to be written. It takes no time and no memory.
pub fn pages_of(checkpoint: &Checkpoint) -> Pages<'_>
    ensures { result ≡ map.entries checkpoint.now.pairs }
{
    Pages {
        taken: None,
        left: checkpoint.walk(),
    }
}

// A page has at least one pair.
fn size_of(limit: usize) -> usize
    ensures size { result ≡ page_size limit }
    ensures some { 1 ≤ result }
{
    if limit == 0 { 1 } else { limit }
}

// The next page of the pairs that were taken and of those that are left after them.
fn page_from<'a>(
    alloc: Global,
    taken: &mut Vec<Taken<'a>>,
    left: &mut Walk<'a>,
    limit: usize,
) -> Result<Option<Vec<u8>>, AllocError>
    ensures page { IfOk result (λ page. IfSome page (λ bytes. IsNextPage limit (each plain taken.old.items ++ left.old) bytes.items (each plain taken.new.items ++ left.new))) }
    ensures none { IfOk result (λ page. IfNone page ((each plain taken.old.items ++ left.old ≡ []) × (each plain taken.new.items ++ left.new ≡ []))) }
    ensures err { OnErr result (each plain taken.new.items ++ left.new ≡ each plain taken.old.items ++ left.old) }
{
    let size = size_of(limit);
    fill(taken, left, size)?;
    if taken.is_empty() {
        return Ok(None);
    }
    let page = copy_pairs(alloc, first_of(taken.as_slice(), size))?;
    let bytes = page_bytes(alloc, page.as_slice())?;
    let_go(taken, size);
    Ok(Some(bytes))
}

// What was taken, or a list for it.
fn taken_in<'a>(alloc: Global, taken: Option<Vec<Taken<'a>>>) -> Vec<Taken<'a>>
    ensures { each plain result.items ≡ all_plain (option_map (λ v. v.items) taken.entry) }
{
    match taken {
        Some(taken) => taken,
        None => Vec::new(alloc),
    }
}

impl<'a> Pages<'a> {
    /// The next page, with at most `limit` pairs (at least one), or none if no pairs are left.
    /// Refused only when out of memory, and then nothing has changed.
    ///
    /// It takes time and memory in proportion to the page.
    pub fn next_page(&mut self, alloc: Global, limit: usize) -> Result<Option<Vec<u8>>, AllocError>
        ensures page { IfOk result (λ page. IfSome page (λ bytes. IsNextPage limit self.old bytes.items self.new)) }
        ensures none { IfOk result (λ page. IfNone page ((self.old ≡ []) × (self.new ≡ []))) }
        ensures err { OnErr result (self.new ≡ self.old) }
    {
        let mut taken = taken_in(alloc, self.taken.take());
        let page = page_from(alloc, &mut taken, &mut self.left, limit);
        self.taken = Some(taken);
        page
    }
}
