//! A chunk: pages that several maps may share.
ghost use Rattle.std.specs.Prelude.{◌≡◌, ◌<◌, ◌^◌, ◌++◌, [], true, false, List, ℕ, IfOk, IfSome, IfNone, length};
ghost use Rattle.std.specs.Ordering.{is_gt};
ghost use Rattle.byte_map.specs.Order.{bytes_cmp};
ghost use Rattle.page_map.specs.Empties.{empties};
ghost use Rattle.page_map.specs.inner.Prefix.{IsPrefix};
ghost use Rattle.page_map.specs.Pages.{joined, Stands};

use crate::page::{Page, Prefix, below};
use crate::rest::count_pages;
use byte_map::words;
use std::alloc::{AllocError, Global};
use std::marker::Model;
use std::sync::Arc;

/// The most pages of a chunk, before it is cut in two. It only affects speed.
pub(crate) const CHUNK_LIMIT: usize = 1024;

/// Pages that several maps may share.
#[derive(Drop)]
pub(crate) struct Chunk {
    pub(crate) shared: Arc<Vec<Page>, Global>,
    /// The prefix of the first key.
    pub(crate) prefix: Prefix,
    /// How many of the pairs of its pages have an empty value.
    pub(crate) empty_count: usize,
}

impl Model for Chunk {
    ghost use Rattle.std.specs.Prelude.{◌≡◌, List, ℕ, length};
    ghost use Rattle.page_map.specs.Empties.{empties};
    ghost use Rattle.std.specs.Arc.{arc_value};
    ghost use Rattle.page_map.specs.inner.Prefix.{HasPrefix};
    ghost use Rattle.page_map.specs.Pages.{joined};

    ghost Value = { List (List ℕ × List ℕ) };

    ghost view = { λ c. joined (arc_value c.shared).items };

    ghost invariant = { λ c. record { prefix : HasPrefix (joined (arc_value c.shared).items) c.prefix; counted : c.empty_count ≡ length (empties (joined (arc_value c.shared).items)) } };
}

impl Chunk {
    /// Makes these pages a chunk. Refused only when out of memory, and they are then let go.
    pub(crate) fn new(alloc: Global, pages: Vec<Page>) -> Result<Chunk, AllocError>
        requires some { 0 < length pages.items }
        requires few { length (empties (joined pages.items)) < 2 ^ 64 }
        ensures all { IfOk result (λ chunk. chunk ≡ joined pages.items) }
        ensures full { IfOk result (λ chunk. 0 < length chunk) }
    {
        let prefix = *pages[0].first_prefix();
        let empty_count = count_pages(pages.as_slice());
        Ok(Chunk {
            shared: Arc::new(alloc, pages)?,
            prefix,
            empty_count,
        })
    }

    /// How many of its pairs have an empty value: no page is looked at.
    pub(crate) fn empties(&self) -> usize
        ensures { result ≡ length (empties self.now) }
    {
        self.empty_count
    }

    /// Its pages.
    #[inline(always)]
    pub(crate) fn pages(&self) -> &[Page]
        ensures { joined result.now ≡ self.now }
    {
        self.shared.as_slice()
    }

    /// Its first key.
    pub(crate) fn first_key(&self) -> &[u8]
        requires { 0 < length self.now }
        ensures { (first : List ℕ × List ℕ) → Stands self.now 0 first → result.now ≡ first.0 }
    {
        self.pages()[0].pairs().pair(0).0
    }

    /// Whether its first key is above a key, whose prefix this is.
    #[inline(always)]
    pub(crate) fn begins_above(&self, key: &[u8], prefix: &Prefix) -> bool
        requires full { 0 < length self.now }
        requires prefix { IsPrefix prefix.now key.now }
        ensures { (first : List ℕ × List ℕ) → Stands self.now 0 first → result ≡ is_gt (bytes_cmp first.0 key.now) }
    {
        if below(self.prefix, *prefix) {
            return false;
        }
        if below(*prefix, self.prefix) {
            return true;
        }
        words::compare(self.first_key(), key).is_gt()
    }

    /// Whether it has no pair.
    pub(crate) fn is_empty(&self) -> bool
        ensures none { result ≡ true → self.now ≡ [] }
        ensures some { result ≡ false → 0 < length self.now }
    {
        match self.pages().first() {
            Some(page) => page.pairs().len() == 0,
            None => true,
        }
    }

    /// Cuts pages off its end, as a chunk of their own, if it has too many.
    pub(crate) fn cut_off(&mut self, alloc: Global) -> Option<Chunk>
        ensures some { IfSome result (λ tail. self.old ≡ self.new ++ tail) }
        ensures full { IfSome result (λ tail. (0 < length self.new) × (0 < length tail)) }
        ensures none { IfNone result (self.new ≡ self.old) }
    {
        let all = self.empties();
        let len = self.shared.as_slice().len();
        if len <= CHUNK_LIMIT {
            return None;
        }
        let middle = if len > 2 * CHUNK_LIMIT {
            len - 3 * CHUNK_LIMIT / 4
        } else {
            len / 2
        };
        let Ok(tail) = copied(alloc, self.shared.as_slice().split_at(middle).1) else {
            return None;
        };
        let Ok(tail) = Chunk::new(alloc, tail) else {
            return None;
        };
        let _ = self.shared.as_slice()[0].first_prefix();
        let Some(pages) = Arc::get_mut(&mut self.shared) else {
            return None;
        };
        pages.truncate(middle);
        self.empty_count = all - tail.empties();
        Some(tail)
    }

    /// Makes it one that no other map shares. Refused only when out of memory.
    pub(crate) fn part_from_others(&mut self, alloc: Global) -> Result<(), AllocError>
        ensures { self.new ≡ self.old }
    {
        match Arc::get_mut(&mut self.shared) {
            Some(_) => Ok(()),
            None => {
                let pages = copied(alloc, self.shared.as_slice())?;
                self.shared = Arc::new(alloc, pages)?;
                Ok(())
            }
        }
    }
}

/// These pages, with one owner more for each. Refused only when out of memory.
pub(crate) fn copied(alloc: Global, pages: &[Page]) -> Result<Vec<Page>, AllocError>
    ensures { IfOk result (λ copy. copy.items ≡ pages.now) }
{
    let mut copy = Vec::with_capacity(alloc, count_seen(pages))?;
    for page in pages {
        copy.push(page.clone()?)?;
    }
    Ok(copy)
}

/// How many of these pages have a pair: all. It is counted, so that what lies in no cache comes from
/// memory side by side, before each gets an owner more, one after the other. It only affects speed.
fn count_seen(pages: &[Page]) -> usize {
    let mut count = 0usize;
    for page in pages {
        if page.pairs().len() > 0 {
            count = count.saturating_add(1);
        }
    }
    count
}

impl Clone for Chunk {
    ghost is_clone = { λ s t. t ≡ s };

    fn clone(&self) -> Result<Chunk, AllocError> {
        Ok(Chunk {
            shared: Arc::try_clone(&self.shared)?,
            prefix: self.prefix,
            empty_count: self.empty_count,
        })
    }
}
