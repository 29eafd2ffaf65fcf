//! The pairs of chunks from a key on.
ghost use Rattle.std.specs.Prelude.{◌≡◌, ◌<◌, ◌^◌, ◌++◌, [], IfSome, IfNone, drop, length, option_map, slice_get};
ghost use Rattle.byte_map.specs.Sorted.{IsSorted};
ghost use Rattle.page_map.specs.Empties.{empties};
ghost use Rattle.page_map.specs.Pages.{joined, AllFull, BeginsWith, IsRestFrom};

use crate::chunk::Chunk;
use crate::chunks::count_up_to;
use crate::page::prefix_of;
use crate::rest::{Near, Rest, nth_in_pages};
use std::marker::Model;

/// The pairs from a place in chunks on.
#[derive(Drop)]
pub(crate) struct Walk<'a> {
    /// Those of the first chunk: none only if none are left at all.
    pages: Rest<'a>,
    behind: &'a [Chunk],
}

impl<'a> Model for Walk<'a> {
    ghost use Rattle.std.specs.Prelude.{◌++◌, List, ℕ};
    ghost use Rattle.page_map.specs.Pages.{joined};
    ghost use Rattle.page_map.specs.Walk.{IsWalk};

    ghost Value = { List (List ℕ × List ℕ) };

    ghost view = { λ w. w.pages ++ joined w.behind.now };

    ghost invariant = { λ w. IsWalk w.pages w.behind.now };
}

impl<'a> Walk<'a> {
    /// These pairs of one chunk, and all of the chunks after it.
    fn begun(pages: Rest<'a>, behind: &'a [Chunk]) -> Walk<'a>
        requires { AllFull behind.now }
        ensures { result ≡ pages.entry ++ joined behind.now }
    {
        if pages.is_done() {
            if let [chunk, others @ ..] = behind {
                return Walk {
                    pages: Rest::all(chunk.pages()),
                    behind: others,
                };
            }
        }
        Walk { pages, behind }
    }

    /// The pairs whose keys are not below `key`.
    pub(crate) fn from(chunks: &'a [Chunk], key: &[u8]) -> Walk<'a>
        requires sorted { IsSorted (joined chunks.now) }
        requires full { AllFull chunks.now }
        ensures { IsRestFrom (joined chunks.now) key.now result }
    {
        Walk::near(chunks, key, &mut Near::new())
    }

    /// The same, if a key near it was looked up before.
    pub(crate) fn near(chunks: &'a [Chunk], key: &[u8], near: &mut Near) -> Walk<'a>
        requires sorted { IsSorted (joined chunks.now) }
        requires full { AllFull chunks.now }
        ensures { IsRestFrom (joined chunks.now) key.now result }
    {
        let count = count_up_to(chunks, key, &prefix_of(key), near.chunk);
        near.chunk = count;
        if count == 0 {
            return Walk::all(chunks);
        }
        let pages = Rest::near(chunks[count - 1].pages(), key, near);
        Walk::begun(pages, &chunks[count..])
    }

    /// All pairs of the chunks.
    pub(crate) fn all(chunks: &'a [Chunk]) -> Walk<'a>
        requires { AllFull chunks.now }
        ensures { result ≡ joined chunks.now }
    {
        Walk::begun(Rest::all(&[]), chunks)
    }

    /// The first of the pairs, if there is one.
    pub(crate) fn first(&self) -> Option<(&'a [u8], &'a [u8])>
        ensures some { IfSome result (λ p. BeginsWith self.now (p.0.now, p.1.now)) }
        ensures none { IfNone result (self.now ≡ []) }
    {
        match self.pages.first() {
            Some((key, value)) => Some((key, value)),
            None => None,
        }
    }

    /// How many of the pairs have an empty value: by the counts of the chunks after the first one.
    pub(crate) fn count_empty(&self) -> usize
        requires { length (empties self.now) < 2 ^ 64 }
        ensures { result ≡ length (empties self.now) }
    {
        let here = self.pages.count_empty();
        here + count_chunks(self.behind)
    }

    /// The key of the pair with an empty value that has so many of them before it.
    pub(crate) fn nth_empty(&self, n: usize) -> Option<&'a [u8]>
        requires { length (empties self.now) < 2 ^ 64 }
        ensures { option_map (λ k. k.now) result ≡ slice_get (empties self.now) n }
    {
        let here = self.pages.count_empty();
        if n < here {
            self.pages.nth_empty(n)
        } else {
            nth_in_chunks(self.behind, n - here)
        }
    }

    /// Goes on after the first of the pairs, if there is one.
    pub(crate) fn advance(&mut self)
        ensures { self.new ≡ drop 1 self.old }
    {
        self.pages.advance();
        if self.pages.is_done() {
            if let [chunk, others @ ..] = self.behind {
                self.pages = Rest::all(chunk.pages());
                self.behind = others;
            }
        }
    }
}

/// How many pairs of the chunks have an empty value: no page is looked at.
fn count_chunks(chunks: &[Chunk]) -> usize
    requires { length (empties (joined chunks.now)) < 2 ^ 64 }
    ensures { result ≡ length (empties (joined chunks.now)) }
{
    let mut count = 0;
    for chunk in chunks {
        count += chunk.empties();
    }
    count
}

/// The key of the pair with an empty value that has so many of them before it: one chunk alone is
/// looked into.
fn nth_in_chunks<'a>(chunks: &'a [Chunk], n: usize) -> Option<&'a [u8]>
    ensures { option_map (λ k. k.now) result ≡ slice_get (empties (joined chunks.now)) n }
{
    let mut left = n;
    for chunk in chunks {
        let here = chunk.empties();
        if left < here {
            return nth_in_pages(chunk.pages(), left);
        }
        left -= here;
    }
    None
}
