//! Pages that changes make anew, and that then take the place of the earlier ones.
ghost use Rattle.std.specs.Prelude.{◌≡◌, ◌+◌, ◌-◌, ◌++◌, [], ◌≤◌, ◌<◌, List, ℕ, T, Option, IfOk, IfSome, OnOk, length, take, drop, reverse};
ghost use Rattle.std.specs.Vec.{vec_len, vec_capacity};
ghost use Rattle.std.specs.FinMap.Entries.{below_all};
ghost use Rattle.byte_map.specs.Order.{bytes_cmp};
ghost use Rattle.byte_map.specs.Sorted.{IsSorted, all_below, changed_all};
ghost use Rattle.page_map.specs.Pages.{joined, Stands};
ghost use Rattle.page_map.specs.inner.Plan.{made, placed, IsPlan};

use crate::page::{Page, prefix_of};
use crate::renewed::{renewed, sum};
use crate::rest::count_up_to;
use byte_map::{Bytes, sorted};
use std::alloc::{AllocError, Global};

/// So often the pages after a place are moved at once, by the block, before one pass over them,
/// page by page, is faster.
const FEW_SHIFTS: usize = 8;

/// Pages that are to take the place of one page.
#[derive(Drop)]
pub(crate) struct Piece {
    at: usize,
    pages: Vec<Page>,
}

/// All pages that a batch of changes makes anew, before the first of them takes its place.
#[derive(Drop)]
pub(crate) struct Plan {
    /// In the order of their places.
    pieces: Vec<Piece>,
    /// The place after that of the last piece.
    reach: usize,
    /// How many pages they bring.
    pub(crate) room: usize,
    /// About how often the pages after a piece would move if each came to its place by itself: a
    /// choice of speed alone.
    pub(crate) shifts: usize,
    /// Of how many pairs those of the pages are a part.
    pub(crate) base: usize,
    /// How many there will be of those.
    pub(crate) len: usize,
}

impl Plan {
    /// How many pairs there are once it is carried out.
    pub(crate) fn total(&self) -> usize
        ensures { result ≡ self.now.len }
    {
        self.len
    }

    /// Makes the pages that `writes` need anew, if `pages` hold some of so many pairs. Refused
    /// only when out of memory.
    pub(crate) fn new(
        alloc: Global,
        pages: &[Page],
        len: usize,
        writes: &[(Bytes, Option<Bytes>)],
    ) -> Result<Plan, AllocError>
        requires pages { IsSorted (joined pages.now) }
        requires counted { length (joined pages.now) ≤ len }
        requires writes { IsSorted writes.now }
        ensures plan { IfOk result (λ plan. IsPlan pages.now plan) }
        ensures base { IfOk result (λ plan. plan.base ≡ len) }
        ensures all { IfOk result (λ plan. joined (placed pages.now (reverse plan.pieces.items)) ≡ changed_all (joined pages.now) writes.now) }
    {
        let mut plan = Plan {
            pieces: Vec::new(alloc),
            reach: 0,
            room: 0,
            shifts: 0,
            base: len,
            len,
        };
        let mut done = 0;
        while done < writes.len() {
            let at = place_of(pages, plan.reach, writes[done].0.as_slice(), usize::MAX);
            let left = writes.split_at(done).1;
            let count = count_before(left, pages, at + 1);
            plan.add(alloc, pages, at, left.split_at(count).0)?;
            done += count;
        }
        Ok(plan)
    }

    fn add(
        &mut self,
        alloc: Global,
        pages: &[Page],
        at: usize,
        writes: &[(Bytes, Option<Bytes>)],
    ) -> Result<(), AllocError>
        requires sorted { IsSorted (joined pages.now) }
        requires writes { IsSorted writes.now }
        requires plan { IsPlan pages.now self.old }
        requires ahead { self.old.reach ≤ at }
        requires in_range { at ≤ length pages.now }
        ensures plan { OnOk result (IsPlan pages.now self.new) }
        ensures base { OnOk result (self.new.base ≡ self.old.base) }
        ensures reach { OnOk result (self.new.reach ≡ at + 1) }
        ensures made { OnOk result (joined (made pages.now (reverse self.new.pieces.items)) ≡ joined (made pages.now (reverse self.old.pieces.items)) ++ (joined (drop self.old.reach (take at pages.now)) ++ changed_all (joined (take 1 (drop at pages.now))) writes.now)) }
    {
        let others = self.len - len_at(pages, at);
        let (new, many) = renewed(alloc, pages, at, writes)?;
        let len = sum(others, many)?;
        let count = new.as_slice().len();
        let room = sum(self.room, count)?;
        self.pieces.push(Piece { at, pages: new })?;
        self.reach = at + 1;
        self.room = room;
        self.shifts = self.shifts.saturating_add(shifts(count));
        self.len = len;
        Ok(())
    }

    /// Room for the pages to go by way of, if one pass over them is faster than one for each
    /// piece. Refused only when out of memory.
    pub(crate) fn spare(
        &self,
        alloc: Global,
        pages: &Vec<Page>,
    ) -> Result<Option<Vec<Page>>, AllocError>
        requires { vec_len pages.now + self.now.room ≤ vec_capacity pages.now }
        ensures { IfOk result (λ spare. IfSome spare (λ behind. (behind.items ≡ []) × (vec_len pages.now + self.now.room ≤ vec_capacity behind))) }
    {
        if self.shifts <= FEW_SHIFTS {
            return Ok(None);
        }
        Ok(Some(Vec::with_capacity(alloc, pages.len() + self.room)?))
    }

    /// Puts the pieces into their places, for which there is room.
    pub(crate) fn place(self, pages: &mut Vec<Page>, spare: Option<Vec<Page>>)
        requires plan { IsPlan pages.old.items self }
        requires room { vec_len pages.old + self.room ≤ vec_capacity pages.old }
        requires spare { IfSome spare (λ behind. (behind.items ≡ []) × (vec_len pages.old + self.room ≤ vec_capacity behind)) }
        ensures { pages.new.items ≡ placed pages.old.items (reverse self.pieces.items) }
    {
        match spare {
            None => self.place_each(pages),
            Some(behind) => self.place_all(pages, behind),
        }
    }

    /// Puts the pieces into their places, for which there is room, one by one: right if few of
    /// them move the pages after.
    fn place_each(self, pages: &mut Vec<Page>)
        requires plan { IsPlan pages.old.items self }
        requires room { vec_len pages.old + self.room ≤ vec_capacity pages.old }
        ensures { pages.new.items ≡ placed pages.old.items (reverse self.pieces.items) }
    {
        let mut pieces = self.pieces;
        while let Some(piece) = pieces.pop() {
            put(pages, piece.at, piece.pages);
        }
    }

    /// Puts the pieces into their places, for which there is room, in one pass over the pages after
    /// the first of them, which go by way of `behind`.
    fn place_all(self, pages: &mut Vec<Page>, mut behind: Vec<Page>)
        requires plan { IsPlan pages.old.items self }
        requires room { vec_len pages.old + self.room ≤ vec_capacity pages.old }
        requires empty { behind.items ≡ [] }
        requires spare { vec_len pages.old + self.room ≤ vec_capacity behind }
        ensures { pages.new.items ≡ placed pages.old.items (reverse self.pieces.items) }
    {
        let mut pieces = self.pieces;
        while let Some(mut piece) = pieces.pop() {
            turn_over(pages, piece.at + 1, &mut behind);
            pages.truncate(piece.at);
            turn_over(&mut piece.pages, 0, &mut behind);
        }
        turn_over(&mut behind, 0, pages);
    }
}

/// The page that `key` belongs to, of those from a place on: the last one that begins at or below
/// it, or the first. The search begins with the guess `near`.
pub(crate) fn place_of(pages: &[Page], from: usize, key: &[u8], near: usize) -> usize
    requires sorted { IsSorted (joined pages.now) }
    requires in_range { from ≤ length pages.now }
    ensures ahead { from ≤ result }
    ensures in_range { result ≤ length pages.now }
    ensures before { T (all_below (joined (drop from (take result pages.now))) key.now) }
    ensures after { T (below_all bytes_cmp key.now (joined (drop (result + 1) pages.now))) }
{
    let rest = pages.split_at(from).1;
    let count = count_up_to(rest, key, &prefix_of(key), near);
    if count == 0 { from } else { from + (count - 1) }
}

/// How many of the writes fall before the pages from a place on.
pub(crate) fn count_before(writes: &[(Bytes, Option<Bytes>)], pages: &[Page], from: usize) -> usize
    requires { IsSorted writes.now }
    ensures in_range { result ≤ length writes.now }
    ensures all { length pages.now ≤ from → result ≡ length writes.now }
    ensures some { (w : List ℕ × Option (List ℕ)) → Stands writes.now 0 w → T (below_all bytes_cmp w.0 (joined (drop from pages.now))) → 0 < result }
    ensures parted { (page : List (List ℕ × List ℕ)) → IsSorted (page ++ joined (drop from pages.now)) → changed_all (page ++ joined (drop from pages.now)) writes.now ≡ changed_all page (take result writes.now) ++ changed_all (joined (drop from pages.now)) (drop result writes.now) }
{
    if from < pages.len() {
        sorted::first_from(writes, pages[from].pairs().pair(0).0)
    } else {
        writes.len()
    }
}

/// How many pairs the page at a place has: none if there is no page.
fn len_at(pages: &[Page], at: usize) -> usize
    ensures { result ≡ length (joined (take 1 (drop at pages.now))) }
{
    if at < pages.len() {
        pages[at].pairs().len()
    } else {
        0
    }
}

/// Puts `new` into the place of the page at a place, or after all pages. There is room for them.
fn put(pages: &mut Vec<Page>, at: usize, mut new: Vec<Page>)
    requires in_range { at ≤ vec_len pages.old }
    requires room { vec_len pages.old + vec_len new ≤ vec_capacity pages.old }
    ensures items { pages.new.items ≡ take at pages.old.items ++ (new.items ++ drop (at + 1) pages.old.items) }
    ensures len { vec_len pages.new ≤ vec_len pages.old + vec_len new }
    ensures capacity { vec_capacity pages.old ≤ vec_capacity pages.new }
{
    if at < pages.len() {
        match new.pop() {
            Some(last) => pages[at] = last,
            None => {
                pages.remove(at);
            }
        }
    }
    insert_all(pages, at, new);
}

/// Puts `new` before the page at a place, or after all pages. There is room for them.
fn insert_all(pages: &mut Vec<Page>, at: usize, mut new: Vec<Page>)
    requires in_range { at ≤ vec_len pages.old }
    requires room { vec_len pages.old + vec_len new ≤ vec_capacity pages.old }
    ensures items { pages.new.items ≡ take at pages.old.items ++ (new.items ++ drop at pages.old.items) }
    ensures len { vec_len pages.new ≡ vec_len pages.old + vec_len new }
    ensures capacity { vec_capacity pages.old ≤ vec_capacity pages.new }
{
    while let Some(page) = new.pop() {
        if pages.insert(at, page).is_err() {
            unreachable!();
        }
    }
}

/// Moves the pages from a place on after those of `to`, for which there is room, the last one
/// first.
fn turn_over(from: &mut Vec<Page>, at: usize, to: &mut Vec<Page>)
    requires room { vec_len to.old + (vec_len from.old - at) ≤ vec_capacity to.old }
    ensures left { from.new.items ≡ take at from.old.items }
    ensures moved { to.new.items ≡ to.old.items ++ reverse (drop at from.old.items) }
    ensures total { vec_len from.new + vec_len to.new ≡ vec_len from.old + vec_len to.old }
    ensures capacity { vec_capacity to.old ≤ vec_capacity to.new }
    ensures from_capacity { vec_capacity from.old ≤ vec_capacity from.new }
{
    while from.len() > at {
        match from.pop() {
            Some(page) => {
                if to.push(page).is_err() {
                    unreachable!();
                }
            }
            None => unreachable!(),
        }
    }
}

// How often the pages after a place move if so many pages come there for one: a choice of speed
// alone.
fn shifts(count: usize) -> usize {
    match count {
        0 => 1,
        1 => 0,
        _ => count,
    }
}
