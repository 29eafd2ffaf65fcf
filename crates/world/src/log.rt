//! The log: its entries, of which those since the last cut are in memory, the moment of the last one,
//! and how an entry is added.
//! All that can be refused comes first, so that a call enters its entry when nothing can fail any
//! more.
ghost use Rattle.std.specs.Prelude.{◌≡◌, ◌<◌, ◌≤◌, ◌+◌, ◌^◌, drop, length, IfOk, OnOk};
ghost use Rattle.std.specs.Vec.{vec_len, vec_capacity};

use crate::entry::Receipt;
use crate::gone::Gone;
use crate::origin::Origin;
use collections::ArcValue;
use replay::{Entry, What};
use std::alloc::{AllocError, Global};
use std::marker::Model;
use std::mem::replace;

/// The entries that are in memory, the first one first, and the moment of the last one of all.
#[derive(Drop)]
pub(crate) struct Log {
    /// The checkpoint from which the log goes on, as it was then. It has no bytes.
    from: Origin,
    /// The entries since then that are no longer in memory. They have no bytes.
    gone: Gone,
    /// How many entries there were before those in memory.
    start: u64,
    entries: Vec<Entry>,
    moment: u64,
    ghost counted: { start ≡ from.value.place + length gone.entries },
    ghost few: { start + vec_len entries < 2 ^ 64 },
}

/// An entry that is ready to be entered, and the same for its receipt. Contracts see it as the
/// entry.
#[derive(Drop)]
pub(crate) struct Draft {
    entry: Entry,
    reported: Entry,
}

impl Model for Draft {
    ghost use Rattle.std.specs.Prelude.{◌≡◌};
    ghost use Rattle.replay.specs.declared.entry.Entry.{Entry as EntryOf};
    ghost use Rattle.world.specs.Code.{entry_code};

    ghost Value = { EntryOf };

    ghost coded = { entry_code };

    ghost view = { λ d. d.entry };

    ghost invariant = { λ d. d.reported ≡ d.entry };
}

// An entry, and the same for its receipt.
fn make_draft(alloc: Global, moment: u64, what: What) -> Result<Draft, AllocError>
    ensures { IfOk result (λ draft. draft ≡ record { moment = moment; what = what }) }
{
    let what = ArcValue::new(alloc, what)?;
    let reported = Entry {
        moment,
        what: what.clone()?,
    };
    Ok(Draft {
        entry: Entry { moment, what },
        reported,
    })
}

// Lets the first so many entries go; the others move to the front.
fn let_go(entries: &mut Vec<Entry>, count: usize)
    requires { count ≤ vec_len entries.old }
    ensures { entries.new.items ≡ drop count entries.old.items }
{
    let left = entries.len() - count;
    entries.rotate_left(count);
    entries.truncate(left);
}

impl Log {
    ghost use Rattle.world.specs.Whole.{whole, none_yet, one_more, cut_all, cut_but, count_of};

    /// A log without entries that goes on from a checkpoint of this place and moment.
    pub(crate) fn new(alloc: Global, from: Origin, place: u64, moment: u64) -> Log
        requires { place ≡ from.value.place }
        ensures entries { whole result ≡ none_yet from.value }
        ensures moment { result.moment ≡ moment }
    {
        Log {
            from,
            gone: Gone::new(),
            start: place,
            entries: Vec::new(alloc),
            moment,
        }
    }

    /// The moment of the last entry; before the first, that of the checkpoint.
    pub(crate) fn moment(&self) -> u64
        ensures { result ≡ self.now.moment }
    {
        self.moment
    }

    /// How many entries there were ever, those before the checkpoint among them.
    pub(crate) fn count(&self) -> u64
        ensures count { result ≡ count_of (whole self.now) }
        ensures kept { result ≡ (whole self.now).opening.place + (whole self.now).cut + length (drop (whole self.now).cut (whole self.now).all) }
    {
        self.start + self.entries.len() as u64
    }

    /// How many entries there were before those in memory.
    pub(crate) fn start(&self) -> u64
        ensures { result ≡ (whole self.now).opening.place + (whole self.now).cut }
    {
        self.start
    }

    /// The entries in memory, the first one first.
    pub(crate) fn entries(&self) -> &[Entry]
        ensures { result.now ≡ drop (whole self.now).cut (whole self.now).all }
    {
        self.entries.as_slice()
    }

    /// Makes an entry ready, and room for it; the entries stay. Refused when out of memory, and when
    /// no place is left.
    pub(crate) fn make_ready(
        &mut self,
        alloc: Global,
        moment: u64,
        what: What,
    ) -> Result<Draft, AllocError>
        ensures draft { IfOk result (λ draft. draft ≡ record { moment = moment; what = what }) }
        ensures room { OnOk result (vec_len self.new.entries < vec_capacity self.new.entries) }
        ensures places { OnOk result (count_of (whole self.new) + 1 < 2 ^ 64) }
        ensures entries { whole self.new ≡ whole self.old }
        ensures moment { self.new.moment ≡ self.old.moment }
    {
        if self.start + self.entries.len() as u64 == u64::MAX {
            return Err(AllocError);
        }
        let draft = make_draft(alloc, moment, what)?;
        self.entries.reserve(1)?;
        Ok(draft)
    }

    /// Enters what is ready, and gives the receipt for it.
    pub(crate) fn enter(&mut self, draft: Draft) -> Receipt
        requires room { vec_len self.old.entries < vec_capacity self.old.entries }
        requires places { count_of (whole self.old) + 1 < 2 ^ 64 }
        ensures entries { whole self.new ≡ one_more (whole self.old) draft }
        ensures moment { self.new.moment ≡ draft.moment }
        ensures receipt { result ≡ record { place = count_of (whole self.old) + 1; entry = draft } }
    {
        let Draft { entry, reported } = draft;
        let place = self.start + self.entries.len() as u64 + 1;
        self.moment = entry.moment;
        self.entries.push_reserved(entry);
        Receipt {
            place,
            entry: reported,
        }
    }

    /// Hands out the entries in memory, the first one first. The log stays, and is out of memory.
    pub(crate) fn take(&mut self) -> Vec<Entry>
        ensures taken { result.items ≡ drop (whole self.old).cut (whole self.old).all }
        ensures entries { whole self.new ≡ cut_all (whole self.old) }
        ensures moment { self.new.moment ≡ self.old.moment }
    {
        let Log {
            from: _,
            gone,
            start,
            entries,
            moment: _,
        } = self;
        *gone = Gone::with(gone, entries.as_slice());
        *start += entries.len() as u64;
        let alloc = *entries.allocator();
        replace(entries, Vec::new(alloc))
    }

    /// Gives the entries in memory back, but for the last so many of them.
    pub(crate) fn cut_but(&mut self, keep: usize)
        ensures entries { whole self.new ≡ cut_but keep (whole self.old) }
        ensures moment { self.new.moment ≡ self.old.moment }
    {
        let Log {
            from: _,
            gone,
            start,
            entries,
            moment: _,
        } = self;
        let count = entries.len().saturating_sub(keep);
        *gone = Gone::with(gone, &entries.as_slice()[..count]);
        *start += count as u64;
        let_go(entries, count);
    }
}
