//! What a handle counts by, and what the lock counts by.
ghost use Rattle.std.specs.Prelude.{◌≡◌, ◌+◌, ◌≤◌};

use crate::shared_ledger::{Blanks, Refused, SharedLedger, Taken};
use high_water::HighWater;
use std::sync::ledger::{Book, Share};

/// As many parts of each of the three ledgers, with what they count: the entries that were added,
/// those that were taken out of the log, and the commits that were refused.
#[derive(Drop)]
pub(crate) struct Rights<L: SharedLedger> {
    pub(crate) added: Share<L>,
    pub(crate) taken: Share<Taken<L>>,
    pub(crate) refused: Share<Refused<L>>,
    ghost even: { (taken.parts ≡ added.parts) × (refused.parts ≡ added.parts) },
}

/// The sums of these, which the lock keeps, and where the log begins: how many entries there were
/// before those in memory.
#[derive(Drop)]
pub(crate) struct Books<L: SharedLedger> {
    pub(crate) added: Book<L>,
    pub(crate) taken: Book<Taken<L>>,
    pub(crate) refused: Book<Refused<L>>,
    pub(crate) cut: HighWater,
}

/// Opens the ledgers: all is 0, and all parts are together. The log begins after so many entries.
pub(crate) fn open_books<L: SharedLedger>(blanks: Blanks, before: u64) -> (Books<L>, Rights<L>)
    requires names { (blanks.added.name ≡ L.name) × (blanks.taken.name ≡ L.taken_name) × (blanks.refused.name ≡ L.refused_name) × (blanks.cut.name ≡ L.cut_name) }
    requires parts { (blanks.added.parts ≡ L.parts) × (blanks.taken.parts ≡ L.parts) × (blanks.refused.parts ≡ L.parts) }
    ensures totals { (result.0.added.total ≡ 0) × (result.0.taken.total ≡ 0) }
    ensures cut { (result.0.cut.name ≡ L.cut_name) × (result.0.cut.at ≡ before) }
    ensures parts { result.1.added.parts ≡ L.parts }
    ensures none { (result.1.added.amount ≡ 0) × (result.1.taken.amount ≡ 0) × (result.1.refused.amount ≡ 0) }
{
    let Blanks {
        added,
        taken,
        refused,
        mut cut,
    } = blanks;
    cut.raise(before);
    let (added_book, added) = added.open::<L>();
    let (taken_book, taken) = taken.open::<Taken<L>>();
    let (refused_book, refused) = refused.open::<Refused<L>>();
    (
        Books {
            added: added_book,
            taken: taken_book,
            refused: refused_book,
            cut,
        },
        Rights {
            added,
            taken,
            refused,
        },
    )
}

impl<L: SharedLedger> Rights<L> {
    /// One part of each, which counts nothing yet.
    pub(crate) fn split_one(&mut self) -> Rights<L>
        requires some { 1 ≤ self.old.added.parts }
        requires none { (self.old.added.amount ≡ 0) × (self.old.taken.amount ≡ 0) × (self.old.refused.amount ≡ 0) }
        ensures left { self.new.added.parts + 1 ≡ self.old.added.parts }
        ensures still_none { (self.new.added.amount ≡ 0) × (self.new.taken.amount ≡ 0) × (self.new.refused.amount ≡ 0) }
        ensures one { result.added.parts ≡ 1 }
        ensures counts_none { (result.added.amount ≡ 0) × (result.taken.amount ≡ 0) × (result.refused.amount ≡ 0) }
    {
        let Rights {
            added,
            taken,
            refused,
        } = self;
        Rights {
            added: added.split_off(1, 0),
            taken: taken.split_off(1, 0),
            refused: refused.split_off(1, 0),
        }
    }

    /// No part, which counts nothing.
    pub(crate) fn empty(&mut self) -> Rights<L>
        ensures parts { result.added.parts ≡ 0 }
        ensures none { (result.added.amount ≡ 0) × (result.taken.amount ≡ 0) }
        ensures same { (self.new.added ≡ self.old.added) × (self.new.taken ≡ self.old.taken) × (self.new.refused ≡ self.old.refused) }
    {
        let Rights {
            added,
            taken,
            refused,
        } = self;
        Rights {
            added: added.empty(),
            taken: taken.empty(),
            refused: refused.empty(),
        }
    }

    /// Both together.
    pub(crate) fn merge(&mut self, other: Rights<L>)
        ensures parts { self.new.added.parts ≡ self.old.added.parts + other.added.parts }
        ensures added { self.new.added.amount ≡ self.old.added.amount + other.added.amount }
        ensures taken { self.new.taken.amount ≡ self.old.taken.amount + other.taken.amount }
        ensures apart { self.new.added.parts ≤ L.parts }
    {
        let Rights {
            added,
            taken,
            refused,
        } = other;
        self.added.merge(added);
        self.taken.merge(taken);
        self.refused.merge(refused);
    }
}
