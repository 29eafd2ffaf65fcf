//! The trait of elements, and the laws of what they write.
ghost use Rattle.std.specs.Prelude.{◌≡◌, OnOk, OnErr, IfOk, ℕ};
ghost use Rattle.row_map.specs.Writes.{noted};
ghost use Rattle.element_state.specs.Elements.{Meaning};
ghost use Rattle.element_state.specs.Laws.{Laws};
ghost use Rattle.element_state.specs.Tables.{within};
ghost use Rattle.element_state.specs.Items.{ClearRange, ClearFacts, HasRange};
ghost use Rattle.element_state.specs.Operations.{cells_of, inserted, updated, deleted, fill_pair};

use byte_map::Bytes;
use row_map::{Batch, Row};
use schema_version::ElementState;
use std::alloc::{AllocError, Global};

/// A column or an index of a table, whatever its kind: what an operation on a row writes for it, in
/// each of the four states.
///
/// The states are those of F1 ("Online, Asynchronous Schema Change in F1", Rae et al., PVLDB 6(11),
/// 2013): an absent element is not touched, a delete-only one loses pairs and gets none, a
/// write-only one is kept in full but not read, a public one is both. What each kind writes in each
/// of them is this project's own table, which the `writes` of a kind's meaning states.
///
/// A kind proves the laws together with its code, so whoever calls an `Element` has them at any
/// kind: see `subset_stays`, `exact_stays`, `nothing_grows`, `cover_stays`, `two_versions_stay`,
/// `fill_covers` and `clear_leaves_none`. A new kind is a file of its own with an `impl` of this
/// trait, and a variant in `AnyElement`.
pub trait Element {
    /// The number of the table whose rows have its pairs.
    ghost table: { Self → ℕ };

    /// Its number, the pair that a row has for it, and what an operation writes for it in each
    /// state.
    ghost meaning: { Self → Meaning };

    /// The range of keys that a clear of it goes through, and its items there.
    ghost clear: { Self → ClearRange };

    /// What its laws want of it: a number, and for an index a count of columns, within the limits.
    ghost lawful: { Self → Type 0 };

    /// The element's number, which it has for good and no other element ever gets.
    fn number(&self) -> u32
        ensures { result ≡ (meaning self.now).number };

    /// Notes in `batch` what the insert of `row` writes for this element when its state is `state`.
    ///
    /// `row` is the whole new row, of this element's table. `alloc` is where the keys and values
    /// are made. Running out of memory is the only refusal, and leaves the batch unchanged.
    fn on_insert(
        &self,
        alloc: Global,
        state: ElementState,
        row: &Row,
        batch: &mut Batch,
    ) -> Result<(), AllocError>
        ensures ok { OnOk result (batch.new ≡ noted batch.old ((meaning self.now).writes state (inserted (table self.now) row.now))) }
        ensures err { OnErr result (batch.new ≡ batch.old) };

    /// Notes in `batch` what the update of a row from `old` to `new` writes for this element when
    /// its state is `state`.
    ///
    /// Both are whole rows of this element's table, with the same primary key. Running out of
    /// memory is the only refusal, and leaves the batch unchanged, also if one write of two was
    /// made.
    fn on_update(
        &self,
        alloc: Global,
        state: ElementState,
        old: &Row,
        new: &Row,
        batch: &mut Batch,
    ) -> Result<(), AllocError>
        requires { old.now.key ≡ new.now.key }
        ensures ok { OnOk result (batch.new ≡ noted batch.old ((meaning self.now).writes state (updated (table self.now) old.now new.now))) }
        ensures err { OnErr result (batch.new ≡ batch.old) };

    /// Notes in `batch` what the delete of `row` writes for this element when its state is `state`.
    /// A removal of a pair that is not there is noted too.
    ///
    /// `row` is the whole old row, of this element's table. Running out of memory is the only
    /// refusal, and leaves the batch unchanged.
    fn on_delete(
        &self,
        alloc: Global,
        state: ElementState,
        row: &Row,
        batch: &mut Batch,
    ) -> Result<(), AllocError>
        ensures ok { OnOk result (batch.new ≡ noted batch.old ((meaning self.now).writes state (deleted (table self.now) row.now))) }
        ensures err { OnErr result (batch.new ≡ batch.old) };

    /// The key and value of the pair that a fill puts for `row`, a row of this element's table;
    /// none for a kind that no fill serves. Running out of memory is the only refusal.
    fn fill_of(&self, alloc: Global, row: &Row) -> Result<Option<(Bytes, Bytes)>, AllocError>
        ensures { IfOk result (λ pair. pair ≡ fill_pair (meaning self.now) (table self.now, row.now.key) (cells_of row.now)) };

    /// The laws of every kind.
    ghost laws: { (e : Self) → lawful e → Laws (within (table e) (meaning e)) };

    /// What each kind shows of its clear: its items are its own keys, and none of its pairs between
    /// two cursors is left out.
    ghost clears: { (e : Self) → lawful e → HasRange (table e) (meaning e).number → ClearFacts (within (table e) (meaning e)) (clear e) };
}
