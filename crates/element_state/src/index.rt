//! What an index writes in each state.
ghost use Rattle.std.specs.Prelude.{◌≡◌, OnOk, OnErr, IfOk, Some, None, [], ◌∷◌, ◌++◌, true, false};
ghost use Rattle.row_map.specs.Writes.{noted};
ghost use Rattle.row_map.specs.Keys.{index_code};
ghost use Rattle.element_state.specs.Index.{index_clear, indexed, index_pair, index_by, IsLawfulIndex};
ghost use Rattle.element_state.specs.lemmas.IndexLaws.{index_clears, index_laws};
ghost use Rattle.element_state.specs.Operations.{cells_of};
ghost use Rattle.element_state.specs.Kinds.{meaning_of_index};

use crate::cells::{copy_value, value_or_default};
use crate::element::Element;
use byte_map::Bytes;
use collections::List;
use keycode::{Value, Values};
use row_map::{Batch, Row, index_key};
use schema_version::ElementState;
use std::alloc::{AllocError, Global};
use std::slice::from_ref;

/// A secondary index over columns of a table. Each row of the table has one pair for it, without a
/// value, whose key has the row's values in these columns and then its primary key.
#[derive(Drop)]
pub struct IndexElement {
    /// The number of its table.
    pub table: u32,
    /// Its element number.
    pub number: u32,
    /// The element numbers of its 1 to 4 columns, in the order in which they sort, each with what
    /// stands for a value that a row lacks in it: Null, or the default of a required column.
    pub columns: List<(u32, Value)>,
}

/// A row's values in some columns, or what stands for those that it lacks.
fn indexed_values(alloc: Global, columns: &[(u32, Value)], row: &Row) -> Result<Values, AllocError>
    ensures { IfOk result (λ values. values ≡ indexed columns.now (cells_of row.now)) }
{
    let mut values = Vec::new(alloc);
    for column in columns {
        values.push(copy_value(row, column)?)?;
    }
    Ok(List::new(values))
}

impl IndexElement {
    /// The key of a row's pair.
    fn key_of(&self, alloc: Global, row: &Row) -> Result<Bytes, AllocError>
        ensures { IfOk result (λ key. key ≡ index_pair self.now.number self.now.columns (self.now.table, row.now.key) (cells_of row.now)) }
    {
        if let [column] = self.columns.as_slice() {
            // The one value of most indexes needs no copy.
            let value = from_ref(value_or_default(row, column));
            return index_key(alloc, self.number, value, row.key.as_slice());
        }
        let values = indexed_values(alloc, self.columns.as_slice(), row)?;
        index_key(alloc, self.number, values.as_slice(), row.key.as_slice())
    }

    /// Moves a row's pair from its old key to its new one, which is put if the index keeps up with
    /// the rows.
    fn move_pair(
        &self,
        alloc: Global,
        puts: bool,
        old: &Row,
        new: &Row,
        batch: &mut Batch,
    ) -> Result<(), AllocError>
        requires { old.now.key ≡ new.now.key }
        ensures ok { OnOk result (batch.new ≡ noted batch.old (index_by self.now.number self.now.columns puts (self.now.table, old.now.key) (Some (cells_of old.now)) (Some (cells_of new.now)))) }
        ensures err { OnErr result (batch.new ≡ batch.old) }
    {
        let before = self.key_of(alloc, old)?;
        let after = self.key_of(alloc, new)?;
        if before.cmp(&after).is_eq() {
            return Ok(());
        }
        if puts {
            let empty = Bytes::new(Vec::new(alloc))?;
            let writes = vec![in alloc; (before, None), (after, Some(empty))]?;
            batch.note_all(writes)
        } else {
            batch.remove(before)
        }
    }
}

impl Element for IndexElement {
    ghost table = { λ e. e.table };

    ghost meaning = { meaning_of_index };

    ghost clear = { λ e. index_clear e.number };

    ghost lawful = { λ e. IsLawfulIndex e.number e.columns };

    ghost laws = { λ e lawful. index_laws e.table e.number e.columns lawful };

    ghost clears = { λ e lawful range. index_clears e.table e.number e.columns range.number_below };

    fn number(&self) -> u32 {
        self.number
    }

    fn on_insert(
        &self,
        alloc: Global,
        state: ElementState,
        row: &Row,
        batch: &mut Batch,
    ) -> Result<(), AllocError> {
        match state {
            ElementState::Absent | ElementState::DeleteOnly => Ok(()),
            ElementState::WriteOnly | ElementState::Public => {
                let key = self.key_of(alloc, row)?;
                batch.put(key, Bytes::new(Vec::new(alloc))?)
            }
        }
    }

    fn on_update(
        &self,
        alloc: Global,
        state: ElementState,
        old: &Row,
        new: &Row,
        batch: &mut Batch,
    ) -> Result<(), AllocError> {
        match state {
            ElementState::Absent => Ok(()),
            ElementState::DeleteOnly => self.move_pair(alloc, false, old, new, batch),
            ElementState::WriteOnly | ElementState::Public => {
                self.move_pair(alloc, true, old, new, batch)
            }
        }
    }

    fn on_delete(
        &self,
        alloc: Global,
        state: ElementState,
        row: &Row,
        batch: &mut Batch,
    ) -> Result<(), AllocError> {
        match state {
            ElementState::Absent => Ok(()),
            ElementState::DeleteOnly | ElementState::WriteOnly | ElementState::Public => {
                let key = self.key_of(alloc, row)?;
                batch.remove(key)
            }
        }
    }

    fn fill_of(&self, alloc: Global, row: &Row) -> Result<Option<(Bytes, Bytes)>, AllocError> {
        let key = self.key_of(alloc, row)?;
        Ok(Some((key, Bytes::new(Vec::new(alloc))?)))
    }
}
