//! What a required column writes in each state.
ghost use Rattle.std.specs.Prelude.{◌≡◌};
ghost use Rattle.element_state.specs.Column.{column_clear, IsLawfulColumn};
ghost use Rattle.element_state.specs.Kinds.{meaning_of_required};
ghost use Rattle.element_state.specs.Operations.{cells_of};
ghost use Rattle.element_state.specs.Required.{required_value};
ghost use Rattle.element_state.specs.lemmas.RequiredLaws.{required_clears, required_laws};

use crate::cells::cell;
use crate::element::Element;
use crate::pair::{encode_value, put, remove};
use byte_map::Bytes;
use keycode::Value;
use row_map::{Batch, Row, column_key};
use schema_version::ElementState;
use std::alloc::{AllocError, Global};

/// A column of a table in which each row has a value, its own or the default, and one pair for it.
///
/// It moves as an index does: in write-only each row that is inserted gets the default's pair, and
/// a fill gives one to each row that was there before.
#[derive(Drop)]
pub struct RequiredColumn {
    /// The number of its table.
    pub table: u32,
    /// Its element number.
    pub number: u32,
    /// The default: what a row has that was given no value. It is of the column's type, hence not
    /// Null.
    pub fallback: Value,
}

impl RequiredColumn {
    // The value of a row: its own, or the default.
    fn value<'a>(&'a self, row: &'a Row) -> &'a Value
        ensures { result.now ≡ required_value self.now.number self.now.fallback (cells_of row.now) }
    {
        cell(row, self.number).unwrap_or(&self.fallback)
    }
}

impl Element for RequiredColumn {
    ghost table = { λ e. e.table };

    ghost meaning = { meaning_of_required };

    ghost clear = { λ e. column_clear e.table e.number };

    ghost lawful = { λ e. IsLawfulColumn e.number };

    ghost laws = { λ e lawful. required_laws e.table e.number e.fallback lawful };

    ghost clears = { λ e lawful range. required_clears e.table e.number e.fallback range.table_below lawful };

    fn number(&self) -> u32 {
        self.number
    }

    fn on_insert(
        &self,
        alloc: Global,
        state: ElementState,
        row: &Row,
        batch: &mut Batch,
    ) -> Result<(), AllocError> {
        match state {
            ElementState::Absent | ElementState::DeleteOnly => Ok(()),
            ElementState::WriteOnly => {
                put(
                    alloc,
                    self.table,
                    self.number,
                    &row.key,
                    &self.fallback,
                    batch,
                )
            }
            ElementState::Public => {
                put(
                    alloc,
                    self.table,
                    self.number,
                    &row.key,
                    self.value(row),
                    batch,
                )
            }
        }
    }

    fn on_update(
        &self,
        alloc: Global,
        state: ElementState,
        old: &Row,
        new: &Row,
        batch: &mut Batch,
    ) -> Result<(), AllocError> {
        match state {
            ElementState::Public => {
                let value = self.value(new);
                if self.value(old).cmp(value).is_eq() {
                    return Ok(());
                }
                put(alloc, self.table, self.number, &old.key, value, batch)
            }
            ElementState::Absent | ElementState::DeleteOnly | ElementState::WriteOnly => Ok(()),
        }
    }

    fn on_delete(
        &self,
        alloc: Global,
        state: ElementState,
        row: &Row,
        batch: &mut Batch,
    ) -> Result<(), AllocError> {
        match state {
            ElementState::Absent => Ok(()),
            ElementState::DeleteOnly | ElementState::WriteOnly | ElementState::Public => {
                remove(alloc, self.table, self.number, &row.key, batch)
            }
        }
    }

    fn fill_of(&self, alloc: Global, row: &Row) -> Result<Option<(Bytes, Bytes)>, AllocError> {
        let key = column_key(alloc, self.table, row.key.as_slice(), self.number)?;
        Ok(Some((key, encode_value(alloc, self.value(row))?)))
    }
}
