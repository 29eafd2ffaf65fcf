//! What an optional column writes in each state.
ghost use Rattle.element_state.specs.Column.{column_clear, IsLawfulColumn};
ghost use Rattle.element_state.specs.lemmas.ColumnLaws.{column_clears, column_laws};
ghost use Rattle.element_state.specs.Kinds.{meaning_of_column};

use crate::cells::{cell, is_same};
use crate::element::Element;
use crate::pair::{put, remove};
use byte_map::Bytes;
use row_map::{Batch, Row};
use schema_version::ElementState;
use std::alloc::{AllocError, Global};

/// A column of a table in which a row has a value or none. A row with a value has one pair for it.
///
/// It is never write-only: a transaction that does not see the column cannot name a cell of it, so
/// nothing has to be filled, and in delete-only it keeps up with the rows already.
#[derive(Clone, Copy)]
pub struct OptionalColumn {
    /// The number of its table.
    pub table: u32,
    /// Its element number.
    pub number: u32,
}

impl Element for OptionalColumn {
    ghost table = { λ e. e.table };

    ghost meaning = { meaning_of_column };

    ghost clear = { λ e. column_clear e.table e.number };

    ghost lawful = { λ e. IsLawfulColumn e.number };

    ghost laws = { λ e lawful. column_laws e.table e.number lawful };

    ghost clears = { λ e lawful range. column_clears e.table e.number range.table_below lawful };

    fn number(&self) -> u32 {
        self.number
    }

    fn on_insert(
        &self,
        alloc: Global,
        state: ElementState,
        row: &Row,
        batch: &mut Batch,
    ) -> Result<(), AllocError> {
        match state {
            ElementState::Public => match cell(row, self.number) {
                None => Ok(()),
                Some(value) => put(alloc, self.table, self.number, &row.key, value, batch),
            },
            ElementState::Absent | ElementState::DeleteOnly | ElementState::WriteOnly => Ok(()),
        }
    }

    fn on_update(
        &self,
        alloc: Global,
        state: ElementState,
        old: &Row,
        new: &Row,
        batch: &mut Batch,
    ) -> Result<(), AllocError> {
        match state {
            ElementState::Public => {
                let value = cell(new, self.number);
                if is_same(cell(old, self.number), value) {
                    return Ok(());
                }
                match value {
                    None => remove(alloc, self.table, self.number, &old.key, batch),
                    Some(value) => put(alloc, self.table, self.number, &old.key, value, batch),
                }
            }
            ElementState::Absent | ElementState::DeleteOnly | ElementState::WriteOnly => Ok(()),
        }
    }

    fn on_delete(
        &self,
        alloc: Global,
        state: ElementState,
        row: &Row,
        batch: &mut Batch,
    ) -> Result<(), AllocError> {
        match state {
            ElementState::Absent => Ok(()),
            ElementState::DeleteOnly | ElementState::WriteOnly | ElementState::Public => {
                remove(alloc, self.table, self.number, &row.key, batch)
            }
        }
    }

    fn fill_of(&self, alloc: Global, row: &Row) -> Result<Option<(Bytes, Bytes)>, AllocError> {
        Ok(None)
    }
}
