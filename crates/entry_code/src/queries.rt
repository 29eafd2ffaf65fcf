//! The codes of queries and of the rows that they answer.
ghost use Rattle.keycode.specs.Valid.{IsValue};
ghost use Rattle.entry_code.specs.Code.{option_code, cond_code, asked_code, row_code};
ghost use Rattle.entry_code.specs.Known.{IsOption, IsCond, IsQuery, IsRow};
ghost use Rattle.entry_code.specs.inner.At.{option_at, cond_at, query_at, table_row_at};

use crate::encoded::Encoded;
use crate::fault::CodeFault;
use crate::numbers::read_byte;
use collections::List;
use keycode::{Value, Values};
use row_map::Row;
use row_query::{Cond, Query};
use std::alloc::{AllocError, Global};

impl<T: Encoded + Drop> Encoded for Option<T> {
    ghost code = { option_code T.code };

    ghost at = { option_at T.at };

    ghost known = { IsOption T.known };

    fn push(&self, out: &mut Vec<u8>) -> Result<(), AllocError> {
        match self {
            None => {
                out.push(0)?;
                Ok(())
            }
            Some(value) => {
                out.push(1)?;
                value.push(out)
            }
        }
    }

    #[tactic(auto, unfolding(crate::specs::inner::At::option_at))]
    fn read(alloc: Global, bytes: &[u8]) -> Result<(Option<T>, &[u8]), CodeFault> {
        let (tag, bytes) = read_byte(bytes)?;
        match tag {
            0 => Ok((None, bytes)),
            1 => {
                let (value, rest) = T::read(alloc, bytes)?;
                Ok((Some(value), rest))
            }
            _ => Err(CodeFault::Malformed),
        }
    }
}

/// A column and two bounds, each of which may be absent.
type Bounds = (u32, (Option<Value>, Option<Value>));

impl Encoded for Cond {
    ghost code = { cond_code };

    ghost at = { cond_at };

    ghost known = { IsCond IsValue };

    fn push(&self, out: &mut Vec<u8>) -> Result<(), AllocError> {
        match self {
            Cond::Key(key) => {
                out.push(0)?;
                key.push(out)
            }
            Cond::Equal { column, value } => {
                out.push(1)?;
                column.push(out)?;
                value.push(out)
            }
            Cond::Between { column, low, high } => {
                out.push(2)?;
                column.push(out)?;
                low.push(out)?;
                high.push(out)
            }
        }
    }

    #[tactic(auto, unfolding(crate::specs::inner::At::cond_at))]
    fn read(alloc: Global, bytes: &[u8]) -> Result<(Cond, &[u8]), CodeFault> {
        let (tag, bytes) = read_byte(bytes)?;
        match tag {
            0 => {
                let (key, rest) = Values::read(alloc, bytes)?;
                Ok((Cond::Key(key), rest))
            }
            1 => {
                let ((column, value), rest) = <(u32, Value)>::read(alloc, bytes)?;
                Ok((Cond::Equal { column, value }, rest))
            }
            2 => {
                let ((column, (low, high)), rest) = <Bounds>::read(alloc, bytes)?;
                Ok((Cond::Between { column, low, high }, rest))
            }
            _ => Err(CodeFault::Malformed),
        }
    }
}

impl Encoded for Query {
    ghost code = { asked_code };

    ghost at = { query_at };

    ghost known = { IsQuery IsValue };

    fn push(&self, out: &mut Vec<u8>) -> Result<(), AllocError> {
        self.table.push(out)?;
        self.columns.push(out)?;
        self.conditions.push(out)
    }

    #[tactic(auto, unfolding(crate::specs::inner::At::query_at))]
    fn read(alloc: Global, bytes: &[u8]) -> Result<(Query, &[u8]), CodeFault> {
        let ((table, (columns, conditions)), rest) = <(u32, (List<u32>, List<Cond>))>::read(
            alloc, bytes,
        )?;
        Ok((
            Query {
                table,
                columns,
                conditions,
            },
            rest,
        ))
    }
}

impl Encoded for Row {
    ghost code = { row_code };

    ghost at = { table_row_at };

    ghost known = { IsRow IsValue };

    fn push(&self, out: &mut Vec<u8>) -> Result<(), AllocError> {
        self.key.push(out)?;
        self.cells.push(out)
    }

    #[tactic(auto, unfolding(crate::specs::inner::At::table_row_at))]
    fn read(alloc: Global, bytes: &[u8]) -> Result<(Row, &[u8]), CodeFault> {
        let ((key, cells), rest) = <(Values, List<(u32, Value)>)>::read(alloc, bytes)?;
        Ok((Row { key, cells }, rest))
    }
}
