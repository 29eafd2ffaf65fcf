//! The codes of steps.
ghost use Rattle.keycode.specs.Valid.{IsValue};
ghost use Rattle.entry_code.specs.Code.{type_code, state_code, kind_code, fresh_code, move_code};
ghost use Rattle.entry_code.specs.Known.{IsAny, IsKind, IsFresh, IsMove};
ghost use Rattle.entry_code.specs.inner.At.{type_at, state_at, kind_at, fresh_at, move_at};

use crate::encoded::Encoded;
use crate::fault::CodeFault;
use crate::numbers::read_byte;
use collections::List;
use keycode::{Text, Value};
use row_map::ColumnType;
use schema_version::{ElementState, Kind, Move, NewElement};
use std::alloc::{AllocError, Global};

impl Encoded for ColumnType {
    ghost code = { type_code };

    ghost at = { type_at };

    ghost known = { IsAny };

    fn push(&self, out: &mut Vec<u8>) -> Result<(), AllocError> {
        out.push(match self {
            ColumnType::Int => 0,
            ColumnType::Text => 1,
            ColumnType::Bool => 2,
        })?;
        Ok(())
    }

    #[tactic(auto, unfolding(crate::specs::inner::At::type_at))]
    fn read(_alloc: Global, bytes: &[u8]) -> Result<(ColumnType, &[u8]), CodeFault> {
        let (tag, rest) = read_byte(bytes)?;
        match tag {
            0 => Ok((ColumnType::Int, rest)),
            1 => Ok((ColumnType::Text, rest)),
            2 => Ok((ColumnType::Bool, rest)),
            _ => Err(CodeFault::Malformed),
        }
    }
}

impl Encoded for ElementState {
    ghost code = { state_code };

    ghost at = { state_at };

    ghost known = { IsAny };

    fn push(&self, out: &mut Vec<u8>) -> Result<(), AllocError> {
        out.push(match self {
            ElementState::Absent => 0,
            ElementState::DeleteOnly => 1,
            ElementState::WriteOnly => 2,
            ElementState::Public => 3,
        })?;
        Ok(())
    }

    #[tactic(auto, unfolding(crate::specs::inner::At::state_at))]
    fn read(_alloc: Global, bytes: &[u8]) -> Result<(ElementState, &[u8]), CodeFault> {
        let (tag, rest) = read_byte(bytes)?;
        match tag {
            0 => Ok((ElementState::Absent, rest)),
            1 => Ok((ElementState::DeleteOnly, rest)),
            2 => Ok((ElementState::WriteOnly, rest)),
            3 => Ok((ElementState::Public, rest)),
            _ => Err(CodeFault::Malformed),
        }
    }
}

impl Encoded for Kind {
    ghost code = { kind_code };

    ghost at = { kind_at };

    ghost known = { IsKind IsValue };

    fn push(&self, out: &mut Vec<u8>) -> Result<(), AllocError> {
        match self {
            Kind::Index(columns) => {
                out.push(0)?;
                columns.push(out)
            }
            Kind::Optional(column) => {
                out.push(1)?;
                column.push(out)
            }
            Kind::Required { column, fallback } => {
                out.push(2)?;
                column.push(out)?;
                fallback.push(out)
            }
        }
    }

    #[tactic(auto, unfolding(crate::specs::inner::At::kind_at))]
    fn read(alloc: Global, bytes: &[u8]) -> Result<(Kind, &[u8]), CodeFault> {
        let (tag, bytes) = read_byte(bytes)?;
        match tag {
            0 => {
                let (columns, rest) = List::<u32>::read(alloc, bytes)?;
                Ok((Kind::Index(columns), rest))
            }
            1 => {
                let (column, rest) = ColumnType::read(alloc, bytes)?;
                Ok((Kind::Optional(column), rest))
            }
            2 => {
                let ((column, fallback), rest) = <(ColumnType, Value)>::read(alloc, bytes)?;
                Ok((Kind::Required { column, fallback }, rest))
            }
            _ => Err(CodeFault::Malformed),
        }
    }
}

impl Encoded for NewElement {
    ghost code = { fresh_code };

    ghost at = { fresh_at };

    ghost known = { IsFresh IsValue };

    fn push(&self, out: &mut Vec<u8>) -> Result<(), AllocError> {
        self.table.push(out)?;
        self.name.push(out)?;
        self.kind.push(out)
    }

    #[tactic(auto, unfolding(crate::specs::inner::At::fresh_at))]
    fn read(alloc: Global, bytes: &[u8]) -> Result<(NewElement, &[u8]), CodeFault> {
        let ((table, (name, kind)), rest) = <(u32, (Text, Kind))>::read(alloc, bytes)?;
        Ok((NewElement { table, name, kind }, rest))
    }
}

impl Encoded for Move {
    ghost code = { move_code };

    ghost at = { move_at };

    ghost known = { IsMove IsValue };

    fn push(&self, out: &mut Vec<u8>) -> Result<(), AllocError> {
        match self {
            Move::Enter { fresh, to } => {
                out.push(0)?;
                fresh.push(out)?;
                to.push(out)
            }
            Move::Go { element, to } => {
                out.push(1)?;
                element.push(out)?;
                to.push(out)
            }
            Move::Turn { element } => {
                out.push(2)?;
                element.push(out)
            }
        }
    }

    #[tactic(auto, unfolding(crate::specs::inner::At::move_at))]
    fn read(alloc: Global, bytes: &[u8]) -> Result<(Move, &[u8]), CodeFault> {
        let (tag, bytes) = read_byte(bytes)?;
        match tag {
            0 => {
                let ((fresh, to), rest) = <(NewElement, ElementState)>::read(alloc, bytes)?;
                Ok((Move::Enter { fresh, to }, rest))
            }
            1 => {
                let ((element, to), rest) = <(u32, ElementState)>::read(alloc, bytes)?;
                Ok((Move::Go { element, to }, rest))
            }
            2 => {
                let (element, rest) = u32::read(alloc, bytes)?;
                Ok((Move::Turn { element }, rest))
            }
            _ => Err(CodeFault::Malformed),
        }
    }
}
