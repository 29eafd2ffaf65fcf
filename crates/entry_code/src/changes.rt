//! The codes of changes and of the steps of a plan.
ghost use Rattle.std.specs.Prelude.{◌≡◌, ◌++◌, OnOk};
ghost use Rattle.keycode.specs.Valid.{IsValue};
ghost use Rattle.entry_code.specs.Code.{named_code, change_code, reorg_code, plan_step_code};
ghost use Rattle.entry_code.specs.Known.{IsNamed, IsChange, IsReorg, IsPlanStep};
ghost use Rattle.entry_code.specs.inner.At.{change_at, reorg_at, plan_step_at};

use crate::encoded::Encoded;
use crate::fault::CodeFault;
use crate::numbers::read_byte;
use change_plan::{Change, PlanStep, Reorg};
use collections::List;
use keycode::Text;
use schema_version::{Kind, Step};
use std::alloc::{AllocError, Global};

fn push_named(out: &mut Vec<u8>, table: u32, name: &Text) -> Result<(), AllocError>
    ensures code { OnOk result (out.new.items ≡ out.old.items ++ named_code table name.now) }
    ensures known { OnOk result (IsNamed table name.now) }
{
    table.push(out)?;
    name.push(out)
}

/// The table, the name and the columns of a new index.
type IndexParts = (u32, (Text, List<Text>));

/// The table, the name and the kind of a new column.
type ColumnParts = (u32, (Text, Kind));

impl Encoded for Change {
    ghost code = { change_code };

    ghost at = { change_at };

    ghost known = { IsChange IsValue };

    fn push(&self, out: &mut Vec<u8>) -> Result<(), AllocError> {
        match self {
            Change::AddIndex {
                table,
                name,
                columns,
            } => {
                out.push(0)?;
                table.push(out)?;
                name.push(out)?;
                columns.push(out)
            }
            Change::DropIndex { table, name } => {
                out.push(1)?;
                push_named(out, *table, name)
            }
            Change::AddColumn { table, name, kind } => {
                out.push(2)?;
                table.push(out)?;
                name.push(out)?;
                kind.push(out)
            }
            Change::DropColumn { table, name } => {
                out.push(3)?;
                push_named(out, *table, name)
            }
            Change::Abandon { table, name } => {
                out.push(4)?;
                push_named(out, *table, name)
            }
        }
    }

    #[tactic(auto, unfolding(crate::specs::inner::At::change_at))]
    fn read(alloc: Global, bytes: &[u8]) -> Result<(Change, &[u8]), CodeFault> {
        let (tag, bytes) = read_byte(bytes)?;
        match tag {
            0 => {
                let ((table, (name, columns)), rest) = <IndexParts>::read(alloc, bytes)?;
                Ok((
                    Change::AddIndex {
                        table,
                        name,
                        columns,
                    },
                    rest,
                ))
            }
            1 => {
                let ((table, name), rest) = <(u32, Text)>::read(alloc, bytes)?;
                Ok((Change::DropIndex { table, name }, rest))
            }
            2 => {
                let ((table, (name, kind)), rest) = <ColumnParts>::read(alloc, bytes)?;
                Ok((Change::AddColumn { table, name, kind }, rest))
            }
            3 => {
                let ((table, name), rest) = <(u32, Text)>::read(alloc, bytes)?;
                Ok((Change::DropColumn { table, name }, rest))
            }
            4 => {
                let ((table, name), rest) = <(u32, Text)>::read(alloc, bytes)?;
                Ok((Change::Abandon { table, name }, rest))
            }
            _ => Err(CodeFault::Malformed),
        }
    }
}

impl Encoded for Reorg {
    ghost code = { reorg_code };

    ghost at = { reorg_at };

    ghost known = { IsReorg };

    fn push(&self, out: &mut Vec<u8>) -> Result<(), AllocError> {
        match self {
            Reorg::Fill(element) => {
                out.push(0)?;
                element.push(out)
            }
            Reorg::Clear(element) => {
                out.push(1)?;
                element.push(out)
            }
        }
    }

    #[tactic(auto, unfolding(crate::specs::inner::At::reorg_at))]
    fn read(alloc: Global, bytes: &[u8]) -> Result<(Reorg, &[u8]), CodeFault> {
        let (tag, bytes) = read_byte(bytes)?;
        match tag {
            0 => {
                let (element, rest) = u32::read(alloc, bytes)?;
                Ok((Reorg::Fill(element), rest))
            }
            1 => {
                let (element, rest) = u32::read(alloc, bytes)?;
                Ok((Reorg::Clear(element), rest))
            }
            _ => Err(CodeFault::Malformed),
        }
    }
}

impl Encoded for PlanStep {
    ghost code = { plan_step_code };

    ghost at = { plan_step_at };

    ghost known = { IsPlanStep IsValue };

    fn push(&self, out: &mut Vec<u8>) -> Result<(), AllocError> {
        self.before.push(out)?;
        self.step.push(out)
    }

    #[tactic(auto, unfolding(crate::specs::inner::At::plan_step_at))]
    fn read(alloc: Global, bytes: &[u8]) -> Result<(PlanStep, &[u8]), CodeFault> {
        let ((before, step), rest) = <(List<Reorg>, Step)>::read(alloc, bytes)?;
        Ok((PlanStep { before, step }, rest))
    }
}
