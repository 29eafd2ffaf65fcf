//! The codes of operations.
ghost use Rattle.std.specs.Prelude.{◌≡◌, ◌++◌, OnOk};
ghost use Rattle.keycode.specs.Valid.{IsValue};
ghost use Rattle.entry_code.specs.Code.{u32_code, key_code, cells_code, op_code};
ghost use Rattle.entry_code.specs.Known.{IsU32, IsPair, IsList, IsOp};
ghost use Rattle.entry_code.specs.inner.At.{op_at};

use crate::encoded::Encoded;
use crate::fault::CodeFault;
use crate::numbers::read_byte;
use collections::List;
use keycode::{Value, Values};
use row_write::RowOp;
use std::alloc::{AllocError, Global};

type Cells = List<(u32, Value)>;

fn push_row(out: &mut Vec<u8>, table: u32, key: &Values, cells: &Cells) -> Result<(), AllocError>
    ensures code { OnOk result (out.new.items ≡ out.old.items ++ (u32_code table ++ (key_code key.now ++ cells_code cells.now))) }
    ensures known { OnOk result (IsU32 table × (IsList IsValue key.now × IsList (IsPair IsU32 IsValue) cells.now)) }
{
    table.push(out)?;
    key.push(out)?;
    cells.push(out)
}

impl Encoded for RowOp {
    ghost code = { op_code };

    ghost at = { op_at };

    ghost known = { IsOp IsValue };

    fn push(&self, out: &mut Vec<u8>) -> Result<(), AllocError> {
        match self {
            RowOp::Insert { table, key, cells } => {
                out.push(0)?;
                push_row(out, *table, key, cells)
            }
            RowOp::Update { table, key, cells } => {
                out.push(1)?;
                push_row(out, *table, key, cells)
            }
            RowOp::Delete { table, key } => {
                out.push(2)?;
                table.push(out)?;
                key.push(out)
            }
        }
    }

    #[tactic(auto, unfolding(crate::specs::inner::At::op_at))]
    fn read(alloc: Global, bytes: &[u8]) -> Result<(RowOp, &[u8]), CodeFault> {
        let (tag, bytes) = read_byte(bytes)?;
        match tag {
            0 => {
                let ((table, (key, cells)), rest) = <(u32, (Values, Cells))>::read(alloc, bytes)?;
                Ok((RowOp::Insert { table, key, cells }, rest))
            }
            1 => {
                let ((table, (key, cells)), rest) = <(u32, (Values, Cells))>::read(alloc, bytes)?;
                Ok((RowOp::Update { table, key, cells }, rest))
            }
            2 => {
                let ((table, key), rest) = <(u32, Values)>::read(alloc, bytes)?;
                Ok((RowOp::Delete { table, key }, rest))
            }
            _ => Err(CodeFault::Malformed),
        }
    }
}
