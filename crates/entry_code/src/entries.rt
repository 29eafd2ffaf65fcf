//! The codes of leases and of entries of a log.
ghost use Rattle.keycode.specs.Valid.{IsValue};
ghost use Rattle.entry_code.specs.Code.{lease_code, what_code, body_code};
ghost use Rattle.entry_code.specs.Known.{IsLease, IsWhat, IsEntry};
ghost use Rattle.entry_code.specs.inner.At.{lease_at, what_at, entry_at};

use crate::encoded::Encoded;
use crate::fault::CodeFault;
use crate::numbers::read_byte;
use byte_map::Bytes;
use collections::ArcValue;
use lease::Lease;
use replay::{Entry, What};
use row_write::RowOps;
use schema_version::Step;
use std::alloc::{AllocError, Global};

impl<T: Encoded + Drop> Encoded for ArcValue<T> {
    ghost code = { T.code };

    ghost at = { T.at };

    ghost known = { T.known };

    fn push(&self, out: &mut Vec<u8>) -> Result<(), AllocError> {
        self.get().push(out)
    }

    fn read(alloc: Global, bytes: &[u8]) -> Result<(ArcValue<T>, &[u8]), CodeFault> {
        let (value, rest) = T::read(alloc, bytes)?;
        Ok((ArcValue::new(alloc, value)?, rest))
    }
}

impl Encoded for Lease {
    ghost code = { lease_code };

    ghost at = { lease_at };

    ghost known = { IsLease };

    fn push(&self, out: &mut Vec<u8>) -> Result<(), AllocError> {
        self.version.push(out)?;
        self.granted.push(out)?;
        self.until.push(out)
    }

    #[tactic(auto, unfolding(crate::specs::inner::At::lease_at))]
    fn read(alloc: Global, bytes: &[u8]) -> Result<(Lease, &[u8]), CodeFault> {
        let ((version, (granted, until)), rest) = <(u64, (u64, u64))>::read(alloc, bytes)?;
        Ok((
            Lease {
                version,
                granted,
                until,
            },
            rest,
        ))
    }
}

impl Encoded for What {
    ghost code = { what_code };

    ghost at = { what_at };

    ghost known = { IsWhat IsValue };

    fn push(&self, out: &mut Vec<u8>) -> Result<(), AllocError> {
        match self {
            What::Lease(lease) => {
                out.push(0)?;
                lease.push(out)
            }
            What::Txn(lease, ops) => {
                out.push(1)?;
                lease.push(out)?;
                ops.push(out)
            }
            What::Publish(step) => {
                out.push(2)?;
                step.push(out)
            }
            What::Begin { element, pieces } => {
                out.push(3)?;
                element.push(out)?;
                pieces.push(out)
            }
            What::Piece {
                element,
                piece,
                cursor,
            } => {
                out.push(4)?;
                element.push(out)?;
                piece.push(out)?;
                cursor.push(out)
            }
        }
    }

    #[tactic(auto, unfolding(crate::specs::inner::At::what_at))]
    fn read(alloc: Global, bytes: &[u8]) -> Result<(What, &[u8]), CodeFault> {
        let (tag, bytes) = read_byte(bytes)?;
        match tag {
            0 => {
                let (lease, rest) = Lease::read(alloc, bytes)?;
                Ok((What::Lease(lease), rest))
            }
            1 => {
                let ((lease, ops), rest) = <(Lease, ArcValue<RowOps>)>::read(alloc, bytes)?;
                Ok((What::Txn(lease, ops), rest))
            }
            2 => {
                let (step, rest) = Step::read(alloc, bytes)?;
                Ok((What::Publish(step), rest))
            }
            3 => {
                let ((element, pieces), rest) = <(u32, u32)>::read(alloc, bytes)?;
                Ok((What::Begin { element, pieces }, rest))
            }
            4 => {
                let ((element, (piece, cursor)), rest) = <(u32, (u32, Bytes))>::read(alloc, bytes)?;
                Ok((
                    What::Piece {
                        element,
                        piece,
                        cursor,
                    },
                    rest,
                ))
            }
            _ => Err(CodeFault::Malformed),
        }
    }
}

impl Encoded for Entry {
    ghost code = { body_code };

    ghost at = { entry_at };

    ghost known = { IsEntry IsValue };

    fn push(&self, out: &mut Vec<u8>) -> Result<(), AllocError> {
        self.moment.push(out)?;
        self.what.push(out)
    }

    #[tactic(auto, unfolding(crate::specs::inner::At::entry_at))]
    fn read(alloc: Global, bytes: &[u8]) -> Result<(Entry, &[u8]), CodeFault> {
        let ((moment, what), rest) = <(u64, ArcValue<What>)>::read(alloc, bytes)?;
        Ok((Entry { moment, what }, rest))
    }
}
