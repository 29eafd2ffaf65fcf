//! The codes of numbers: their bytes, the highest first.
ghost use Rattle.std.specs.Prelude.{◌≡◌, ◌++◌, OnOk};
ghost use Rattle.collections.specs.Answers.{GivesOr};
ghost use Rattle.entry_code.specs.declared.fault.CodeFault.TheVariants.{Memory};
ghost use Rattle.entry_code.specs.Code.{u32_code, u64_code};
ghost use Rattle.entry_code.specs.Known.{IsU32, IsU64};
ghost use Rattle.entry_code.specs.inner.At.{u32_at, u64_at, byte_at};

use crate::encoded::Encoded;
use crate::fault::CodeFault;
use std::alloc::{AllocError, Global};

impl Encoded for u64 {
    ghost code = { u64_code };

    ghost at = { u64_at };

    ghost known = { IsU64 };

    #[tactic(auto, unfolding(crate::specs::Code::u64_code))]
    fn push(&self, out: &mut Vec<u8>) -> Result<(), AllocError> {
        out.extend_from_slice(&self.to_be_bytes())
    }

    #[tactic(auto, unfolding(crate::specs::inner::At::u64_at))]
    fn read(_alloc: Global, bytes: &[u8]) -> Result<(u64, &[u8]), CodeFault> {
        if bytes.len() < 8 {
            return Err(CodeFault::Malformed);
        }
        let (prefix, rest) = bytes.split_at(8);
        let number = u64::from_be_bytes([
            prefix[0], prefix[1], prefix[2], prefix[3], prefix[4], prefix[5], prefix[6], prefix[7],
        ]);
        Ok((number, rest))
    }
}

impl Encoded for u32 {
    ghost code = { u32_code };

    ghost at = { u32_at };

    ghost known = { IsU32 };

    #[tactic(auto, unfolding(crate::specs::Code::u32_code))]
    fn push(&self, out: &mut Vec<u8>) -> Result<(), AllocError> {
        out.extend_from_slice(&self.to_be_bytes())
    }

    #[tactic(auto, unfolding(crate::specs::inner::At::u32_at))]
    fn read(_alloc: Global, bytes: &[u8]) -> Result<(u32, &[u8]), CodeFault> {
        if bytes.len() < 4 {
            return Err(CodeFault::Malformed);
        }
        let (prefix, rest) = bytes.split_at(4);
        let number = u32::from_be_bytes([prefix[0], prefix[1], prefix[2], prefix[3]]);
        Ok((number, rest))
    }
}

/// The first byte, which tells a variant, and the bytes after it.
#[tactic(auto, unfolding(crate::specs::inner::At::byte_at))]
pub(crate) fn read_byte(bytes: &[u8]) -> Result<(u8, &[u8]), CodeFault>
    ensures { GivesOr Memory (λ x. (x.0, x.1.now)) result (byte_at bytes.now) }
{
    match bytes {
        [] => Err(CodeFault::Malformed),
        [byte, rest @ ..] => Ok((*byte, rest)),
    }
}
