//! Whole codes: the version, a value, and nothing more.
ghost use Rattle.std.specs.Prelude.{◌≡◌, IfOk, IfErr, OnOk};
ghost use Rattle.collections.specs.Answers.{GivesOr};
ghost use Rattle.entry_code.specs.declared.fault.CodeFault.TheVariants.{Memory};
ghost use Rattle.entry_code.specs.Code.{versioned};
ghost use Rattle.entry_code.specs.Read.{HasVersion};
ghost use Rattle.entry_code.specs.inner.At.{whole_at};

use crate::encoded::Encoded;
use crate::fault::CodeFault;
use std::alloc::{AllocError, Global};

/// The room that a code begins with, in bytes: that of most entries. It shows in the speed alone.
const ROOM: usize = 128;

/// The version of the code and the code of a value. Refused only when out of memory.
pub(crate) fn encode<T: Encoded>(alloc: Global, value: &T) -> Result<Vec<u8>, AllocError>
    ensures code { IfOk result (λ bytes. bytes.items ≡ versioned T.code value.now) }
    ensures known { OnOk result (T.known value.now) }
{
    encode_within(alloc, value, ROOM)
}

/// The same, which begins with room for so many bytes.
pub(crate) fn encode_within<T: Encoded>(
    alloc: Global,
    value: &T,
    room: usize,
) -> Result<Vec<u8>, AllocError>
    ensures code { IfOk result (λ bytes. bytes.items ≡ versioned T.code value.now) }
    ensures known { OnOk result (T.known value.now) }
{
    let mut out = Vec::with_capacity(alloc, room)?;
    out.push(1)?;
    value.push(&mut out)?;
    Ok(out)
}

/// The value whose code these bytes are, with the version before it.
#[tactic(auto, unfolding(crate::specs::inner::At::whole_at))]
pub(crate) fn decode<T: Encoded + Drop>(alloc: Global, bytes: &[u8]) -> Result<T, CodeFault>
    ensures exact { GivesOr Memory (λ x. x) result (whole_at T.at bytes.now) }
    ensures versioned { IfErr result (λ fault. fault ≡ Memory → HasVersion bytes.now) }
{
    let [1, rest @ ..] = bytes else {
        return Err(CodeFault::Version);
    };
    match T::read(alloc, rest) {
        Ok((value, [])) => Ok(value),
        Ok((_, [_, ..])) => Err(CodeFault::Trailing),
        Err(CodeFault::Memory) => Err(CodeFault::Memory),
        Err(_) => Err(CodeFault::Malformed),
    }
}
