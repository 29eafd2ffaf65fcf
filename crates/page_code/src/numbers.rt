//! Reading numbers, the highest byte first.
// `entry_code` reads them the same, by private functions.
ghost use Rattle.std.specs.Prelude.{◌≡◌};
ghost use Rattle.collections.specs.Answers.{GivesOr};
ghost use Rattle.entry_code.specs.declared.fault.CodeFault.TheVariants.{Memory};
ghost use Rattle.entry_code.specs.inner.At.{u32_at, u64_at, byte_at};

use entry_code::CodeFault;

/// The first byte, and the bytes after it.
#[tactic(auto, unfolding(entry_code::specs::inner::At::byte_at))]
pub(crate) fn read_byte(bytes: &[u8]) -> Result<(u8, &[u8]), CodeFault>
    ensures { GivesOr Memory (λ x. (x.0, x.1.now)) result (byte_at bytes.now) }
{
    match bytes {
        [] => Err(CodeFault::Malformed),
        [byte, rest @ ..] => Ok((*byte, rest)),
    }
}

/// A number of 32 bits, and the bytes after it.
#[tactic(auto, unfolding(entry_code::specs::inner::At::u32_at))]
pub(crate) fn read_u32(bytes: &[u8]) -> Result<(u32, &[u8]), CodeFault>
    ensures { GivesOr Memory (λ x. (x.0, x.1.now)) result (u32_at bytes.now) }
{
    if bytes.len() < 4 {
        return Err(CodeFault::Malformed);
    }
    let (prefix, rest) = bytes.split_at(4);
    let number = u32::from_be_bytes([prefix[0], prefix[1], prefix[2], prefix[3]]);
    Ok((number, rest))
}

/// A number of 64 bits, and the bytes after it.
#[tactic(auto, unfolding(entry_code::specs::inner::At::u64_at))]
pub(crate) fn read_u64(bytes: &[u8]) -> Result<(u64, &[u8]), CodeFault>
    ensures { GivesOr Memory (λ x. (x.0, x.1.now)) result (u64_at bytes.now) }
{
    if bytes.len() < 8 {
        return Err(CodeFault::Malformed);
    }
    let (prefix, rest) = bytes.split_at(8);
    let number = u64::from_be_bytes([
        prefix[0], prefix[1], prefix[2], prefix[3], prefix[4], prefix[5], prefix[6], prefix[7],
    ]);
    Ok((number, rest))
}
