//! Parts of bytes, one after another, each after its length.
ghost use Rattle.std.specs.Prelude.{◌≡◌, ◌++◌, ◌<◌, IfNone, IfSome, length, OnOk};
ghost use Rattle.entry_code.specs.Code.{bytes_code};
ghost use Rattle.entry_code.specs.Known.{IsByteString};
ghost use Rattle.saved_world.specs.Parts.{IsNumberAt, IsPartAt, HasNoPart};

use std::alloc::AllocError;

/// Adds a part. Refused only when out of memory; `out` then ends in some of it.
#[tactic(auto, unfolding(entry_code::specs::Code::bytes_code, entry_code::specs::Code::u64_code))]
pub(crate) fn push_part(out: &mut Vec<u8>, part: &[u8]) -> Result<(), AllocError>
    ensures code { OnOk result (out.new.items ≡ out.old.items ++ bytes_code part.now) }
    ensures known { OnOk result (IsByteString part.now) }
{
    out.extend_from_slice(&(part.len() as u64).to_be_bytes())?;
    out.extend_from_slice(part)
}

/// The number in the first eight bytes, and the bytes after them.
#[tactic(auto, unfolding(entry_code::specs::Code::u64_code))]
fn number_of(bytes: &[u8]) -> Option<(u64, &[u8])>
    ensures found { IfSome result (λ p. IsNumberAt bytes.now p.0 p.1.now) }
    ensures none { IfNone result (length bytes.now < 8) }
{
    if bytes.len() < 8 {
        return None;
    }
    let (prefix, rest) = bytes.split_at(8);
    let number = u64::from_be_bytes([
        prefix[0], prefix[1], prefix[2], prefix[3], prefix[4], prefix[5], prefix[6], prefix[7],
    ]);
    Some((number, rest))
}

/// The first part of these bytes, and the bytes after it; none if the bytes do not begin with a part.
pub(crate) fn part_of(bytes: &[u8]) -> Option<(&[u8], &[u8])>
    ensures found { IfSome result (λ p. IsPartAt bytes.now p.0.now p.1.now) }
    ensures none { IfNone result (HasNoPart bytes.now) }
{
    let Some((len, rest)) = number_of(bytes) else {
        return None;
    };
    if (rest.len() as u64) < len {
        return None;
    }
    Some(rest.split_at(len as usize))
}
