//! The codes of byte strings and names: how many bytes, and the bytes.
ghost use Rattle.std.specs.Prelude.{◌≡◌, ◌++◌, OnOk};
ghost use Rattle.collections.specs.Answers.{GivesOr};
ghost use Rattle.entry_code.specs.declared.fault.CodeFault.TheVariants.{Memory};
ghost use Rattle.entry_code.specs.Code.{bytes_code};
ghost use Rattle.entry_code.specs.Known.{IsByteString, IsText};
ghost use Rattle.entry_code.specs.inner.At.{bytes_at, text_at, prefix_at};

use crate::encoded::Encoded;
use crate::fault::CodeFault;
use byte_map::Bytes;
use keycode::Text;
use std::alloc::{AllocError, Global};

#[tactic(auto, unfolding(crate::specs::Code::bytes_code))]
fn push_bytes(out: &mut Vec<u8>, bytes: &[u8]) -> Result<(), AllocError>
    ensures code { OnOk result (out.new.items ≡ out.old.items ++ bytes_code bytes.now) }
    ensures known { OnOk result (IsByteString bytes.now) }
{
    (bytes.len() as u64).push(out)?;
    out.extend_from_slice(bytes)
}

/// The first `len` bytes, and the bytes after them.
#[tactic(auto, unfolding(crate::specs::inner::At::prefix_at))]
fn read_prefix(bytes: &[u8], len: u64) -> Result<(&[u8], &[u8]), CodeFault>
    ensures { GivesOr Memory (λ x. (x.0.now, x.1.now)) result (prefix_at len bytes.now) }
{
    if (bytes.len() as u64) < len {
        return Err(CodeFault::Malformed);
    }
    Ok(bytes.split_at(len as usize))
}

/// As many bytes as the number before them says, and the bytes after them.
#[tactic(auto, unfolding(crate::specs::inner::At::bytes_at))]
fn read_bytes(alloc: Global, bytes: &[u8]) -> Result<(&[u8], &[u8]), CodeFault>
    ensures { GivesOr Memory (λ x. (x.0.now, x.1.now)) result (bytes_at bytes.now) }
{
    let (len, rest) = u64::read(alloc, bytes)?;
    read_prefix(rest, len)
}

impl Encoded for Bytes {
    ghost code = { bytes_code };

    ghost at = { bytes_at };

    ghost known = { IsByteString };

    fn push(&self, out: &mut Vec<u8>) -> Result<(), AllocError> {
        push_bytes(out, self.as_slice())
    }

    fn read(alloc: Global, bytes: &[u8]) -> Result<(Bytes, &[u8]), CodeFault> {
        let (content, rest) = read_bytes(alloc, bytes)?;
        Ok((Bytes::from_slice(alloc, content)?, rest))
    }
}

impl Encoded for Text {
    ghost code = { bytes_code };

    ghost at = { text_at };

    ghost known = { IsText };

    fn push(&self, out: &mut Vec<u8>) -> Result<(), AllocError> {
        push_bytes(out, self.as_bytes())
    }

    #[tactic(auto, unfolding(crate::specs::inner::At::text_at))]
    fn read(alloc: Global, bytes: &[u8]) -> Result<(Text, &[u8]), CodeFault> {
        let (content, rest) = read_bytes(alloc, bytes)?;
        let mut copy = Vec::with_capacity(alloc, content.len())?;
        copy.extend_from_slice(content)?;
        match Text::from_utf8(copy) {
            Some(text) => Ok((text, rest)),
            None => Err(CodeFault::Malformed),
        }
    }
}
