//! Bytes after a marker, with a digest at their end.
ghost use Rattle.std.specs.Prelude.{◌≡◌, ◌↔◌, ◌++◌, IsTrue, OnOk};
ghost use Rattle.sha2.specs.Sha256.{sha256};
ghost use Rattle.digested_bytes.specs.Whole.{marker, EndsInDigest, HasContents};

use sha2::{Digest, Sha256};
use std::alloc::AllocError;

/// What bytes with a digest begin with: a byte above 127, `CAGZ`, a line's end, and a byte 26. So they
/// are taken neither for a text nor for the saved bytes of earlier releases, which have no digest.
const MARKER: [u8; 8] = [0x89, 0x43, 0x41, 0x47, 0x5A, 0x0D, 0x0A, 0x1A];

/// How many bytes a digest has.
const SIZE: usize = 32;

/// What bytes have beside their digest.
#[derive(Clone, Copy, Debug, Drop, PartialEq, Eq)]
pub enum Contents<'a> {
    /// They do not begin with the marker, so they have no digest.
    Plain,
    /// They are these bytes with their digest.
    Whole(&'a [u8]),
    /// They begin with the marker, and do not end in the digest of all before it.
    Damaged,
}

/// The marker.
pub fn marker() -> [u8; 8]
    ensures { result ≡ marker }
{
    MARKER
}

/// Adds SHA-256 of all these bytes at their end. Refused only when out of memory, and the bytes then
/// end in some of it.
pub fn add_digest(bytes: &mut Vec<u8>) -> Result<(), AllocError>
    ensures { OnOk result (EndsInDigest bytes.old.items bytes.new.items) }
{
    let digest = Sha256::digest(bytes.as_slice());
    bytes.extend_from_slice(&digest)
}

// Whether the digest of the marker and these bytes is this.
fn has_digest(inner: &[u8], digest: &[u8]) -> bool
    ensures { IsTrue result ↔ (sha256 (marker ++ inner.now) ≡ digest.now) }
{
    let mut hasher = Sha256::new();
    hasher.update(MARKER);
    hasher.update(inner);
    hasher.finalize().as_slice() == digest
}

/// What these bytes have beside their digest. It takes time in proportion to the bytes, and no memory.
pub fn contents_of(bytes: &[u8]) -> Contents<'_>
    ensures { HasContents bytes.now result }
{
    let Some(rest) = bytes.strip_prefix(&MARKER) else {
        return Contents::Plain;
    };
    if rest.len() < SIZE {
        return Contents::Damaged;
    }
    let (inner, digest) = rest.split_at(rest.len() - SIZE);
    if has_digest(inner, digest) {
        Contents::Whole(inner)
    } else {
        Contents::Damaged
    }
}
