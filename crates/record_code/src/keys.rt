//! Keys of control records as bytes, and back.
ghost use Rattle.std.specs.List.{AllByRecursion, flat_map};
ghost use Rattle.std.specs.Prelude.{◌≡◌, ◌≢◌, ℕ, ◌<◌, ◌^◌, ◌∷◌, IfOk, OnOk, MatchOption};
ghost use Rattle.drafts.specs.Store.{version_key};
ghost use Rattle.record_code.specs.Keys.{number_code, key_code, IsNumber, HasKey, IsKeyRead};

use crate::fault::NoKey;
use byte_map::Bytes;
use drafts::{Key, KeyName};
use std::alloc::{AllocError, Global};

/// A kind, and numbers.
#[tactic(auto, unfolding(crate::specs::Keys::number_code))]
fn with_numbers(alloc: Global, kind: u8, numbers: &[u64]) -> Result<Vec<u8>, AllocError>
    ensures code { IfOk result (λ bytes. bytes.items ≡ kind ∷ flat_map number_code numbers.now) }
    ensures known { OnOk result (AllByRecursion IsNumber numbers.now) }
{
    // a kind, and two numbers at most
    let mut out = Vec::with_capacity(alloc, 17)?;
    out.push(kind)?;
    for number in numbers {
        out.extend_from_slice(&number.to_be_bytes())?;
    }
    Ok(out)
}

/// The key of the version of this number.
#[tactic(auto, unfolding(crate::specs::Keys::number_code))]
pub(crate) fn version_key_bytes(number: u64) -> [u8; 9]
    ensures { result ≡ key_code (version_key number) }
{
    let b = number.to_be_bytes();
    [0, b[0], b[1], b[2], b[3], b[4], b[5], b[6], b[7]]
}

/// The kind of a mark, and its name.
pub(crate) fn with_name(alloc: Global, name: &[u8]) -> Result<Vec<u8>, AllocError>
    ensures { IfOk result (λ bytes. bytes.items ≡ 3 ∷ name.now) }
{
    let mut out = Vec::with_capacity(alloc, name.len().saturating_add(1))?;
    out.push(3)?;
    out.extend_from_slice(name)?;
    Ok(out)
}

/// The key of a control record in a store of bytes: a byte 0 for a version, 1 for a reorganisation, 2
/// for a cursor and 3 for a mark; then the version's number, the element's, or the element's and the
/// piece's, each in eight bytes with the highest first, or the mark's name as it is.
///
/// Refused only when out of memory.
pub fn key_bytes(alloc: Global, key: &Key) -> Result<Vec<u8>, AllocError>
    ensures code { IfOk result (λ bytes. bytes.items ≡ key_code key.now) }
    ensures known { OnOk result (HasKey key.now) }
{
    match key.name() {
        KeyName::Version(number) => with_numbers(alloc, 0, &[*number]),
        KeyName::Reorg(element) => with_numbers(alloc, 1, &[u64::from(*element)]),
        KeyName::Cursor { element, piece } => {
            with_numbers(alloc, 2, &[u64::from(*element), *piece])
        }
        KeyName::Mark(name) => with_name(alloc, name.as_slice()),
    }
}

/// The number whose eight bytes these are.
#[tactic(auto, unfolding(crate::specs::Keys::number_code))]
fn number_from(bytes: &[u8]) -> Option<u64>
    ensures { MatchOption result ((number : ℕ) → bytes.now ≢ number_code number) (λ number. IsNumber number × (bytes.now ≡ number_code number)) }
{
    let [a, b, c, d, e, f, g, h] = bytes else {
        return None;
    };
    Some(u64::from_be_bytes([*a, *b, *c, *d, *e, *f, *g, *h]))
}

/// The number of an element whose eight bytes these are.
fn element_from(bytes: &[u8]) -> Option<u32>
    ensures { MatchOption result ((element : ℕ) → element < 2 ^ 32 → bytes.now ≢ number_code element) (λ element. bytes.now ≡ number_code element) }
{
    let number = number_from(bytes)?;
    if number > u64::from(u32::MAX) {
        return None;
    }
    Some(number as u32)
}

fn version_key_from(rest: &[u8]) -> Result<Key, NoKey>
    ensures { IsKeyRead (0 ∷ rest.now) result }
{
    match number_from(rest) {
        Some(number) => Ok(Key::version(number)),
        None => Err(NoKey::Malformed),
    }
}

fn reorg_key_from(rest: &[u8]) -> Result<Key, NoKey>
    ensures { IsKeyRead (1 ∷ rest.now) result }
{
    match element_from(rest) {
        Some(element) => Ok(Key::reorg(element)),
        None => Err(NoKey::Malformed),
    }
}

fn cursor_key_from(rest: &[u8]) -> Result<Key, NoKey>
    ensures { IsKeyRead (2 ∷ rest.now) result }
{
    if rest.len() < 8 {
        return Err(NoKey::Malformed);
    }
    let (first, second) = rest.split_at(8);
    match element_from(first) {
        None => Err(NoKey::Malformed),
        Some(element) => match number_from(second) {
            None => Err(NoKey::Malformed),
            Some(piece) => Ok(Key::cursor(element, piece)),
        },
    }
}

fn mark_key_from(alloc: Global, name: &[u8]) -> Result<Key, NoKey>
    ensures { IsKeyRead (3 ∷ name.now) result }
{
    Ok(Key::mark(Bytes::from_slice(alloc, name)?))
}

/// The key whose bytes these are. `Malformed` comes if and only if no key has them; else it is
/// refused only when out of memory.
pub fn key_of(alloc: Global, bytes: &[u8]) -> Result<Key, NoKey>
    ensures { IsKeyRead bytes.now result }
{
    match bytes {
        [0, rest @ ..] => version_key_from(rest),
        [1, rest @ ..] => reorg_key_from(rest),
        [2, rest @ ..] => cursor_key_from(rest),
        [3, name @ ..] => mark_key_from(alloc, name),
        _ => Err(NoKey::Malformed),
    }
}
