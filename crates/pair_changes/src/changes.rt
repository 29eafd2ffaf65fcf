//! The pairs that differ between two stores.
ghost use Rattle.std.specs.Prelude.{◌≡◌, ◌++◌, [], IfOk, OnOk, MatchOption, option_map};
ghost use Rattle.pair_changes.specs.Changes.{AreChanges};
ghost use Rattle.pair_changes.specs.inner.Differ.{change_of, is_change};
ghost use Rattle.pair_changes.specs.inner.Walked.{IsStep, IsEnd};

use crate::ahead::Ahead;
use byte_map::Bytes;
use byte_map::words::{compare, is_same};
use collections::List;
use row_map::PairView;
use std::alloc::{AllocError, Global};
use std::cmp::Ordering;

/// A pair that differs between two stores.
pub struct PairChange {
    /// The key of the pair.
    pub key: Bytes,
    /// The value that it had; none, if there was no pair.
    pub before: Option<Bytes>,
    /// The value that it has; none, if there is no pair.
    pub after: Option<Bytes>,
}

// By hand, so that a caller's proof sees one call and not each field's.
impl Drop for PairChange {
    fn drop(self) {
        let PairChange {
            key: _,
            before: _,
            after: _,
        } = self;
    }
}

/// A key at which one of two stores has a pair, or both, with what they have there.
#[derive(Clone, Copy)]
pub(crate) struct Found<'a> {
    /// The key.
    key: &'a [u8],
    /// The value before.
    before: Option<&'a [u8]>,
    /// The value after.
    after: Option<&'a [u8]>,
}

// Whether what was found is a change.
fn is_change(found: Found<'_>) -> bool
    ensures { result ≡ is_change found.entry }
{
    match (found.before, found.after) {
        (Some(before), Some(after)) => !is_same(before, after),
        (None, None) => false,
        _ => true,
    }
}

// A value, if there is one, as one that a change keeps.
fn copy_of(alloc: Global, value: Option<&[u8]>) -> Result<Option<Bytes>, AllocError>
    ensures { IfOk result (λ copy. copy ≡ option_map (λ v. v.now) value.entry) }
{
    match value {
        Some(value) => Ok(Some(Bytes::from_slice(alloc, value)?)),
        None => Ok(None),
    }
}

// Adds what was found, if it is a change.
fn push_change(
    alloc: Global,
    changes: &mut List<PairChange>,
    found: Found<'_>,
) -> Result<(), AllocError>
    ensures { OnOk result (changes.new ≡ changes.old ++ change_of found.entry) }
{
    if !is_change(found) {
        return Ok(());
    }
    let key = Bytes::from_slice(alloc, found.key)?;
    let before = copy_of(alloc, found.before)?;
    let after = copy_of(alloc, found.after)?;
    changes.push(PairChange { key, before, after })?;
    Ok(())
}

// The lesser of the next keys of both, or the next key of the one that has one, with what both have
// there. It is passed.
fn next_found<'a>(before: &mut Ahead<'a>, after: &mut Ahead<'a>) -> Option<Found<'a>>
    ensures { MatchOption result (IsEnd before.old after.old) (λ found. IsStep before.old after.old found before.new after.new) }
{
    match (before.first(), after.first()) {
        (None, None) => None,
        (Some((key, value)), None) => {
            before.skip();
            Some(Found {
                key,
                before: Some(value),
                after: None,
            })
        }
        (None, Some((key, value))) => {
            after.skip();
            Some(Found {
                key,
                before: None,
                after: Some(value),
            })
        }
        (Some((key, old)), Some((other, new))) => match compare(key, other) {
            Ordering::Less => {
                before.skip();
                Some(Found {
                    key,
                    before: Some(old),
                    after: None,
                })
            }
            Ordering::Greater => {
                after.skip();
                Some(Found {
                    key: other,
                    before: None,
                    after: Some(new),
                })
            }
            Ordering::Equal => {
                before.skip();
                after.skip();
                Some(Found {
                    key,
                    before: Some(old),
                    after: Some(new),
                })
            }
        },
    }
}

/// The pairs that differ between two stores, by rising key: exactly the keys at which the two differ,
/// each with the value that was and the value that is. A pair that one of them lacks has no value
/// there.
///
/// - `before`: the pairs before.
/// - `after`: the pairs after.
///
/// Refused only when out of memory. It takes time with all pairs of both, and memory with those that
/// differ.
pub fn changes_between<'a, A: PairView, B: PairView>(
    alloc: Global,
    before: &'a A,
    after: &'a B,
) -> Result<List<PairChange>, AllocError>
    ensures { IfOk result (λ changes. AreChanges (A.pairs before.now) (B.pairs after.now) changes) }
{
    let mut old = Ahead::new(before.walk());
    let mut new = Ahead::new(after.walk());
    let mut changes = List::new(Vec::new(alloc));
    while let Some(found) = next_found(&mut old, &mut new) {
        push_change(alloc, &mut changes, found)?;
    }
    Ok(changes)
}
