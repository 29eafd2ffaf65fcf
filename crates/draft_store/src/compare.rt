//! What a draft compares, against the pairs of the store.
ghost use Rattle.std.specs.Prelude.{◌≡◌, IfOk, option_map};
ghost use Rattle.draft_store.specs.Apply.{AnyIn, MissesPoint, MissesRange, Misses};
ghost use Rattle.draft_store.specs.inner.Least.{IsLeastOf, is_same_value, lesser as lesser_of};

use crate::copies::expect_range;
use crate::store::MemoryStore;
use byte_map::{Bytes, words};
use entry_code::{DraftParts, RangeParts};
use row_map::{Batch, PairView, Write};
use std::alloc::{AllocError, Global};
use txn_store::SetFault;

fn is_same(found: Option<&[u8]>, wanted: &Option<Bytes>) -> bool
    ensures { result ≡ is_same_value (option_map (λ v. v.now) found.entry) wanted.now }
{
    match found {
        None => wanted.is_none(),
        Some(value) => match wanted {
            None => false,
            Some(wanted) => words::is_same(value, wanted.as_slice()),
        },
    }
}

fn lesser(one: Option<Bytes>, other: Option<Bytes>) -> Option<Bytes>
    ensures { result ≡ lesser_of one other }
{
    match (one, other) {
        (None, other) => other,
        (Some(one), None) => Some(one),
        (Some(one), Some(other)) => {
            if one.compare(other.as_slice()).is_le() {
                Some(one)
            } else {
                Some(other)
            }
        }
    }
}

impl MemoryStore {
    /// The point's key, if its pair is another.
    fn missed_point(&self, point: &Write) -> Result<Option<Bytes>, AllocError>
        ensures { IfOk result (IsLeastOf (λ key. MissesPoint self.now key point.now)) }
    {
        if is_same(self.pairs.get(point.0.as_slice()), &point.1) {
            return Ok(None);
        }
        Ok(Some(point.0.clone()?))
    }

    /// The least key in the range whose pair is another.
    fn missed_in(&mut self, alloc: Global, part: &RangeParts) -> Result<Option<Bytes>, AllocError>
        ensures kept { self.new ≡ self.old }
        ensures least { IfOk result (IsLeastOf (λ key. MissesRange self.old key part.now)) }
    {
        let expect = expect_range(alloc, part)?;
        match self.pairs.test_and_set(alloc, &expect, &Batch::new(alloc)) {
            Ok(()) => Ok(None),
            Err(SetFault::Conflict { key }) => Ok(Some(key)),
            Err(SetFault::Memory) => Err(AllocError),
        }
    }

    fn least_point(&self, points: &[Write]) -> Result<Option<Bytes>, AllocError>
        ensures { IfOk result (IsLeastOf (λ key. AnyIn (MissesPoint self.now key) points.now)) }
    {
        let mut least = None;
        for point in points {
            least = lesser(least, self.missed_point(point)?);
        }
        Ok(least)
    }

    fn least_in(
        &mut self,
        alloc: Global,
        ranges: &[RangeParts],
    ) -> Result<Option<Bytes>, AllocError>
        ensures kept { self.new ≡ self.old }
        ensures least { IfOk result (IsLeastOf (λ key. AnyIn (MissesRange self.old key) ranges.now)) }
    {
        let mut least = None;
        for part in ranges {
            least = lesser(least, self.missed_in(alloc, part)?);
        }
        Ok(least)
    }

    /// The least key whose pair is another than one that the draft compares.
    pub(crate) fn least_missed(
        &mut self,
        alloc: Global,
        parts: &DraftParts,
    ) -> Result<Option<Bytes>, AllocError>
        ensures kept { self.new ≡ self.old }
        ensures least { IfOk result (IsLeastOf (Misses parts.now self.old)) }
    {
        let points = parts.compare.as_slice();
        let in_points = self.least_point(points)?;
        let ranges = parts.ranges.as_slice();
        let in_ranges = self.least_in(alloc, ranges)?;
        Ok(lesser(in_points, in_ranges))
    }
}
