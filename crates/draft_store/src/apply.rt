//! A draft that is applied, or refused.
ghost use Rattle.std.specs.Prelude.{◌≡◌, OnOk, OnErr};
ghost use Rattle.draft_store.specs.Apply.{after, Does, Applies};

use crate::copies::{batch_of, expect_nothing};
use crate::fault::{ApplyFault, to_fault};
use crate::store::MemoryStore;
use entry_code::{DraftParts, draft_parts_of};
use std::alloc::{AllocError, Global};
use txn_store::SetFault;

impl MemoryStore {
    /// Makes the writes of a draft, or none of them.
    fn write(&mut self, alloc: Global, parts: &DraftParts) -> Result<(), AllocError>
        ensures ok { OnOk result (self.new ≡ after parts.now self.old) }
        ensures err { OnErr result (self.new ≡ self.old) }
    {
        let batch = batch_of(alloc, parts.write.as_slice())?;
        match self
            .pairs
            .test_and_set(alloc, &expect_nothing(alloc), &batch)
        {
            Ok(()) => Ok(()),
            // Where nothing is expected, nothing conflicts.
            Err(SetFault::Conflict { .. } | SetFault::Memory) => Err(AllocError),
        }
    }

    fn apply_parts(&mut self, alloc: Global, parts: &DraftParts) -> Result<(), ApplyFault>
        ensures { Does parts.now self.old result self.new }
    {
        if let Some(key) = self.least_missed(alloc, parts)? {
            return Err(ApplyFault::Refused { key });
        }
        self.write(alloc, parts)?;
        Ok(())
    }

    /// Applies a draft: if each point and each range that it compares is as it says, makes its writes
    /// one after the other, and else none.
    ///
    /// - `draft`: its code, as `record_code` and `entry_code` write it.
    ///
    /// Refused in the order of `ApplyFault`; the store is then unchanged. It takes time and memory in
    /// proportion to the code's length, and time for the pairs that lie in its ranges.
    pub fn apply(&mut self, alloc: Global, draft: &[u8]) -> Result<(), ApplyFault>
        ensures { Applies draft.now self.old result self.new }
    {
        match draft_parts_of(alloc, draft) {
            Ok(parts) => self.apply_parts(alloc, &parts),
            Err(fault) => Err(to_fault(fault)),
        }
    }
}
