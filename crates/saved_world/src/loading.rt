//! A checkpoint read from bytes, part by part.
ghost use Rattle.std.specs.Prelude.{◌≡◌, [], IfErr, IfOk, OnErr, OnOk};
ghost use Rattle.std.specs.FinMap as map;
ghost use Rattle.byte_map.specs.Sorted.{IsSorted};
ghost use Rattle.collections.specs.Refusal.{IsRefusal};
ghost use Rattle.checkpoint.specs.Sound.{IsSound};
ghost use Rattle.checkpoint_check.specs.Refusals.{Condition, rank};
ghost use Rattle.checkpoint_check.specs.declared.fault.CheckpointFault.TheVariants.{Memory as OutOfMemory};
ghost use Rattle.checkpoint_code.specs.Head.{IsHeadRead, IsHeadAccepted};
ghost use Rattle.saved_world.specs.Follows.{follows as follows_of, last_key};
ghost use Rattle.saved_world.specs.Loading.{checkpoint_in, read_head, IsAdded, IsAddAccepted};
ghost use Rattle.saved_world.specs.inner.Adds.{AreAdded, WhyNotAdded};

use crate::fault::LoadFault;
use crate::store::put_all;
use byte_map::Bytes;
use checkpoint_code::{Head, HeadFault, head_of, page_of};
use std::alloc::{AllocError, Global};
use std::marker::Model;
use txn_store::Store;
use world::{Checkpoint, CheckpointFault, CheckpointParts};

/// What has been read of a checkpoint so far: its head, and pairs by rising keys.
pub struct Loading {
    head: Head,
    store: Store,
    /// The greatest key of the store.
    last: Option<Bytes>,
}

// By hand, so that a caller's proof sees one call and not each field's.
impl Drop for Loading {
    fn drop(self) {
        let Loading {
            head: _,
            store: _,
            last: _,
        } = self;
    }
}

impl Model for Loading {
    ghost use Rattle.saved_world.specs.Loading.{Loaded};
    ghost use Rattle.saved_world.specs.LoadedCode.{loaded_code};

    ghost Value = { Loaded };

    ghost coded = { loaded_code };

    ghost use Rattle.saved_world.specs.Inside.{loaded_of, IsAtLast};

    ghost view = { loaded_of };

    ghost invariant = { IsAtLast };
}

// Whether the first key of a page is above the last one so far.
fn follows(last: &Option<Bytes>, page: &[(Bytes, Bytes)]) -> bool
    ensures { result ≡ follows_of last.now page.now }
{
    match (last, page) {
        (Some(last), [(key, _), ..]) => last.compare(key.as_slice()).is_lt(),
        _ => true,
    }
}

// The last key of a page.
fn last_of(page: &[(Bytes, Bytes)]) -> Result<Option<Bytes>, AllocError>
    ensures { IfOk result (λ last. last ≡ last_key page.now) }
{
    match page {
        [] => Ok(None),
        [.., (key, _)] => Ok(Some(key.clone()?)),
    }
}

// Puts a page's pairs into a store whose last key is this one.
fn add_pairs(
    alloc: Global,
    store: &mut Store,
    last: &mut Option<Bytes>,
    page: &[(Bytes, Bytes)],
) -> Result<(), LoadFault>
    requires last { last.old ≡ last_key (map.entries store.old) }
    requires sorted { IsSorted page.now }
    ensures ok { OnOk result (AreAdded store.old page.now store.new last.new) }
    ensures refused { IfErr result (WhyNotAdded store.old page.now) }
    ensures kept { OnErr result ((store.new ≡ store.old) × (last.new ≡ last.old)) }
{
    if !follows(last, page) {
        return Err(LoadFault::Unordered);
    }
    let Some(greatest) = last_of(page)? else {
        return Ok(());
    };
    put_all(alloc, store, page)?;
    *last = Some(greatest);
    Ok(())
}

impl Loading {
    /// Reads the head of a checkpoint, which is what comes first. Refused as
    /// `checkpoint_code::head_of` is.
    pub fn begin(alloc: Global, head: &[u8]) -> Result<Loading, HeadFault>
        ensures read { IsHeadRead head.now (read_head result) }
        ensures accepted { IsHeadAccepted head.now (read_head result) }
        ensures empty { IfOk result (λ loading. loading.pairs ≡ []) }
    {
        let head = head_of(alloc, head)?;
        Ok(Loading {
            head,
            store: Store::new(alloc),
            last: None,
        })
    }

    /// Reads the next page of pairs. Refused in the order of `LoadFault`, and then nothing has
    /// changed; `Memory` may also come in place of no refusal.
    ///
    /// It takes time and memory in proportion to the page, but for what the store needs beside.
    pub fn add(&mut self, alloc: Global, page: &[u8]) -> Result<(), LoadFault>
        ensures read { IsAdded self.old page.now result self.new }
        ensures accepted { IsAddAccepted self.old page.now result self.new }
    {
        let pairs = page_of(alloc, page)?;
        add_pairs(alloc, &mut self.store, &mut self.last, pairs.as_slice())
    }

    /// The checkpoint with the head and the pairs that were read, if a world may open from it.
    /// Refused as `Checkpoint::restored` is.
    pub fn end(self, alloc: Global) -> Result<Checkpoint, CheckpointFault>
        ensures ok { IfOk result (λ c. c ≡ checkpoint_in self) }
        ensures sound { OnOk result (IsSound (checkpoint_in self)) }
        ensures refused { IfErr result (λ fault. IsRefusal rank (Condition (checkpoint_in self)) OutOfMemory fault) }
    {
        let Loading {
            head,
            store,
            last: _,
        } = self;
        let Head {
            place,
            moment,
            line,
            newest,
            before,
            begun,
        } = head;
        Checkpoint::restored(
            alloc,
            CheckpointParts {
                place,
                moment,
                line,
                newest,
                before,
                begun: begun.into_vec(),
                store,
            },
        )
    }
}
