//! Checkpoints that came from outside, and what is read of one to write it down.
ghost use Rattle.std.specs.Option.{option_map};
ghost use Rattle.std.specs.Prelude.{◌≡◌, ℕ, IfErr, IfOk, OnOk};
ghost use Rattle.collections.specs.Refusal.{IsRefusal};
ghost use Rattle.checkpoint_check.specs.Checkpoint.{IsWhole};
ghost use Rattle.checkpoint_check.specs.Sound.{IsSound};
ghost use Rattle.checkpoint_check.specs.Refusals.{Condition, rank};
ghost use Rattle.checkpoint_check.specs.declared.fault.CheckpointFault.TheVariants.{Memory as OutOfMemory};
ghost use Rattle.world.specs.Restored.{checkpoint_with};

use crate::checkpoints::Checkpoint;
use checkpoint_check::checkpoint::lemma_sound_is_whole;
use checkpoint_check::{CheckpointFault, check};
use collections::ArcValue;
use lease::Timeline;
use reorganise::Progress;
use row_map::{Near, PairView, Walk};
use schema_version::Schema;
use std::alloc::Global;
use txn_store::Store;

/// What a checkpoint is made of. There may be no such checkpoint.
#[derive(Drop)]
pub struct CheckpointParts {
    /// How many entries came before.
    pub place: u64,
    /// The moment of the last of them.
    pub moment: u64,
    /// When the versions were published.
    pub line: Timeline,
    pub newest: ArcValue<Schema>,
    /// The version before the newest.
    pub before: Option<ArcValue<Schema>>,
    /// The reorganisations that have begun and are not over.
    pub begun: Vec<Progress>,
    /// The pairs.
    pub store: Store,
}

fn schema_in(version: &Option<ArcValue<Schema>>) -> Option<&Schema>
    ensures { option_map (λ s. s.now) result ≡ version.now }
{
    match version {
        Some(version) => Some(version.get()),
        None => None,
    }
}

// Whether a world may open from these parts.
fn test_parts(alloc: Global, parts: &CheckpointParts) -> Result<(), CheckpointFault>
    ensures sound { OnOk result (IsSound (checkpoint_with parts.now)) }
    ensures refused { IfErr result (λ fault. IsRefusal rank (Condition (checkpoint_with parts.now)) OutOfMemory fault) }
{
    check(
        alloc,
        parts.moment,
        &parts.line,
        parts.newest.get(),
        schema_in(&parts.before),
        parts.begun.as_slice(),
        &parts.store,
    )
}

impl Checkpoint {
    /// The checkpoint with these parts, if a world may open from it: whatever bytes they came from,
    /// the theorem then holds of that world. The checkpoint of a world is refused only when out of
    /// memory.
    ///
    /// It goes over all pairs once for each version that a lease may use, and once more over what
    /// the begun reorganisations have passed.
    ///
    /// Refused in this order: `BadVersions`, `BadElements`, `BadPairs`, `BadReorganisations` if that
    /// part does not fit the others; `Memory`, only if neither of the first two holds.
    pub fn restored(alloc: Global, parts: CheckpointParts) -> Result<Checkpoint, CheckpointFault>
        ensures ok { IfOk result (λ c. c ≡ checkpoint_with parts) }
        ensures sound { OnOk result (IsSound (checkpoint_with parts)) }
        ensures refused { IfErr result (λ fault. IsRefusal rank (Condition (checkpoint_with parts)) OutOfMemory fault) }
    {
        lemma_sound_is_whole();
        test_parts(alloc, &parts)?;
        let CheckpointParts {
            place,
            moment,
            line,
            newest,
            before,
            begun,
            store,
        } = parts;
        Ok(Checkpoint {
            place,
            moment,
            line,
            newest,
            before,
            begun,
            store,
        })
    }

    /// A world may open from each checkpoint. For a caller's proof: it does nothing and takes no memory.
    pub fn lemma_whole(&self)
        ensures { IsWhole self.now }
    {
        let _own = &self.line;
    }

    /// How many entries came before.
    pub fn place(&self) -> u64
        ensures { result ≡ self.now.place }
    {
        self.place
    }

    /// The moment of the last of them.
    pub fn moment(&self) -> u64
        ensures { result ≡ self.now.moment }
    {
        self.moment
    }

    /// When the versions were published.
    pub fn timeline(&self) -> &Timeline
        ensures { result.now ≡ self.now.line }
    {
        &self.line
    }

    /// The newest version.
    pub fn newest(&self) -> &ArcValue<Schema>
        ensures { result.now ≡ self.now.newest }
    {
        &self.newest
    }

    /// The version before the newest.
    pub fn before(&self) -> Option<&ArcValue<Schema>>
        ensures { option_map (λ s. s.now) result ≡ self.now.before }
    {
        self.before.as_ref()
    }

    /// The reorganisations that have begun and are not over.
    pub fn begun(&self) -> &[Progress]
        ensures { result.now ≡ self.now.progress }
    {
        self.begun.as_slice()
    }
}

/// The pairs.
impl PairView for Checkpoint {
    ghost pairs = { λ c. c.pairs };

    fn get(&self, key: &[u8]) -> Option<&[u8]> {
        self.store.get(key)
    }

    fn get_near(&self, key: &[u8], near: &mut Near) -> Option<&[u8]> {
        self.store.get_near(key, near)
    }

    fn next_at(&self, key: &[u8]) -> Option<(&[u8], &[u8])> {
        self.store.next_at(key)
    }

    fn walk(&self) -> Walk<'_> {
        self.store.walk()
    }

    fn walk_within<'a>(&'a self, low: &[u8], high: &'a [u8]) -> Walk<'a> {
        self.store.walk_within(low, high)
    }
}
