//! What a transaction reads: the pairs of given keys.
ghost use Rattle.std.specs.Prelude.{◌≡◌, IfOk, option_map};
ghost use Rattle.std.specs.FinMap as map;
ghost use Rattle.world.specs.Calls.{IsReadView};
ghost use Rattle.world.specs.inner.Read.{noted_reads};

use crate::world::World;
use byte_map::{Bytes, KeyMap};
use row_map::{Near, PairView, ReadSet, ReadView};
use std::alloc::{AllocError, Global};
use txn_store::Store;

/// The value of a key as a view keeps it.
fn value_of(
    alloc: Global,
    store: &Store,
    key: &Bytes,
    near: &mut Near,
) -> Result<Option<Bytes>, AllocError>
    ensures { IfOk result (λ value. value ≡ map.get store.now key.now) }
{
    match store.get_near(key.as_slice(), near) {
        None => Ok(None),
        Some(value) => Ok(Some(Bytes::from_slice(alloc, value)?)),
    }
}

/// The pairs of these keys.
fn read_all(alloc: Global, store: &Store, keys: &[(Bytes, ())]) -> Result<ReadView, AllocError>
    ensures { IfOk result (λ view. view ≡ noted_reads store.now map.empty keys.now) }
{
    let mut view = KeyMap::new(alloc);
    // The keys rise, and those of a row stand side by side.
    let mut near = Near::new();
    for (key, _) in keys {
        let value = value_of(alloc, store, key, &mut near)?;
        view.insert(key.clone()?, value)?;
    }
    Ok(view)
}

impl World {
    /// The pairs of these keys: each key with its value, or with none if there is no pair. Refused
    /// only when out of memory.
    pub fn read(&self, alloc: Global, keys: &ReadSet) -> Result<ReadView, AllocError>
        ensures { IfOk result (λ view. IsReadView self.now keys.now view) }
    {
        read_all(alloc, &self.store, keys.entries())
    }
}
