//! The store, and how it is read.
ghost use Rattle.std.specs.Prelude.{◌≡◌, ◌==◌};
ghost use Rattle.std.specs.FinMap as map;

use row_map::{Near, PairView, RankedView, Walk};
use std::alloc::Global;
use std::marker::Model;
use txn_store::Store;

/// The pairs of a store in memory, control records beside those of rows and indexes: values by keys,
/// both byte strings. Contracts see it as the map of all its pairs.
#[derive(Drop)]
pub struct MemoryStore {
    pub(crate) pairs: Store,
}

impl Model for MemoryStore {
    ghost use Rattle.std.specs.Coded.{coded_ℕ, coded_list};
    ghost use Rattle.std.specs.FinMap as map;
    ghost use Rattle.row_map.specs.Rows.{Pairs};

    ghost Value = { Pairs };

    ghost coded = { map.code (coded_list coded_ℕ) (coded_list coded_ℕ) };

    ghost view = { λ s. s.pairs };
}

impl MemoryStore {
    /// A store without pairs. It takes no memory yet.
    pub fn new(alloc: Global) -> MemoryStore
        ensures { result ≡ map.empty }
    {
        MemoryStore {
            pairs: Store::new(alloc),
        }
    }

    /// How many pairs there are.
    pub fn len(&self) -> usize
        ensures { result ≡ map.len self.now }
    {
        self.pairs.len()
    }

    /// Whether there is no pair.
    pub fn is_empty(&self) -> bool
        ensures { result ≡ (map.len self.now == 0) }
    {
        self.pairs.is_empty()
    }
}

impl PairView for MemoryStore {
    ghost pairs = { λ s. s };

    fn get(&self, key: &[u8]) -> Option<&[u8]> {
        self.pairs.get(key)
    }

    fn get_near(&self, key: &[u8], near: &mut Near) -> Option<&[u8]> {
        self.pairs.get_near(key, near)
    }

    fn next_at(&self, key: &[u8]) -> Option<(&[u8], &[u8])> {
        self.pairs.next_at(key)
    }

    fn walk(&self) -> Walk<'_> {
        self.pairs.walk()
    }

    fn walk_within<'a>(&'a self, low: &[u8], high: &'a [u8]) -> Walk<'a> {
        self.pairs.walk_within(low, high)
    }
}

impl RankedView for MemoryStore {
    fn count_empty(&self, low: &[u8], high: &[u8]) -> usize {
        self.pairs.count_empty(low, high)
    }

    fn nth_empty(&self, low: &[u8], high: &[u8], n: usize) -> Option<&[u8]> {
        self.pairs.nth_empty(low, high, n)
    }
}
