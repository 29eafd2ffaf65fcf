//! A store that compares and writes as drafts say, and knows nothing else.

use byte_map::{Bytes, KeyMap};
use collections::{ArcValue, List};
use drafts::{Control, Key, KeyName, Newest, Record, Reorg};
use row_map::{Batch, Expect, ReadSet, ReadView};
use schema_version::Schema;
use std::alloc::{AllocError, Global};

/// The control records and the pairs.
#[derive(Drop)]
pub(crate) struct Store {
    control: Vec<(Key, Record)>,
    pub(crate) pairs: KeyMap<Bytes>,
}

fn is_same_reorg(one: &Reorg, other: &Reorg) -> bool {
    one.element.is_same(&other.element)
        && one.work == other.work
        && one.bounds.as_slice() == other.bounds.as_slice()
}

fn is_same(one: &Record, other: &Record) -> bool {
    match (one, other) {
        (Record::Version(a), Record::Version(b)) => a.get().is_same(b.get()),
        (Record::Reorg(a), Record::Reorg(b)) => is_same_reorg(a, b),
        (Record::Cursor(a), Record::Cursor(b)) => a == b,
        (Record::Mark, Record::Mark) => true,
        _ => false,
    }
}

impl Store {
    /// A store that was opened with version 1.
    pub(crate) fn opened(alloc: Global, schema: Schema) -> Result<Store, AllocError> {
        let first = Record::Version(ArcValue::new(alloc, schema)?);
        Ok(Store {
            control: vec![in alloc; (Key::version(1), first)]?,
            pairs: KeyMap::new(alloc),
        })
    }

    fn place(&self, name: &KeyName) -> Option<usize> {
        for (at, entry) in self.control.iter().enumerate() {
            if entry.0.name() == name {
                return Some(at);
            }
        }
        None
    }

    /// The record of this name.
    pub(crate) fn get(&self, name: &KeyName) -> Option<&Record> {
        let at = self.place(name)?;
        match self.control.get(at) {
            Some(entry) => Some(&entry.1),
            None => None,
        }
    }

    /// How many control records and pairs there are.
    pub(crate) fn counts(&self) -> (usize, usize) {
        (self.control.len(), self.pairs.len())
    }

    fn is_there(&self, read: &(Key, Option<Record>)) -> bool {
        match (self.get(read.0.name()), &read.1) {
            (None, None) => true,
            (Some(here), Some(wanted)) => is_same(here, wanted),
            _ => false,
        }
    }

    fn are_there(&self, reads: &[(Key, Option<Record>)]) -> bool {
        for read in reads {
            if !self.is_there(read) {
                return false;
            }
        }
        true
    }

    fn holds(&self, expect: &Expect) -> bool {
        for entry in expect.points.entries() {
            if self.pairs.get(entry.0.as_slice()) != entry.1.as_ref() {
                return false;
            }
        }
        match &expect.key_range {
            None => true,
            Some(range) => {
                self.pairs
                    .range(range.low.as_slice(), range.high.as_slice())
                    == range.pairs.entries()
            }
        }
    }

    /// The pairs with the batch laid over them.
    fn written(&self, alloc: Global, batch: &Batch) -> Result<KeyMap<Bytes>, AllocError> {
        let mut pairs = KeyMap::new(alloc);
        for (key, value) in self.pairs.entries() {
            pairs.insert(key.clone()?, value.clone()?)?;
        }
        for (key, value) in batch.writes() {
            match value {
                Some(value) => pairs.insert(key.clone()?, value.clone()?)?,
                None => {
                    let _old = pairs.take(key.as_slice());
                }
            }
        }
        Ok(pairs)
    }

    // There is room for all of them.
    fn write_control(&mut self, writes: Vec<(Key, Option<Record>)>) -> Result<(), AllocError> {
        for (key, entry) in writes {
            let at = self.place(key.name()).unwrap_or(self.control.len());
            if at < self.control.len() {
                let _old = self.control.swap_remove(at);
            }
            if let Some(entry) = entry {
                self.control.push((key, entry))?;
            }
        }
        Ok(())
    }

    /// One atomic transaction of control records alone.
    pub(crate) fn apply(&mut self, control: Control) -> Result<bool, AllocError> {
        let (reads, writes) = control.into_parts();
        if !self.are_there(reads.as_slice()) {
            return Ok(false);
        }
        self.control.reserve(writes.len())?;
        self.write_control(writes.into_vec())?;
        Ok(true)
    }

    /// One of control records and pairs.
    pub(crate) fn apply_with(
        &mut self,
        alloc: Global,
        control: Control,
        expect: &Expect,
        batch: &Batch,
    ) -> Result<bool, AllocError> {
        if !self.holds(expect) {
            return Ok(false);
        }
        let pairs = self.written(alloc, batch)?;
        let is_applied = self.apply(control)?;
        if is_applied {
            self.pairs = pairs;
        }
        Ok(is_applied)
    }

    /// What these keys have.
    pub(crate) fn view(&self, alloc: Global, keys: &ReadSet) -> Result<ReadView, AllocError> {
        let mut view = KeyMap::new(alloc);
        for (key, _) in keys.entries() {
            let value = match self.pairs.get(key.as_slice()) {
                Some(value) => Some(value.clone()?),
                None => None,
            };
            view.insert(key.clone()?, value)?;
        }
        Ok(view)
    }

    /// The schema of an open version.
    pub(crate) fn schema(&self, number: u64) -> Result<Option<ArcValue<Schema>>, AllocError> {
        match self.get(&KeyName::Version(number)) {
            Some(Record::Version(schema)) => Ok(Some(schema.clone()?)),
            _ => Ok(None),
        }
    }

    /// The version after this number, to be taken for the newest.
    pub(crate) fn newest(&self, before: u32) -> Result<Option<Newest>, AllocError> {
        match self.schema(u64::from(before) + 1)? {
            Some(schema) => Ok(Some(Newest { before, schema })),
            None => Ok(None),
        }
    }

    /// The begun reorganisation of element 2.
    pub(crate) fn reorg(&self) -> Option<&Reorg> {
        match self.get(&KeyName::Reorg(2)) {
            Some(Record::Reorg(reorg)) => Some(reorg),
            _ => None,
        }
    }

    /// How far a piece of it has come.
    pub(crate) fn cursor(&self, piece: u64) -> Option<&Bytes> {
        match self.get(&KeyName::Cursor { element: 2, piece }) {
            Some(Record::Cursor(cursor)) => Some(cursor),
            _ => None,
        }
    }
}
