//! The keys of control records.
ghost use Rattle.std.specs.Prelude.{◌≡◌};
ghost use Rattle.drafts.specs.KeyNumbers.{numbers};
ghost use Rattle.drafts.specs.Store.{version_key, reorg_key, cursor_key, mark_key};

use byte_map::Bytes;
use std::marker::Model;

/// What a control record says, and of what.
#[derive(Drop, PartialEq, Eq)]
pub enum KeyName {
    /// That the version of this number is open, and its schema.
    Version(u64),
    /// The begun reorganisation of the element of this number.
    Reorg(u32),
    /// How far a piece of a reorganisation has come.
    Cursor {
        /// The number of the element.
        element: u32,
        /// The number of the piece, from 0.
        piece: u64,
    },
    /// That the transaction to which its server gave this name is done.
    Mark(Bytes),
}

/// The key of a control record. Contracts see it as a list of numbers: its kind, and then the
/// numbers or the bytes that name the record.
#[derive(Drop)]
pub struct Key {
    name: KeyName,
}

impl Model for Key {
    ghost use Rattle.std.specs.Prelude.{List, ℕ};
    ghost use Rattle.drafts.specs.KeyNumbers.{numbers};

    ghost Value = { List ℕ };

    ghost view = { λ k. numbers k.name };
}

impl Key {
    /// The key of the version of this number, counted from 1.
    pub fn version(number: u64) -> Key
        ensures { result ≡ version_key number }
    {
        Key {
            name: KeyName::Version(number),
        }
    }

    /// The key of the reorganisation of the element of this number.
    pub fn reorg(element: u32) -> Key
        ensures { result ≡ reorg_key element }
    {
        Key {
            name: KeyName::Reorg(element),
        }
    }

    /// The key of the cursor of a piece, which is counted from 0, of the reorganisation of the
    /// element of this number.
    pub fn cursor(element: u32, piece: u64) -> Key
        ensures { result ≡ cursor_key element piece }
    {
        Key {
            name: KeyName::Cursor { element, piece },
        }
    }

    /// The key of the mark of this name.
    pub fn mark(name: Bytes) -> Key
        ensures { result ≡ mark_key name }
    {
        Key {
            name: KeyName::Mark(name),
        }
    }

    /// What it is the key of.
    pub fn name(&self) -> &KeyName
        ensures { numbers result.now ≡ self.now }
    {
        &self.name
    }
}
