//! The entries that are no longer in memory. They have no bytes, and only clauses read them.
ghost use Rattle.std.specs.Prelude.{◌≡◌, List, [], ◌++◌};
ghost use Rattle.std.specs.Borrow.{ftrue};
ghost use Rattle.replay.specs.declared.entry.Entry.{Entry as EntryOf};
ghost use Rattle.world.specs.EntryCode.{entries_code};

use replay::Entry;
use std::marker::Model;

/// The entries that are no longer in memory, the first one first.
#[derive(Drop)]
pub(crate) struct Gone {
    ghost entries: { List EntryOf } by { entries_code },
}

impl Model for Gone {
    ghost also_owns = { λ _. ftrue };
}

unsafe impl Send for Gone {}

unsafe impl Sync for Gone {}

impl Gone {
    /// None were.
    pub(crate) fn new() -> Gone
        ensures { result.entries ≡ [] }
    {
        Gone {}
    }

    /// These were, after those before.
    pub(crate) fn with(_before: &Gone, _more: &[Entry]) -> Gone
        ensures { result.entries ≡ _before.now.entries ++ _more.now }
    {
        Gone {}
    }
}
