//! Which pairs differ between two stores. What is due was written by hand.

use byte_map::{Bytes, KeyMap};
use pair_changes::{PairChange, changes_between};
use std::alloc::{AllocError, Global};

const BEFORE: [(&str, &str); 4] = [("a", "1"), ("b", "2"), ("c", ""), ("e", "5")];

const AFTER: [(&str, &str); 4] = [("b", "2"), ("c", "3"), ("d", "4"), ("e", "")];

// A key, the value that was there, and the one that is there.
const DUE: [(&str, Option<&str>, Option<&str>); 4] = [
    ("a", Some("1"), None),
    ("c", Some(""), Some("3")),
    ("d", None, Some("4")),
    ("e", Some("5"), Some("")),
];

fn pairs_of(alloc: Global, pairs: &[(&str, &str)]) -> Result<KeyMap<Bytes>, AllocError> {
    let mut found = KeyMap::new(alloc);
    for (key, value) in pairs {
        let key = Bytes::from_slice(alloc, key.as_bytes())?;
        let value = Bytes::from_slice(alloc, value.as_bytes())?;
        found.insert(key, value)?;
    }
    Ok(found)
}

fn is_value(found: &Option<Bytes>, due: Option<&str>) -> bool {
    match (found, due) {
        (Some(found), Some(due)) => found.as_slice() == due.as_bytes(),
        (None, None) => true,
        _ => false,
    }
}

fn is_change(found: &PairChange, due: (&str, Option<&str>, Option<&str>)) -> bool {
    found.key.as_slice() == due.0.as_bytes()
        && is_value(&found.before, due.1)
        && is_value(&found.after, due.2)
}

fn are_due(found: &[PairChange]) -> bool {
    if found.len() != DUE.len() {
        return false;
    }
    for (change, due) in found.iter().zip(DUE) {
        if !is_change(change, due) {
            return false;
        }
    }
    true
}

// Whether the changes between the two stores are these, and there is none from one to itself.
fn differ(alloc: Global) -> Result<bool, AllocError> {
    let before = pairs_of(alloc, &BEFORE)?;
    let after = pairs_of(alloc, &AFTER)?;
    let changes = changes_between(alloc, &before, &after)?;
    let none = changes_between(alloc, &after, &after)?;
    Ok(are_due(changes.as_slice()) && none.len() == 0)
}

#[test]
fn pairs_that_differ(rt: HostRuntime) {
    assert!(rt; differ(rt.alloc()) == Ok(true));
}
