//! What is known of the values of a range.
// `row_ask` has the same private functions for conditions.
ghost use Rattle.keycode.specs.Valid.{AreValues};
ghost use Rattle.row_page.specs.inner.Bounds.{IsKnownKey, IsKnownRange};

use crate::range::KeyRange;
use keycode::{Value, Values, known_value};

fn known_values(values: &[Value])
    ensures { AreValues values.now }
{
    for value in values {
        known_value(value);
    }
}

fn known_key(key: &Option<Values>)
    ensures { IsKnownKey key.now }
{
    match key {
        None => (),
        Some(key) => known_values(key.as_slice()),
    }
}

/// A fact for proofs: the values are values of the program.
pub(crate) fn known_range(range: &KeyRange)
    ensures { IsKnownRange range.now }
{
    known_key(&range.after);
    known_key(&range.before);
}
