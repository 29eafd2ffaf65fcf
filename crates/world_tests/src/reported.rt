//! What a call answered, and what one that found no memory has to leave as it was.

use reorganise::Work;
use row_map::{PairView, ReadView};
use world::World;

/// What a call answered.
#[derive(Clone, Copy)]
pub(crate) enum Reported {
    /// What it has to.
    Right,
    /// Something else.
    Wrong,
    /// That there was no memory.
    Short,
}

/// Whether it is what it has to be.
pub(crate) fn judged(is_right: bool) -> Reported {
    if is_right {
        Reported::Right
    } else {
        Reported::Wrong
    }
}

// The number that these bytes and their order make of another.
fn mixed(sum: u64, bytes: &[u8]) -> u64 {
    let mut sum = sum.wrapping_mul(31).wrapping_add(7);
    for byte in bytes {
        sum = sum.wrapping_mul(31).wrapping_add(u64::from(*byte));
    }
    sum
}

// A number that all pairs make, so that other pairs hardly make the same.
fn sum_of(world: &World) -> u64 {
    let mut sum = 0u64;
    let mut walk = world.walk();
    for _i in 0..u64::MAX {
        let Some((key, value)) = walk.next() else {
            return sum;
        };
        sum = mixed(mixed(sum, key), value);
    }
    sum
}

/// The number of entries, the last moment, a number that the pairs make, and how the reorganisation
/// of element 2 stands.
type Seen = (usize, u64, u64, Option<(Work, usize, bool)>);

/// What a call that found no memory has to leave as it was.
pub(crate) fn seen(world: &World) -> Seen {
    let entries = world.log().len();
    (entries, world.moment(), sum_of(world), world.progress(2))
}
