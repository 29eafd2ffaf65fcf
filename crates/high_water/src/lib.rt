//! A number that only grows, and what is known of it for good. Neither has bytes.
#![tactic(auto)]

ghost use Rattle.std.specs.Prelude.{◌≡◌, ℕ, ◌≤◌};
ghost use Rattle.std.specs.Borrow.{full_share};
ghost use base.Growing.{numbers, latest, at_least};

use std::marker::{Model, PhantomData};

/// The number: whoever has it may raise it.
pub struct HighWater {
    marker: PhantomData<()>,
    /// Which number it is.
    pub ghost name: { ℕ },
    /// How high it is.
    pub ghost at: { ℕ },
}

impl Model for HighWater {
    ghost also_owns = { λ w. latest numbers full_share w.name w.at };
}

/// What is known of it: it was this high, and will never be lower.
pub struct Reached {
    marker: PhantomData<()>,
    /// Of which number.
    pub ghost name: { ℕ },
    /// How high that number was.
    pub ghost at: { ℕ },
}

impl Model for Reached {
    ghost also_owns = { λ r. at_least numbers r.name r.at };
}

impl HighWater {
    /// A new number, which is 0.
    pub fn new() -> HighWater
        ensures { result.at ≡ 0 }
    {
        HighWater {
            marker: PhantomData,
        }
    }

    /// Raises it.
    pub fn raise(&mut self, to: u64)
        requires { self.old.at ≤ to }
        ensures { (self.new.name ≡ self.old.name) × (self.new.at ≡ to) }
    {}

    /// What is known of it now.
    pub fn reached(&mut self) -> Reached
        ensures same { self.new ≡ self.old }
        ensures reached { (result.name ≡ self.old.name) × (result.at ≡ self.old.at) }
    {
        Reached {
            marker: PhantomData,
        }
    }

    /// Changes nothing, and tells that the number is at least as high as `known` says, if `known` is
    /// of this number.
    pub fn compare(&mut self, known: &mut Reached)
        ensures same { (self.new ≡ self.old) × (known.new ≡ known.old) }
        ensures at_least { known.old.name ≡ self.old.name → known.old.at ≤ self.old.at }
    {}
}

impl Drop for HighWater {
    fn drop(self) {
        let Self { marker: _ } = self;
    }
}

impl Drop for Reached {
    fn drop(self) {
        let Self { marker: _ } = self;
    }
}

unsafe impl Send for HighWater {}

unsafe impl Send for Reached {}
