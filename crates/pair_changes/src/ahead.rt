//! A walk over pairs whose next pair can be looked at.
ghost use Rattle.std.specs.Prelude.{◌≡◌, IfNone, [], MatchOption};
ghost use Rattle.pair_changes.specs.inner.Ahead.{IsFirst, rest_of};

use row_map::Walk;
use std::marker::Model;

/// The pairs that are left to go over, in the order of their keys.
#[derive(Drop)]
pub(crate) struct Ahead<'a> {
    /// The next pair; none if all were given.
    first: Option<(&'a [u8], &'a [u8])>,
    /// Those after it.
    rest: Walk<'a>,
}

impl<'a> Model for Ahead<'a> {
    ghost use Rattle.std.specs.Prelude.{List, ℕ, option_map};
    ghost use Rattle.pair_changes.specs.inner.Ahead.{with_first};

    ghost Value = { List (List ℕ × List ℕ) };

    ghost view = { λ a. with_first (option_map (λ p. (p.0.now, p.1.now)) a.first) a.rest };
}

impl<'a> Ahead<'a> {
    /// Goes over the pairs of a walk.
    pub(crate) fn new(walk: Walk<'a>) -> Ahead<'a>
        ensures { result ≡ walk.entry }
    {
        let mut rest = walk;
        let first = rest.next();
        Ahead { first, rest }
    }

    /// The next pair, as its key and its value; none if all were given.
    pub(crate) fn first(&self) -> Option<(&'a [u8], &'a [u8])>
        ensures { MatchOption result (self.now ≡ []) (λ p. IsFirst (p.0.now, p.1.now) self.now) }
    {
        self.first
    }

    /// Passes the next pair, if there is one.
    pub(crate) fn skip(&mut self)
        ensures { self.new ≡ rest_of self.old }
    {
        if self.first.is_some() {
            self.first = self.rest.next();
        }
    }
}
