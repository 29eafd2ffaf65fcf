//! The rule of the counter, one word of an atomic table: all seats together have drawn the numbers
//! below the word, each once. It has four kinds of step: a seat draws, splits off a seat, is joined
//! with a seat, and reads the word after the last join.
ghost use Rattle.std.specs.Prelude.{◌+◌, ◌++◌, []};
ghost use Rattle.claims.specs.Draws.{hand, Drawn, Draws};

use atomic_table::{Join, Play, Split, TableRule};
use std::collections::LinkedList;

/// What a seat of the table knows: how many numbers there are, for how many claimants it stands,
/// and what it has drawn. Contracts alone speak of it, and no value of it is made.
pub struct Hand {
    /// How many numbers there are.
    pub total: u64,
    /// For how many claimants the seat stands.
    pub seats: u64,
    /// The numbers that it has drawn.
    pub drawn: LinkedList<u64>,
}

/// What a counter is made for.
#[derive(Clone, Copy)]
pub struct Terms {
    /// How many numbers there are.
    pub total: u64,
    /// How many claimants draw them.
    pub seats: u64,
}

/// The rule of the word, which is the number that comes next.
pub struct Counting;

impl TableRule<(), Hand, Terms> for Counting {
    ghost holds = { Drawn };

    ghost first = { λ k. hand k.total k.seats [] };
}

/// A seat draws the number that comes next.
pub(crate) struct Draw;

impl Play<(), Hand> for Draw {
    ghost then = { Draws };
}

/// A new seat takes over one of the claimants for which a seat stands.
pub(crate) struct Cut;

impl Split<Hand> for Cut {
    ghost use Rattle.std.specs.Prelude.{◌-◌, []};
    ghost use Rattle.claims.specs.Draws.{hand};

    ghost left = { λ v. hand v.total (v.seats - 1) v.drawn };

    ghost right = { λ v. hand v.total 1 [] };
}

/// One seat stands for the claimants of both, and has drawn what both have. The other stands for
/// none.
pub(crate) struct Unite;

impl Join<Hand> for Unite {
    ghost both = { λ v w. hand v.total (v.seats + w.seats) (v.drawn ++ w.drawn) };

    ghost spent = { hand 0 0 [] };
}
