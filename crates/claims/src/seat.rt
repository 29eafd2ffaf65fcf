//! The right to draw, and what tells one counter from another.
ghost use Rattle.std.specs.Prelude.{◌≡◌, ℕ, []};
ghost use Rattle.atomic_table.specs.Seated.{TableId};

use crate::rule::Hand;
use atomic_table::Seat;
use std::marker::{Brand, Model, PhantomData};

/// Which counter it is, so that no seat of one is taken for a seat of another: how many numbers it
/// has, and how many seats. Each call of `Claims::new` picks it.
pub trait Drawing {
    ghost table: { TableId };

    ghost total: { ℕ };

    ghost seats: { ℕ };
}

// any values do here, since each call picks its own
impl Drawing for Brand {
    ghost table = { record { words = 0; slots = 0; views_name = 0; atom = 0; block = 0; offset = 0; slot_names = [] } };

    ghost total = { 0 };

    ghost seats = { 0 };
}

/// A right to draw numbers. Contracts see the numbers that it has drawn, and whether it has met the
/// end.
#[derive(Drop)]
pub struct ClaimSeat<T: Drawing> {
    pub(crate) seat: Seat<(), Hand>,
    pub(crate) done: bool,
    pub(crate) marker: PhantomData<T>,
}

impl<T: Drawing> Model for ClaimSeat<T> {
    ghost use Rattle.std.specs.Prelude.{◌≡◌, []};
    ghost use Rattle.claims.specs.Draws.{late, one_if_true};
    ghost use Rattle.claims.specs.Seats.{Drawer};

    ghost Value = { Drawer };

    ghost view = { λ s. record { drawn = s.seat.me.0.drawn; done = s.done } };

    ghost invariant = { λ s. (s.seat.table_id ≡ T.table) × (s.seat.me.1 ≡ []) × (s.seat.me.0.seats ≡ 1) × (s.seat.me.0.total ≡ T.total) × (late T.total s.seat.me.0.drawn ≡ one_if_true s.done) };
}
