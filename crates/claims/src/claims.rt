//! The counter: how its seats are dealt out, how numbers are drawn, and how it ends.
ghost use Rattle.std.specs.Prelude.{vec_len, vec_capacity, ◌≡◌, ◌-◌, ◌+◌, ◌<◌, ◌≤◌, ℕ, length, MatchOption, [], ◌∷◌, ◌++◌, IfOk, IfErr, true};
ghost use Rattle.claims.specs.Draws.{hand, late, times, once_below};
ghost use Rattle.claims.specs.Seats.{Claimed, AreIdle, all_drawn, any_done};
ghost use Rattle.claims.specs.Counts.{IsCount, IsRefused};
ghost use Rattle.claims.specs.inner.JoinedSeats.{IsUnited};
ghost use Rattle.claims.specs.declared.fault.ClaimFault.TheVariants as claim_fault;

use crate::fault::ClaimFault;
use crate::rule::{Counting, Cut, Draw, Hand, Terms, Unite};
use crate::seat::{ClaimSeat, Drawing};
use atomic_table::{Seat, Table};
use std::alloc::{AllocError, Global};
use std::marker::PhantomData;

/// The greatest count of numbers.
const MAX_TOTAL: usize = 1_000_000;

/// The greatest number of seats.
const MAX_SEATS: usize = 64;

/// A counter from which nobody draws yet. `Claims::new` names it and deals its seats out.
#[derive(Drop)]
pub struct Opened {
    table: Table<(), Hand, Terms, Counting, Global>,
    seat: Seat<(), Hand>,
    total: usize,
    seats: usize,
    ghost words: { table.shared.table_id.words ≡ 1 },
    ghost slots: { table.shared.table_id.slots ≡ 0 },
    ghost key_is: { (table.shared.key.total ≡ total) × (table.shared.key.seats ≡ seats) },
    ghost own: { seat.table_id ≡ table.shared.table_id },
    ghost idle: { seat.me ≡ (hand total seats [], []) },
    ghost some: { 0 < seats },
}

impl Opened {
    /// A counter for the numbers below `total`, which `seats` claimants are to draw.
    ///
    /// Refused in this order: `BadCount` if there are more than 1,000,000 numbers, or if the
    /// number of seats is not from 1 to 64; `Memory`.
    pub fn new(alloc: Global, total: usize, seats: usize) -> Result<Opened, ClaimFault>
        ensures ok { IfOk result (λ o. (o.total ≡ total) × (o.seats ≡ seats) × IsCount total seats) }
        ensures refused { IfErr result (λ fault. IsRefused total seats fault) }
    {
        if total > MAX_TOTAL || seats == 0 || seats > MAX_SEATS {
            return Err(ClaimFault::BadCount);
        }
        let terms = Terms {
            total: total as u64,
            seats: seats as u64,
        };
        match Table::of_words(alloc, &[0], &terms) {
            Ok((table, seat)) => Ok(Opened {
                table,
                seat,
                total,
                seats,
            }),
            Err(AllocError) => Err(ClaimFault::Memory),
        }
    }
}

/// A counter from which threads draw the numbers below a total, in turn. Whatever the threads do,
/// no number is drawn twice, and none is left out.
#[derive(Drop)]
pub struct Claims<T: Drawing> {
    table: Table<(), Hand, Terms, Counting, Global>,
    total: usize,
    marker: PhantomData<T>,
    ghost words: { table.shared.table_id.words ≡ 1 },
    ghost slots: { table.shared.table_id.slots ≡ 0 },
    ghost named: { table.shared.table_id ≡ T.table },
    ghost key_is: { (table.shared.key.total ≡ T.total) × (table.shared.key.seats ≡ T.seats) },
    ghost total_is: { total ≡ T.total },
    ghost some: { 0 < T.seats },
}

impl<T: Drawing> Claims<T> {
    /// Names a counter, and deals out its seats. Refused with `Memory` alone.
    pub fn new(alloc: Global, opened: Opened) -> Result<(Claims<T>, Vec<ClaimSeat<T>>), ClaimFault>
        requires picked { (opened.table.shared.table_id ≡ T.table) × (opened.total ≡ T.total) × (opened.seats ≡ T.seats) }
        ensures idle { IfOk result (λ r. AreIdle T.seats r.1.items) }
        ensures room { IfOk result (λ r. T.seats ≤ vec_capacity r.1) }
        ensures refused { IfErr result (λ fault. fault ≡ claim_fault.Memory) }
    {
        let Opened {
            table,
            seat,
            total,
            seats,
        } = opened;
        let Ok(room) = Vec::with_capacity(alloc, seats) else {
            return Err(ClaimFault::Memory);
        };
        let claims = Claims {
            table,
            total,
            marker: PhantomData,
        };
        let seats = claims.deal(room, seat, seats);
        Ok((claims, seats))
    }

    // So many seats, of which each stands for one claimant.
    #[tactic(auto, using(crate::proofs::Totals::all_drawn_push, crate::proofs::Totals::any_done_push))]
    fn deal(&self, room: Vec<ClaimSeat<T>>, seat: Seat<(), Hand>, count: usize) -> Vec<ClaimSeat<T>>
        requires room { (room.items ≡ []) × (count ≤ vec_capacity room) }
        requires seat { (seat.table_id ≡ T.table) × (seat.me ≡ (hand T.total count [], [])) × (0 < count) }
        ensures idle { AreIdle count result.items }
        ensures room { count ≤ vec_capacity result }
    {
        let mut seats = room;
        let mut rest = seat;
        for _i in 1..count {
            let seat = self.table.shared.split_seat::<Cut>(&mut rest);
            seats.push_reserved(ClaimSeat {
                seat,
                done: false,
                marker: PhantomData,
            });
        }
        seats.push_reserved(ClaimSeat {
            seat: rest,
            done: false,
            marker: PhantomData,
        });
        seats
    }

    // The next number of the word.
    fn draw(&self, seat: &mut Seat<(), Hand>) -> u64
        requires own { seat.old.table_id ≡ T.table }
        requires room { late seat.old.me.0.total seat.old.me.0.drawn < seat.old.me.0.seats }
        ensures { (seat.new.table_id ≡ seat.old.table_id) × (seat.new.me ≡ (hand seat.old.me.0.total seat.old.me.0.seats (seat.old.me.0.drawn ++ result ∷ []), seat.old.me.1)) }
    {
        self.table.shared.fetch_add::<Draw>(seat, 0, 1)
    }

    /// Draws the next number; None from the total on. A seat that has met None answers None from
    /// then on, and draws nothing. It takes no lock and no memory.
    #[tactic(auto, using(crate::proofs::Totals::late_push))]
    pub fn claim(&self, me: &mut ClaimSeat<T>) -> Option<usize>
        ensures { Claimed T.total me.old result me.new }
    {
        if me.done {
            return None;
        }
        let number = self.draw(&mut me.seat) as usize;
        if number < self.total {
            Some(number)
        } else {
            me.done = true;
            None
        }
    }

    // One seat that stands for all that are handed in.
    #[tactic(auto, using(crate::proofs::Totals::all_drawn_push, crate::proofs::Totals::any_done_push, crate::proofs::Totals::times_append, crate::proofs::Totals::late_append))]
    fn join_seats(&self, seats: Vec<ClaimSeat<T>>) -> Option<Seat<(), Hand>>
        ensures { MatchOption result (seats.items ≡ []) (λ s. IsUnited T.total T.table seats.items s) }
    {
        let mut seats = seats;
        let ClaimSeat {
            seat: mut all,
            done: _,
            marker: _,
        } = seats.pop()?;
        while let Some(claimant) = seats.pop() {
            let ClaimSeat {
                seat,
                done: _,
                marker: _,
            } = claimant;
            self.table.shared.join_seat::<Unite>(&mut all, seat);
        }
        Some(all)
    }

    /// Ends the counter, and tells the number that would have come next. The numbers that the seats
    /// handed in have drawn are below it, each once. It is above the total if one of these seats
    /// has met None, and at most by the number of all seats. If all seats are handed in, the
    /// numbers that they drew are all that are below it.
    pub fn finish(self, seats: Vec<ClaimSeat<T>>) -> u64
        ensures some { (x : ℕ) → times x (all_drawn seats.items) ≤ once_below x result }
        ensures all { vec_len seats ≡ T.seats → (x : ℕ) → times x (all_drawn seats.items) ≡ once_below x result }
        ensures past { any_done seats.items ≡ true → T.total < result }
        ensures most { result ≤ T.total + T.seats }
    {
        match self.join_seats(seats) {
            Some(all) => self.end_with(all),
            None => self.end(),
        }
    }

    // The word, if no seat is handed in.
    fn end(self) -> u64
        ensures { result ≤ T.total + T.seats }
    {
        let Claims {
            table,
            total: _,
            marker: _,
        } = self;
        let closed = table.close();
        let word = closed.word(0);
        closed.free();
        word
    }

    // The word, if this seat is handed in.
    fn end_with(self, all: Seat<(), Hand>) -> u64
        requires { all.table_id ≡ T.table }
        ensures some { (x : ℕ) → times x all.me.0.drawn ≤ once_below x result }
        ensures all { all.me.0.seats ≡ T.seats → (x : ℕ) → times x all.me.0.drawn ≡ once_below x result }
        ensures late { late T.total all.me.0.drawn ≤ result - T.total }
        ensures most { result ≤ T.total + T.seats }
    {
        let Claims {
            table,
            total: _,
            marker: _,
        } = self;
        let closed = table.close_with(all);
        let word = closed.word(0);
        closed.free();
        word
    }
}
