//! Writes that wait until they are due, and whose times are noted.

use crate::bar::Bar;
use crate::meter::Meter;
use server::tasks::Gate;
use std::time::Clock;

/// Lets each write start when it is due, notes when it began and ended, and shows the bar.
#[derive(Drop)]
pub(crate) struct PacedGate<'a, R> {
    /// What reads the clock.
    pub(crate) rt: &'a R,
    /// What shows how many have ended.
    pub(crate) bar: Bar<'a, R>,
    /// What knows when each is due, and keeps their times.
    pub(crate) meter: &'a Meter,
}

impl<R: Eprint + Clock> Gate for PacedGate<'_, R> {
    fn may_start(&self, number: usize, turn: u64) -> bool {
        if turn == 0 {
            self.meter.note_begin(self.rt, number);
        }
        self.meter.is_due(self.rt, number)
    }

    fn answered(&self, number: usize) {
        self.meter.note_end(self.rt, number);
        self.bar.answered(number);
    }
}
