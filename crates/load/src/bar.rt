//! A bar on standard error while threads work.
ghost use Rattle.std.specs.Prelude.{◌≤◌};

use server::tasks::Gate;

/// Bars by the tenths that are done.
const BARS: [&str; 11] = [
    "[..........]",
    "[#.........]",
    "[##........]",
    "[###.......]",
    "[####......]",
    "[#####.....]",
    "[######....]",
    "[#######...]",
    "[########..]",
    "[#########.]",
    "[##########]",
];

/// Lets each task start at once and, if someone is to see it, shows on standard error how many were
/// answered. Tasks are drawn in the order of their numbers, so these are about as many as the
/// number of the last one.
#[derive(Drop)]
pub(crate) struct Bar<'a, R> {
    /// What prints.
    pub(crate) rt: &'a R,
    /// What the tasks are.
    pub(crate) what: &'static str,
    /// How many there are.
    pub(crate) total: u32,
    /// Whether someone is to see it.
    pub(crate) is_shown: bool,
}

// How many tenths are done.
fn tenths(done: usize, total: u32) -> usize
    ensures { result ≤ 10 }
{
    let total = total.max(1) as usize;
    (done.saturating_mul(10) / total).min(10)
}

impl<R: Eprint> Gate for Bar<'_, R> {
    fn may_start(&self, _number: usize, _turn: u64) -> bool {
        true
    }

    fn answered(&self, number: usize) {
        let done = number.saturating_add(1);
        let (full, total) = (tenths(done, self.total), self.total);
        if self.is_shown && full != tenths(number, total) {
            let (what, bar) = (self.what, BARS[full]);
            let end = if full == 10 { "\n" } else { "" };
            let _ = eprint!(self.rt; "\r{what} {bar} {done} of {total}{end}");
        }
    }
}
