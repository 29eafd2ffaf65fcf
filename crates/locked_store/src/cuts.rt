//! The calls through the lock that take entries out of the log.
ghost use Rattle.std.specs.Prelude.{◌≡◌};
ghost use Rattle.locked_store.specs.Answers.{Empties};
ghost use Rattle.rollout.specs.State.{entries_before, entries_kept};

use crate::fault::WentBack;
use crate::handle::Handle;
use crate::shared::Shared;
use crate::shared_ledger::SharedLedger;
use rollout::world::Entry;
use std::sync::Wait;

impl<L: SharedLedger> Shared<L> {
    /// Hands out the entries that are in memory, with how many there were before them, as
    /// `World::take_log` does; they are freed outside of the lock. The handle counts them, and knows
    /// from then on that the log begins after them; at `close` it begins where all takes together have
    /// led it, so no entry is lost, and none is handed out twice. Refused with `WentBack` alone, if the
    /// log is shorter than the handle's front.
    #[tactic(auto, using(crate::proofs::Through::takes_out))]
    pub fn take_log(
        &self,
        rt: &impl Wait,
        me: &mut Handle<L>,
    ) -> Result<(u64, Vec<Entry>), WentBack>
        ensures { Empties L.start me.old result me.new (λ c x. (x.0 ≡ entries_before c) × (x.1.items ≡ entries_kept c)) }
    {
        let mut locked = self.enter(rt);
        locked.check_front(me)?;
        Ok(locked.take_log(me))
    }

    /// Gives the memory of all entries back, as `World::cut` does: they are taken in one critical
    /// section and freed outside of it. The handle counts them, as `take_log` says. Refused with
    /// `WentBack` alone, if the log is shorter than the handle's front.
    #[tactic(auto, using(crate::proofs::Through::only_taken))]
    pub fn cut(&self, rt: &impl Wait, me: &mut Handle<L>) -> Result<(), WentBack>
        ensures { Empties L.start me.old result me.new (λ c x. x ≡ tt) }
    {
        match self.take_log(rt, me) {
            Ok(_taken) => Ok(()),
            Err(back) => Err(back),
        }
    }
}
