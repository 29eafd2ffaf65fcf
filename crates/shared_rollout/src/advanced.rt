//! One act that is due, done through the lock.
ghost use Rattle.std.specs.Prelude.{◌≡◌, ◌+◌, ◌≤◌, ◌↔◌, IfOk, IfErr};
ghost use Rattle.locked_store.specs.Known.{own_of};
ghost use Rattle.shared_rollout.specs.Operator.{AreNumbers, IsAdvanced, IsRefused, IsSeen, asked, entries_in};
ghost use Rattle.shared_rollout.specs.declared.fault.OperatorFault.TheVariants.{BadCount};
ghost use Rattle.shared_rollout.specs.inner.Attempts.{Acts};

use crate::ask::{Ask, are_numbers};
use crate::attempt::attempt_act;
use crate::fault::OperatorFault;
use lease::MAX_MOMENT;
use locked_store::rollout::Advanced;
use locked_store::{Handle, Shared, SharedLedger};
use std::alloc::Global;
use std::sync::Wait;

/// Does the act that is due: it looks again as long as another is first, up to the tries.
pub(crate) fn do_act<L: SharedLedger, R: Wait>(
    rt: &R,
    alloc: Global,
    shared: &Shared<L>,
    me: &mut Handle<L>,
    ask: &Ask,
) -> Result<Advanced, OperatorFault>
    requires seen { ask.now.front ≤ me.old.front }
    ensures { Acts L.start ask.now me.old result me.new }
{
    if ask.moment > MAX_MOMENT {
        return Err(OperatorFault::MomentTooLarge);
    }
    let mut failed = 0u32;
    while failed < ask.tries {
        match attempt_act(rt, alloc, shared, me, ask) {
            Ok(Some(done)) => return Ok(done),
            Ok(None) => failed += 1,
            Err(fault) => return Err(fault),
        }
    }
    Err(OperatorFault::Busy { tries: ask.tries })
}

/// Does the act that is due, and reports it, as `rollout::advance` does of a world that is not
/// shared. It looks at what is due in one critical section, and does it in another; a piece is
/// prepared in between, outside of the lock. If others have moved the state on meanwhile, so that
/// the act is refused, it looks again: what another operator did is no fault.
///
/// - `me`: a handle of the shared world.
/// - `moment`: the effective moment of each call is the greater of it and the moment of the last
///   entry.
/// - `pieces`: in how many pieces a fill or a clear begins, 1 to 64.
/// - `limit`: how many items of a piece are worked at most, 1 to 1,000.
/// - `tries`: how often others may be first, 1 to 1,000,000.
///
/// The handle has then seen the log up to the entry of the act, or the log in which the act was due.
///
/// Refused by the names of `OperatorFault`: first `BadCount`, if a number is out of its range; then
/// `MomentTooLarge` if the moment is above 2^62; then what the first call through the lock that
/// can't be tried again is refused with: `WentBack`, `MomentTooLarge`, `VersionsSpent` or `Memory`;
/// `Busy` after so many tries. A refused call adds no entry.
pub fn advance<L: SharedLedger, R: Wait>(
    rt: &R,
    alloc: Global,
    shared: &Shared<L>,
    me: &mut Handle<L>,
    moment: u64,
    pieces: u32,
    limit: u32,
    tries: u32,
) -> Result<Advanced, OperatorFault>
    ensures numbers { IfOk result (λ _. AreNumbers pieces limit tries) }
    ensures done { IfOk result (λ done. IsAdvanced L.start (asked moment pieces limit tries me.old.front) done) }
    ensures seen { IfOk result (λ done. IsSeen L.start moment done me.new.front) }
    ensures order { IfErr result (λ fault. (fault ≡ BadCount) ↔ (¬ (AreNumbers pieces limit tries))) }
    ensures refused { IfErr result (λ fault. IsRefused L.start (asked moment pieces limit tries me.old.front) me.new.front fault) }
    ensures counted { me.new.count ≡ me.old.count + entries_in result }
    ensures same { own_of me.new ≡ own_of me.old }
    ensures rises { me.old.front ≤ me.new.front }
{
    if !are_numbers(pieces, limit, tries) {
        return Err(OperatorFault::BadCount);
    }
    let ask = Ask {
        moment,
        pieces,
        limit,
        tries,
        front: me.front(),
    };
    do_act(rt, alloc, shared, me, &ask)
}
