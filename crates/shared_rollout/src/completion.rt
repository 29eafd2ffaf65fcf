//! All changes that are under way, brought to their end through the lock.
ghost use Rattle.std.specs.Prelude.{◌≡◌, ◌+◌, ◌<◌, ◌≤◌, ◌++◌, ◌↔◌, All, IfOk, IfErr, length, vec_len, vec_capacity};
ghost use Rattle.locked_store.specs.Known.{own_of};
ghost use Rattle.locked_store.specs.Receipts.{IsLogged};
ghost use Rattle.shared_rollout.specs.Operator.{AreNumbers, HasCompleted, HasStopped, next_of, receipts_of};
ghost use Rattle.shared_rollout.specs.declared.fault.OperatorFault.TheVariants.{BadCount};
ghost use Rattle.shared_rollout.specs.inner.Attempts.{ActsAndKeeps};

use crate::advanced::do_act;
use crate::ask::{Ask, are_numbers};
use crate::fault::OperatorFault;
use locked_store::rollout::Advanced;
use locked_store::world::Receipt;
use locked_store::{Handle, Shared, SharedLedger};
use std::alloc::Global;
use std::sync::Wait;

// Keeps the receipt of an act, and tells the moment of the next one; `None` if no change is under
// way.
fn keep(done: Advanced, moment: u64, receipts: &mut Vec<Receipt>) -> Option<u64>
    requires room { vec_len receipts.old < vec_capacity receipts.old }
    ensures next { result ≡ next_of moment done }
    ensures receipts { receipts.new.items ≡ receipts.old.items ++ receipts_of done }
{
    match done {
        Advanced::Began { receipt, .. } | Advanced::Published { receipt, .. } => {
            receipts.push_reserved(receipt);
            Some(moment)
        }
        Advanced::Worked { done, .. } => {
            receipts.push_reserved(done.receipt);
            Some(moment)
        }
        Advanced::Waiting { until } => Some(until),
        Advanced::Finished => None,
    }
}

// One act. The receipt's room is made first.
fn act_and_keep<L: SharedLedger, R: Wait>(
    rt: &R,
    alloc: Global,
    shared: &Shared<L>,
    me: &mut Handle<L>,
    receipts: &mut Vec<Receipt>,
    ask: &Ask,
) -> Result<Option<u64>, OperatorFault>
    requires seen { ask.now.front ≤ me.old.front }
    ensures { ActsAndKeeps L.start ask.now me.old receipts.old.items result me.new receipts.new.items }
{
    if receipts.reserve(1).is_err() {
        return Err(OperatorFault::Memory);
    }
    match do_act(rt, alloc, shared, me, ask) {
        Ok(done) => Ok(keep(done, ask.moment, receipts)),
        Err(fault) => Err(fault),
    }
}

/// Does what is due, act after act, until no change is under way, and returns the moment at which
/// it found that, in the log that the handle has then seen. If nothing can be done before a moment,
/// it goes on at that moment. Other operators may do the same at once, and servers may write.
///
/// It ends only when no change is under way, or with a refusal: if others begin changes for ever,
/// it goes on for ever.
///
/// - `me`: a handle of the shared world.
/// - `receipts`: the receipt of each act is pushed to them, also if the call is refused in the end.
///   Each act was due, and was done, after all that the handle had seen by then, so their places
///   rise.
/// - `moment`: the effective moment of each call is the greater of it and the moment of the last
///   entry.
/// - `pieces`: in how many pieces a fill or a clear begins, 1 to 64.
/// - `limit`: how many items of a piece are worked at a time, 1 to 1,000.
/// - `tries`: how often others may be first at one act, 1 to 1,000,000.
///
/// Refused by the names of `OperatorFault`: first `BadCount`, if a number is out of its range; then
/// as `advance` is refused at the act that is due, or with `Memory` if there is no room for its
/// receipt. What was done before stays, so a second call goes on.
pub fn complete<L: SharedLedger, R: Wait>(
    rt: &R,
    alloc: Global,
    shared: &Shared<L>,
    me: &mut Handle<L>,
    receipts: &mut Vec<Receipt>,
    moment: u64,
    pieces: u32,
    limit: u32,
    tries: u32,
) -> Result<u64, OperatorFault>
    ensures numbers { IfOk result (λ _. AreNumbers pieces limit tries) }
    ensures done { IfOk result (λ now. (moment ≤ now) × HasCompleted L.start pieces limit tries me.old.front moment receipts.old.items now me.new.front receipts.new.items) }
    ensures order { IfErr result (λ fault. (fault ≡ BadCount) ↔ (¬ (AreNumbers pieces limit tries))) }
    ensures stopped { IfErr result (λ fault. HasStopped L.start pieces limit tries me.old.front moment receipts.old.items fault me.new.front receipts.new.items) }
    ensures counted { me.new.count + length receipts.old.items ≡ me.old.count + length receipts.new.items }
    ensures logged { All (IsLogged L.start me.old.front) receipts.old.items → All (IsLogged L.start me.old.front) receipts.new.items }
    ensures same { own_of me.new ≡ own_of me.old }
    ensures rises { me.old.front ≤ me.new.front }
{
    if !are_numbers(pieces, limit, tries) {
        return Err(OperatorFault::BadCount);
    }
    let mut now = moment;
    for _i in rt.forever() {
        let ask = Ask {
            moment: now,
            pieces,
            limit,
            tries,
            front: me.front(),
        };
        match act_and_keep(rt, alloc, shared, me, receipts, &ask) {
            Ok(Some(next)) => now = next,
            Ok(None) => return Ok(now),
            Err(fault) => return Err(fault),
        }
    }
    unreachable!()
}
