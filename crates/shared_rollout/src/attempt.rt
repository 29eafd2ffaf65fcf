//! One look at what is due, and one try to do it.
ghost use Rattle.std.specs.Prelude.{◌≡◌, ◌≤◌};
ghost use Rattle.locked_store.specs.Act.TheVariants as act;
ghost use Rattle.shared_rollout.specs.Operator.{WasDue, WasRead};
ghost use Rattle.shared_rollout.specs.inner.Attempts.{Attempts};

use crate::answers::{of_begin, of_commit, of_look, of_publish, of_read};
use crate::ask::Ask;
use crate::fault::OperatorFault;
use locked_store::rollout::{Act, Advanced};
use locked_store::{Handle, Shared, SharedLedger};
use reorganise::{PieceView, prepare_piece};
use schema_version::Step;
use std::alloc::Global;
use std::sync::Wait;

// Begins a fill or a clear that was due.
fn begin<L: SharedLedger, R: Wait>(
    rt: &R,
    alloc: Global,
    shared: &Shared<L>,
    me: &mut Handle<L>,
    ask: &Ask,
    element: u32,
) -> Result<Option<Advanced>, OperatorFault>
    requires seen { ask.now.front ≤ me.old.front }
    requires due { WasDue L.start ask.now (act.Begin element) }
    ensures { Attempts L.start ask.now me.old result me.new }
{
    let answer = shared.begin_reorg(rt, alloc, me, ask.moment, element, ask.pieces);
    of_begin(element, answer)
}

// Publishes a step that was due.
fn publish<L: SharedLedger, R: Wait>(
    rt: &R,
    alloc: Global,
    shared: &Shared<L>,
    me: &mut Handle<L>,
    ask: &Ask,
    step: &Step,
) -> Result<Option<Advanced>, OperatorFault>
    requires seen { ask.now.front ≤ me.old.front }
    requires due { WasDue L.start ask.now (act.Publish step.now) }
    ensures { Attempts L.start ask.now me.old result me.new }
{
    let answer = shared.publish(rt, alloc, me, ask.moment, step);
    of_publish(answer)
}

// Prepares what was read, outside of any lock, and commits it.
fn commit<L: SharedLedger, R: Wait>(
    rt: &R,
    alloc: Global,
    shared: &Shared<L>,
    me: &mut Handle<L>,
    ask: &Ask,
    element: u32,
    view: PieceView,
) -> Result<Option<Advanced>, OperatorFault>
    requires seen { ask.now.front ≤ me.old.front }
    requires due { WasDue L.start ask.now (act.Work element) }
    requires read { WasRead L.start ask.now element view }
    ensures { Attempts L.start ask.now me.old result me.new }
{
    let Ok(prepared) = prepare_piece(alloc, view) else {
        return Err(OperatorFault::Memory);
    };
    let answer = shared.commit_piece(rt, alloc, me, ask.moment, prepared);
    of_commit(element, answer)
}

// Works the next items of a reorganisation that was due.
fn work<L: SharedLedger, R: Wait>(
    rt: &R,
    alloc: Global,
    shared: &Shared<L>,
    me: &mut Handle<L>,
    ask: &Ask,
    element: u32,
) -> Result<Option<Advanced>, OperatorFault>
    requires seen { ask.now.front ≤ me.old.front }
    requires due { WasDue L.start ask.now (act.Work element) }
    ensures { Attempts L.start ask.now me.old result me.new }
{
    match shared.next_view(rt, alloc, me, element, ask.limit) {
        Ok(Some(view)) => commit(rt, alloc, shared, me, ask, element, view),
        Ok(None) => Ok(None),
        Err(fault) => of_read(fault),
    }
}

/// Looks at what is due, and tries to do it: `None` if another was first.
pub(crate) fn attempt_act<L: SharedLedger, R: Wait>(
    rt: &R,
    alloc: Global,
    shared: &Shared<L>,
    me: &mut Handle<L>,
    ask: &Ask,
) -> Result<Option<Advanced>, OperatorFault>
    requires seen { ask.now.front ≤ me.old.front }
    ensures { Attempts L.start ask.now me.old result me.new }
{
    match shared.due(rt, alloc, me, ask.moment) {
        Ok(Act::Begin { element }) => begin(rt, alloc, shared, me, ask, element),
        Ok(Act::Publish { step }) => publish(rt, alloc, shared, me, ask, &step),
        Ok(Act::Work { element }) => work(rt, alloc, shared, me, ask, element),
        Ok(Act::Wait { until }) => Ok(Some(Advanced::Waiting { until })),
        Ok(Act::Nothing) => Ok(Some(Advanced::Finished)),
        Err(fault) => Err(of_look(fault)),
    }
}
