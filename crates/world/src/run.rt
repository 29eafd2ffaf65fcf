//! A list of calls, one after the other.
ghost use Rattle.std.specs.Prelude.{◌≡◌, IfOk, IfErr, OnErr};
ghost use Rattle.world.specs.Run.{Happens, Runs};
ghost use Rattle.world.specs.State.{Agrees, IsReplayed};

use crate::event::{Event, Reply};
use crate::world::World;
use std::alloc::{AllocError, Global};

impl World {
    // One event, and the theorem after it.
    fn happen(&mut self, alloc: Global, event: Event) -> Reply
        ensures step { Happens self.old event result self.new }
        ensures replayed { IsReplayed self.new }
        ensures agrees { Agrees self.new }
    {
        let reply = match event {
            Event::Lease { moment } => Reply::Lease(self.lease(alloc, moment)),
            Event::Commit { moment, prepared } => Reply::Commit(self.commit(
                alloc, moment, prepared,
            )),
            Event::Query {
                moment,
                lease,
                query,
            } => Reply::Query(self.query(alloc, moment, &lease, &query)),
            Event::Publish { moment, step } => Reply::Publish(self.publish(alloc, moment, &step)),
            Event::Begin {
                moment,
                element,
                pieces,
            } => Reply::Begin(self.begin_reorg(alloc, moment, element, pieces)),
            Event::Piece { moment, prepared } => {
                Reply::Piece(self.commit_piece(alloc, moment, prepared))
            }
        };
        self.lemma_agrees();
        reply
    }

    /// Runs events in their order, from any servers, with any leases and moments, and gives one
    /// reply for each.
    ///
    /// Refused only when out of memory, before the first event; the events come back then, and
    /// nothing changed. An event that is refused has its refusal as its reply, and the next event
    /// runs. After each event the pairs are those that the log gives, and agree with the rows of
    /// the log for every version that a lease may still use.
    pub fn run(
        &mut self,
        alloc: Global,
        events: Vec<Event>,
    ) -> Result<Vec<Reply>, (AllocError, Vec<Event>)>
        ensures ran { IfOk result (λ replies. Runs self.old events.items replies.items self.new) }
        ensures back { IfErr result (λ refusal. refusal.1 ≡ events) }
        ensures same { OnErr result (self.new ≡ self.old) }
        ensures replayed { IsReplayed self.new }
        ensures agrees { Agrees self.new }
    {
        let mut replies = Vec::new(alloc);
        if let Err(error) = replies.reserve(events.len()) {
            self.lemma_agrees();
            return Err((error, events));
        }
        for event in events {
            let reply = self.happen(alloc, event);
            if replies.push(reply).is_err() {
                unreachable!();
            }
        }
        self.lemma_agrees();
        Ok(replies)
    }
}
