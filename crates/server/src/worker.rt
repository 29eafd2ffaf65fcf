//! One worker: a server that commits the requests whose numbers it draws.
ghost use Rattle.std.specs.Prelude.{◌≡◌, ℕ, ◌+◌, ◌≤◌, List, length, All};
ghost use Rattle.std.specs.List.{Contains};
ghost use Rattle.server.specs.declared.request.Request.{Request as Asked};
ghost use Rattle.locked_store.specs.Known.{own_of};
ghost use Rattle.server.specs.HandlePorts.{HasSeen, SaidByCore};
ghost use Rattle.server.specs.Outcomes.{IsHeld, IsLeaseReceipt, IsServed, Sees, receipts_of, tries_of};
ghost use Rattle.server.specs.Tallies.{tally};
ghost use Rattle.server.specs.Works.{Orders, IsOutcomeOf, IsOutcomeAt};

use crate::handle_port::HandlePort;
use crate::one_request::serve_under;
use crate::request::{Outcome, Request};
use crate::tally::{Last, Tally};
use collections::ArcValue;
use lease::Lease;
use locked_store::SharedLedger;
use schema_version::Schema;
use std::alloc::Global;
use std::marker::Model;
use std::sync::Wait;
use tasks::Worker;

/// A server at its port, and the requests that all servers share.
#[derive(Drop)]
pub(crate) struct RequestWorker<'a, L: SharedLedger, R: Wait> {
    pub(crate) port: HandlePort<'a, L, R>,
    /// The lease at hand, if it may still serve, with the schema of its version.
    pub(crate) held: Option<(Lease, ArcValue<Schema>)>,
    pub(crate) requests: &'a [Request],
    pub(crate) tries: u32,
    /// The least front with which a handle of theirs came.
    pub(crate) front: u64,
    /// The greatest one.
    pub(crate) most: u64,
    /// The front with which its own handle came.
    pub(crate) first_front: u64,
}

impl<'a, L: SharedLedger, R: Wait> Model for RequestWorker<'a, L, R> {
    ghost use Rattle.server.specs.HandlePorts.{SaidByCore};
    ghost use Rattle.server.specs.Outcomes.{IsHeld};
    ghost use Rattle.server.specs.Works.{Serving, IsAtWork};

    ghost Value = { Serving };

    ghost view = { λ w. record { handle = w.port.handle; first_front = w.first_front; kept_receipts = w.port.kept_receipts.items; orders = record { requests = w.requests.now; tries = w.tries; front = w.front; most = w.most } } };

    ghost invariant = { λ w. IsAtWork L.start (record { handle = w.port.handle; first_front = w.first_front; kept_receipts = w.port.kept_receipts.items; orders = record { requests = w.requests.now; tries = w.tries; front = w.front; most = w.most } }) × IsHeld (SaidByCore L.start w.front w.most) w.requests.now w.held };
}

// The outcome of one request, by a tally of its own, and the lease at hand then.
#[tactic(auto, using(crate::proofs::Ends::reported_by))]
fn outcome_of<L: SharedLedger, R: Wait>(
    alloc: Global,
    port: &mut HandlePort<L, R>,
    request: &Request,
    tries: u32,
    held: Option<(Lease, ArcValue<Schema>)>,
) -> (Outcome, Option<(Lease, ArcValue<Schema>)>)
    requires tries { (1 ≤ tries) × (tries ≤ 1000) }
    ensures served { IsServed tries (tally 0 Last.Nothing) result.0 port.new.tally }
    ensures own { (f m : ℕ) (requests : List Asked) → Sees (HasSeen L.start) f m port.old.handle.front → Contains requests request.now → IsHeld (SaidByCore L.start f m) requests held → IsOutcomeOf L.start f m requests request.now tries result.0 }
    ensures held { (f m : ℕ) (requests : List Asked) → Sees (HasSeen L.start) f m port.old.handle.front → Contains requests request.now → IsHeld (SaidByCore L.start f m) requests held → IsHeld (SaidByCore L.start f m) requests result.1 }
    ensures leases { (f m : ℕ) → Sees (HasSeen L.start) f m port.old.handle.front → All (IsLeaseReceipt (SaidByCore L.start f m)) port.old.kept_receipts.items → All (IsLeaseReceipt (SaidByCore L.start f m)) port.new.kept_receipts.items }
    ensures rises { port.old.handle.front ≤ port.new.handle.front }
    ensures stays { (m : ℕ) → HasSeen L.start m port.old.handle.front → HasSeen L.start m port.new.handle.front }
    ensures same { own_of port.new.handle ≡ own_of port.old.handle }
    ensures refusals { port.old.handle.refused + tries_of result.0 ≤ port.new.handle.refused }
    ensures counted { port.new.handle.count + length port.old.kept_receipts.items ≡ port.old.handle.count + length port.new.kept_receipts.items + receipts_of result.0 }
{
    port.tally = Tally {
        retries: 0,
        last: Last::Nothing,
    };
    serve_under(alloc, port, request, tries, held)
}

impl<'a, L: SharedLedger, R: Wait> Worker for RequestWorker<'a, L, R> {
    ghost use Rattle.std.specs.Prelude.{ℕ, length};
    ghost use Rattle.locked_store.specs.Known.{own_of};
    ghost use Rattle.server.specs.Outcomes.{receipts_of, tries_of};
    ghost use Rattle.server.specs.Works.{Orders, IsOutcomeAt};

    type Outcome = Outcome;

    ghost Plan = { Orders };

    ghost plan = { λ w. w.orders };

    ghost total = { λ orders. length orders.requests };

    ghost Id = { (ℕ × ℕ) × ℕ };

    ghost id = { λ w. (own_of w.handle, w.first_front) };

    ghost count = { λ w. w.handle.count };

    ghost kept_receipts = { λ w. length w.kept_receipts };

    ghost held = { receipts_of };

    ghost failed = { λ w. w.handle.refused };

    ghost reported = { tries_of };

    ghost fits = { IsOutcomeAt L.start };

    fn perform(&mut self, alloc: Global, number: usize) -> Outcome {
        let RequestWorker {
            port,
            held,
            requests,
            tries,
            ..
        } = self;
        let (outcome, next) = outcome_of(alloc, port, &requests[number], *tries, held.take());
        *held = next;
        outcome
    }

    fn held_back() -> Outcome
        ensures is { result ≡ Outcome.Held }
        ensures none { receipts_of result ≡ 0 }
        ensures untried { tries_of result ≡ 0 }
        ensures fits { (orders : Orders) (number : ℕ) → IsOutcomeAt L.start orders number result }
    {
        Outcome::Held
    }

    fn undrawn() -> Outcome
        ensures is { result ≡ Outcome.Memory }
        ensures none { receipts_of result ≡ 0 }
        ensures untried { tries_of result ≡ 0 }
        ensures fits { (orders : Orders) (number : ℕ) → IsOutcomeAt L.start orders number result }
    {
        Outcome::Memory
    }
}
