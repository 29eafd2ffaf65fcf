//! One request, tried until a try ends otherwise than in a conflict or with the end of its lease.
ghost use Rattle.std.specs.Prelude.{◌≡◌, ℕ, ◌+◌, ◌<◌, ◌≤◌, ◌^◌, ◌∷◌, List, [], length, All, IfOk, IfErr};
ghost use Rattle.std.specs.List.{Contains};
ghost use Rattle.server.specs.declared.request.Request.{Request as Asked};
ghost use Rattle.server.specs.Outcomes.{Sees, IsAgain, IsEnd, IsHeld, IsInForce, IsLeaseReceipt, IsServed, IsTrueOf, WasGranted, receipts_of, receipts_by, unprepared_by};
ghost use Rattle.server.specs.inner.Tries.{EndsWith, HasFailed, IsLeft, IsTrueOfTry, StayLeases, TakesNone, receipts_in, retries_after};

use crate::port::Port;
use crate::request::{Outcome, Request};
use collections::ArcValue;
use lease::Lease;
use locked_store::SharedFault;
use locked_store::world::{CommitFault, Committed, GrantFault};
use row_write::{PrepareFault, Prepared, RowOps, prepare_shared, reads_of};
use schema_version::Schema;
use std::alloc::{AllocError, Global};

// The lease at hand, or else a new one.
fn held_or_new<P: Port>(
    alloc: Global,
    port: &mut P,
    request: &Request,
    held: Option<(Lease, ArcValue<Schema>)>,
) -> Result<(Lease, ArcValue<Schema>), Outcome>
    requires room { (P.tally port.old).retries < 2 ^ 63 }
    ensures granted { (f m : ℕ) (requests : List Asked) → Sees P.has_seen f m (P.front port.old) → Contains requests request.now → IsHeld (P.may f m) requests held → IfOk result (λ h. WasGranted (P.may f m) requests h.0 h.1) }
    ensures over { IfErr result (λ o. IsEnd o (P.tally port.new).last) }
    ensures own { (f m n : ℕ) (requests : List Asked) → Sees P.has_seen f m (P.front port.old) → IfErr result (λ o. IsTrueOf (P.may f m) requests request.now.moment request.now.ops n o) }
    ensures retries { (P.tally port.new).retries ≡ (P.tally port.old).retries }
    ensures own_handle { P.id port.new ≡ P.id port.old }
    ensures refusals { P.refused port.old + (P.tally port.new).retries ≤ P.refused port.new + (P.tally port.old).retries }
    ensures rises { P.front port.old ≤ P.front port.new }
    ensures stays { (m : ℕ) → P.has_seen m (P.front port.old) → P.has_seen m (P.front port.new) }
    ensures counted { P.count port.new + length (P.kept_receipts port.old) ≡ P.count port.old + length (P.kept_receipts port.new) + receipts_by result }
    ensures kept_receipts { (f m : ℕ) → Sees P.has_seen f m (P.front port.old) → StayLeases (P.may f m) (P.kept_receipts port.old) (P.kept_receipts port.new) }
    ensures none { TakesNone held (P.kept_receipts port.old) (P.kept_receipts port.new) }
{
    if let Some(held) = held {
        return Ok(held);
    }
    match port.lease(alloc, request.moment) {
        Ok(granted) => Ok(granted),
        Err(SharedFault::WentBack { seen }) => Err(Outcome::WentBack { seen }),
        Err(SharedFault::World(GrantFault::MomentTooLarge)) => {
            Err(Outcome::Rejected(CommitFault::MomentTooLarge))
        }
        Err(SharedFault::World(GrantFault::Memory)) => Err(Outcome::Memory),
    }
}

// The request's operations, with one owner more: the log.
fn ops_of(request: &Request) -> Result<ArcValue<RowOps>, AllocError>
    ensures { IfOk result (λ ops. ops ≡ request.now.ops) }
{
    request.ops.clone()
}

// What is reported of a request that is not prepared.
fn unprepared_outcome(fault: PrepareFault) -> Outcome
    ensures { result ≡ unprepared_by fault }
{
    match fault {
        PrepareFault::Memory => Outcome::Memory,
        fault => Outcome::Unprepared(fault),
    }
}

// What is prepared of the request by what the port reads, outside of any lock.
fn prepared_by<P: Port>(
    alloc: Global,
    port: &mut P,
    request: &Request,
    lease: Lease,
    schema: &ArcValue<Schema>,
) -> Result<Prepared, Outcome>
    requires room { (P.tally port.old).retries < 2 ^ 63 }
    ensures of_request { IfOk result (λ p. p.ops ≡ request.now.ops) }
    ensures over { IfErr result (λ o. IsEnd o (P.tally port.new).last) }
    ensures own { (f m n : ℕ) (requests : List Asked) → Sees P.has_seen f m (P.front port.old) → WasGranted (P.may f m) requests lease schema.now → IfErr result (λ o. IsTrueOf (P.may f m) requests request.now.moment request.now.ops n o) }
    ensures retries { (P.tally port.new).retries ≡ (P.tally port.old).retries }
    ensures own_handle { P.id port.new ≡ P.id port.old }
    ensures refusals { P.refused port.old + (P.tally port.new).retries ≤ P.refused port.new + (P.tally port.old).retries }
    ensures rises { P.front port.old ≤ P.front port.new }
    ensures stays { (m : ℕ) → P.has_seen m (P.front port.old) → P.has_seen m (P.front port.new) }
    ensures counted { P.count port.new + length (P.kept_receipts port.old) ≡ P.count port.old + length (P.kept_receipts port.new) + receipts_by result }
    ensures kept_receipts { P.kept_receipts port.new ≡ P.kept_receipts port.old }
{
    let Ok(keys) = reads_of(alloc, schema.get(), request.as_slice()) else {
        return Err(Outcome::Memory);
    };
    let view = match port.read(alloc, &keys) {
        Ok(view) => view,
        Err(SharedFault::WentBack { seen }) => return Err(Outcome::WentBack { seen }),
        Err(SharedFault::World(_)) => return Err(Outcome::Memory),
    };
    let Ok(schema) = schema.clone() else {
        return Err(Outcome::Memory);
    };
    let Ok(ops) = ops_of(request) else {
        return Err(Outcome::Memory);
    };
    match prepare_shared(alloc, schema, lease, ops, view) {
        Ok(prepared) => Ok(prepared),
        Err((fault, _)) => Err(unprepared_outcome(fault)),
    }
}

// Commits what was prepared. If another try is to follow: whether the lease still serves.
fn committed_by<P: Port>(
    alloc: Global,
    port: &mut P,
    request: &Request,
    prepared: Prepared,
) -> Result<bool, Outcome>
    requires room { (P.tally port.old).retries < 2 ^ 63 }
    requires of_request { prepared.ops ≡ request.now.ops }
    ensures again { IfOk result (λ serves. IsAgain serves (P.tally port.new).last) }
    ensures failed { (f m : ℕ) → Sees P.has_seen f m (P.front port.old) → IfOk result (λ _. HasFailed (P.may f m) request.now.moment request.now.ops) }
    ensures over { IfErr result (λ o. IsEnd o (P.tally port.new).last) }
    ensures own { (f m n : ℕ) (requests : List Asked) → Sees P.has_seen f m (P.front port.old) → IfErr result (λ o. IsTrueOf (P.may f m) requests request.now.moment request.now.ops n o) }
    ensures more { IfOk result (λ _. (P.tally port.new).retries ≡ (P.tally port.old).retries + 1) }
    ensures once { IfErr result (λ _. (P.tally port.new).retries ≡ (P.tally port.old).retries) }
    ensures own_handle { P.id port.new ≡ P.id port.old }
    ensures refusals { P.refused port.old + (P.tally port.new).retries ≤ P.refused port.new + (P.tally port.old).retries }
    ensures rises { P.front port.old ≤ P.front port.new }
    ensures stays { (m : ℕ) → P.has_seen m (P.front port.old) → P.has_seen m (P.front port.new) }
    ensures counted { P.count port.new + length (P.kept_receipts port.old) ≡ P.count port.old + length (P.kept_receipts port.new) + receipts_by result }
    ensures kept_receipts { P.kept_receipts port.new ≡ P.kept_receipts port.old }
{
    match port.commit(alloc, request.moment, prepared) {
        Ok(Committed::Done(receipt)) => Err(Outcome::Done(receipt)),
        Ok(Committed::Refused { op, why }) => Err(Outcome::Row { op, why }),
        Err((SharedFault::WentBack { seen }, _)) => Err(Outcome::WentBack { seen }),
        Err((SharedFault::World(CommitFault::Conflict { key: _ }), _)) => Ok(true),
        Err((SharedFault::World(CommitFault::LeaseEnded { .. }), _)) => Ok(false),
        Err((SharedFault::World(CommitFault::MomentTooLarge), _)) => {
            Err(Outcome::Rejected(CommitFault::MomentTooLarge))
        }
        Err((SharedFault::World(CommitFault::BadLease), _)) => {
            Err(Outcome::Rejected(CommitFault::BadLease))
        }
        Err((SharedFault::World(CommitFault::WrongSchema), _)) => {
            Err(Outcome::Rejected(CommitFault::WrongSchema))
        }
        Err((SharedFault::World(CommitFault::Memory), _)) => Err(Outcome::Memory),
    }
}

// One try under a lease. If another is to follow: whether the lease still serves.
fn try_under<P: Port>(
    alloc: Global,
    port: &mut P,
    request: &Request,
    lease: Lease,
    schema: &ArcValue<Schema>,
) -> Result<bool, Outcome>
    requires room { (P.tally port.old).retries < 2 ^ 63 }
    ensures again { IfOk result (λ serves. IsAgain serves (P.tally port.new).last) }
    ensures failed { (f m : ℕ) → Sees P.has_seen f m (P.front port.old) → IfOk result (λ _. HasFailed (P.may f m) request.now.moment request.now.ops) }
    ensures over { IfErr result (λ o. IsEnd o (P.tally port.new).last) }
    ensures own { (f m n : ℕ) (requests : List Asked) → Sees P.has_seen f m (P.front port.old) → WasGranted (P.may f m) requests lease schema.now → IfErr result (λ o. IsTrueOf (P.may f m) requests request.now.moment request.now.ops n o) }
    ensures more { IfOk result (λ _. (P.tally port.new).retries ≡ (P.tally port.old).retries + 1) }
    ensures once { IfErr result (λ _. (P.tally port.new).retries ≡ (P.tally port.old).retries) }
    ensures own_handle { P.id port.new ≡ P.id port.old }
    ensures refusals { P.refused port.old + (P.tally port.new).retries ≤ P.refused port.new + (P.tally port.old).retries }
    ensures rises { P.front port.old ≤ P.front port.new }
    ensures stays { (m : ℕ) → P.has_seen m (P.front port.old) → P.has_seen m (P.front port.new) }
    ensures counted { P.count port.new + length (P.kept_receipts port.old) ≡ P.count port.old + length (P.kept_receipts port.new) + receipts_by result }
    ensures kept_receipts { P.kept_receipts port.new ≡ P.kept_receipts port.old }
{
    let prepared = prepared_by(alloc, port, request, lease, schema)?;
    committed_by(alloc, port, request, prepared)
}

// One try: its outcome, or none if another is to follow; and the lease, if it still serves.
fn try_once<P: Port>(
    alloc: Global,
    port: &mut P,
    request: &Request,
    held: Option<(Lease, ArcValue<Schema>)>,
) -> (Option<Outcome>, Option<(Lease, ArcValue<Schema>)>)
    requires room { (P.tally port.old).retries < 2 ^ 63 }
    ensures held { (f m : ℕ) (requests : List Asked) → Sees P.has_seen f m (P.front port.old) → Contains requests request.now → IsHeld (P.may f m) requests held → IsHeld (P.may f m) requests result.1 }
    ensures ends { EndsWith result.0 result.1 (P.tally port.new).last }
    ensures own { (f m n : ℕ) (requests : List Asked) → Sees P.has_seen f m (P.front port.old) → Contains requests request.now → IsHeld (P.may f m) requests held → IsTrueOfTry (P.may f m) requests request.now.moment request.now.ops n result.0 }
    ensures retries { (P.tally port.new).retries ≡ retries_after (P.tally port.old).retries result.0 }
    ensures own_handle { P.id port.new ≡ P.id port.old }
    ensures refusals { P.refused port.old + (P.tally port.new).retries ≤ P.refused port.new + (P.tally port.old).retries }
    ensures rises { P.front port.old ≤ P.front port.new }
    ensures stays { (m : ℕ) → P.has_seen m (P.front port.old) → P.has_seen m (P.front port.new) }
    ensures counted { P.count port.new + length (P.kept_receipts port.old) ≡ P.count port.old + length (P.kept_receipts port.new) + receipts_in result.0 }
    ensures kept_receipts { (f m : ℕ) → Sees P.has_seen f m (P.front port.old) → StayLeases (P.may f m) (P.kept_receipts port.old) (P.kept_receipts port.new) }
    ensures none { TakesNone held (P.kept_receipts port.old) (P.kept_receipts port.new) }
{
    let (lease, schema) = match held_or_new(alloc, port, request, held) {
        Ok(held) => held,
        Err(outcome) => return (Some(outcome), None),
    };
    match try_under(alloc, port, request, lease, &schema) {
        Ok(true) => (None, Some((lease, schema))),
        Ok(false) => (None, None),
        Err(outcome) => (Some(outcome), Some((lease, schema))),
    }
}

// The lease at hand, unless it has ended at this moment.
fn in_force(
    held: Option<(Lease, ArcValue<Schema>)>,
    moment: u64,
) -> Option<(Lease, ArcValue<Schema>)>
    ensures { IsLeft moment held result }
{
    let (lease, schema) = held?;
    if moment < lease.until {
        Some((lease, schema))
    } else {
        None
    }
}

/// Serves one request through a port, under the lease at hand while that is in force. A try is a
/// lease if there is none at hand, a read, a preparation and a commit. One that ends in a conflict is
/// followed by another under the same lease, and one whose lease has ended by another under a new
/// one. The lease comes back with the outcome, if it may still serve.
///
/// - `request`: the operations, and the moment of each lease and commit.
/// - `tries`: how many such tries there are at most, from 1 to 1,000. After so many the outcome is
///   `Busy`.
/// - `held`: the lease at hand, with the schema of its version; it is not used if it ends at the
///   request's moment or before.
///
/// A new lease is taken if there is none at hand, if it has ended, or if a commit under it was
/// refused since it had. All else is as of `serve_one`, of which what the outcome tells holds with a
/// lease that was granted earlier.
#[tactic(auto, using(crate::proofs::Ends::served))]
pub fn serve_under<P: Port>(
    alloc: Global,
    port: &mut P,
    request: &Request,
    tries: u32,
    held: Option<(Lease, ArcValue<Schema>)>,
) -> (Outcome, Option<(Lease, ArcValue<Schema>)>)
    requires tries { (1 ≤ tries) × (tries ≤ 1000) }
    requires room { (P.tally port.old).retries ≤ 2 ^ 62 }
    ensures served { IsServed tries (P.tally port.old) result.0 (P.tally port.new) }
    ensures own { (f m : ℕ) (requests : List Asked) → Sees P.has_seen f m (P.front port.old) → Contains requests request.now → IsHeld (P.may f m) requests held → IsTrueOf (P.may f m) requests request.now.moment request.now.ops tries result.0 }
    ensures held { (f m : ℕ) (requests : List Asked) → Sees P.has_seen f m (P.front port.old) → Contains requests request.now → IsHeld (P.may f m) requests held → IsHeld (P.may f m) requests result.1 }
    ensures none { IsInForce request.now.moment held → (P.tally port.new).retries ≡ (P.tally port.old).retries → P.kept_receipts port.new ≡ P.kept_receipts port.old }
    ensures few { (P.tally port.new).retries ≤ (P.tally port.old).retries + tries }
    ensures own_handle { P.id port.new ≡ P.id port.old }
    ensures refusals { P.refused port.old + (P.tally port.new).retries ≤ P.refused port.new + (P.tally port.old).retries }
    ensures rises { P.front port.old ≤ P.front port.new }
    ensures stays { (m : ℕ) → P.has_seen m (P.front port.old) → P.has_seen m (P.front port.new) }
    ensures counted { P.count port.new + length (P.kept_receipts port.old) ≡ P.count port.old + length (P.kept_receipts port.new) + receipts_of result.0 }
    ensures kept_receipts { (f m : ℕ) → Sees P.has_seen f m (P.front port.old) → All (IsLeaseReceipt (P.may f m)) (P.kept_receipts port.old) → All (IsLeaseReceipt (P.may f m)) (P.kept_receipts port.new) }
{
    let mut at_hand = in_force(held, request.moment);
    for _i in 0..tries {
        let (outcome, next) = try_once(alloc, port, request, at_hand);
        at_hand = next;
        if let Some(outcome) = outcome {
            return (outcome, at_hand);
        }
    }
    (Outcome::Busy { tries }, at_hand)
}

/// Serves one request through a port, under a lease of its own. A try is a lease if there is none at
/// hand, a read, a preparation and a commit. One that ends in a conflict is followed by another
/// under the same lease, and one whose lease has ended by another under a new one.
///
/// - `request`: the operations, and the moment of each lease and commit.
/// - `tries`: how many such tries there are at most, from 1 to 1,000. After so many the outcome is
///   `Busy`.
///
/// A lease that is refused with `MomentTooLarge` gives `Rejected` with it, and running out of
/// memory `Memory`.
///
/// What the outcome tells is what the port said after all that it had seen when the call began:
/// `Done` has the receipt of a commit of the operations at the request's moment, `Row` and
/// `Rejected` have a refusal, `Unprepared` comes of a lease that was granted at that moment and of
/// what was read under it, `WentBack` has a length of the log that is below a front of the port, and
/// `Busy` comes after that many tries that ended in a conflict or with the end of their lease. The
/// receipts that the port keeps are of leases.
pub fn serve_one<P: Port>(alloc: Global, port: &mut P, request: &Request, tries: u32) -> Outcome
    requires tries { (1 ≤ tries) × (tries ≤ 1000) }
    requires room { (P.tally port.old).retries ≤ 2 ^ 62 }
    ensures served { IsServed tries (P.tally port.old) result (P.tally port.new) }
    ensures own { (f m : ℕ) → Sees P.has_seen f m (P.front port.old) → IsTrueOf (P.may f m) (request.now ∷ []) request.now.moment request.now.ops tries result }
    ensures few { (P.tally port.new).retries ≤ (P.tally port.old).retries + tries }
    ensures own_handle { P.id port.new ≡ P.id port.old }
    ensures refusals { P.refused port.old + (P.tally port.new).retries ≤ P.refused port.new + (P.tally port.old).retries }
    ensures rises { P.front port.old ≤ P.front port.new }
    ensures stays { (m : ℕ) → P.has_seen m (P.front port.old) → P.has_seen m (P.front port.new) }
    ensures counted { P.count port.new + length (P.kept_receipts port.old) ≡ P.count port.old + length (P.kept_receipts port.new) + receipts_of result }
    ensures kept_receipts { (f m : ℕ) → Sees P.has_seen f m (P.front port.old) → All (IsLeaseReceipt (P.may f m)) (P.kept_receipts port.old) → All (IsLeaseReceipt (P.may f m)) (P.kept_receipts port.new) }
{
    let (outcome, _held) = serve_under(alloc, port, request, tries, None);
    outcome
}
