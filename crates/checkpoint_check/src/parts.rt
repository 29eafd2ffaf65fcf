//! The parts of a checkpoint that came from outside, each tested in its turn.
ghost use Rattle.std.specs.Prelude.{◌≡◌, ℕ, true, IfOk, IfErr, OnOk};
ghost use Rattle.std.specs.Bool.{Decides};
ghost use Rattle.std.specs.FinMap as map;
ghost use Rattle.std.specs.Option.{option_copied};
ghost use Rattle.collections.specs.Refusal.{IsRefusal};
ghost use Rattle.lease.specs.Timeline.{IsValid, newest as newest_of};
ghost use Rattle.checkpoint.specs.Sound.{IsSound, IsCounted, AreSoundVersions, AreSoundElements, AreSoundPairs, AreSoundReorganisations, before_or, usable_before as usable_before_of};
ghost use Rattle.checkpoint_check.specs.Given.{given};
ghost use Rattle.checkpoint_check.specs.Refusals.{rank, Condition};
ghost use Rattle.checkpoint_check.specs.declared.fault.CheckpointFault.TheVariants.{Memory as OutOfMemory};
ghost use Rattle.checkpoint_check.specs.inner.Beside.{HaveSameKinds};
ghost use Rattle.checkpoint_check.specs.inner.Judged.{AllStrings};

use crate::agree::agrees;
use crate::beside::are_beside;
use crate::fault::CheckpointFault;
use crate::passed::are_tested;
use lease::Timeline;
use reorganise::Progress;
use row_map::PairView;
use schema_version::Schema;
use std::alloc::{AllocError, Global};

// Whether there is a version before the newest if and only if two were published.
fn is_counted(line: &Timeline, before: Option<&Schema>) -> bool
    ensures valid { IsValid line.now }
    ensures counted { Decides result (IsCounted (option_copied before.entry) (newest_of line.now)) }
{
    let published = line.newest();
    match before {
        None => published == 1,
        Some(_) => published >= 2,
    }
}

// Whether the timeline has published as many versions as there are, and none after the moment.
fn are_versions_sound(moment: u64, line: &Timeline, before: Option<&Schema>) -> bool
    ensures { Decides result (AreSoundVersions moment line.now (option_copied before.entry)) }
{
    is_counted(line, before) && line.last_publication() <= moment
}

// The version before the newest, if a lease on it may be in force.
fn usable_before<'a>(moment: u64, line: &Timeline, before: Option<&'a Schema>) -> Option<&'a Schema>
    ensures { option_copied result ≡ usable_before_of moment line.now (option_copied before.entry) }
{
    if moment < line.earliest() {
        before
    } else {
        None
    }
}

// The version that counts beside the newest.
fn beside<'a>(newest: &'a Schema, before: Option<&'a Schema>) -> &'a Schema
    ensures { result.now ≡ before_or newest.now (option_copied before.entry) }
{
    match before {
        Some(before) => before,
        None => newest,
    }
}

// Whether two versions may be in use beside each other.
fn are_elements_sound(before: &Schema, newest: &Schema) -> bool
    ensures sound { Decides result (AreSoundElements before.now newest.now) }
    ensures kinds { result ≡ true → HaveSameKinds before.now newest.now }
{
    let beside = are_beside(before, newest);
    before.lemma_known();
    newest.lemma_known();
    beside
}

// That a version has the kinds that it has: calling it does nothing.
fn lemma_own_kinds(schema: &Schema)
    ensures { HaveSameKinds schema.now schema.now }
{
    schema.lemma_known();
}

// Whether the pairs agree with the newest version, and with the one before it if that may be used.
fn are_pairs_sound<V: PairView>(
    alloc: Global,
    before: Option<&Schema>,
    newest: &Schema,
    view: &V,
) -> Result<bool, AllocError>
    requires { HaveSameKinds (before_or newest.now (option_copied before)) newest.now }
    ensures sound { IfOk result (λ sound. Decides sound (AreSoundPairs (before_or newest.now (option_copied before.entry)) newest.now (V.pairs view.now))) }
    ensures strings { IfOk result (λ sound. AllStrings (map.entries (V.pairs view.now))) }
{
    lemma_own_kinds(newest);
    if !agrees(alloc, newest, newest, view)? {
        return Ok(false);
    }
    match before {
        None => Ok(true),
        Some(before) => agrees(alloc, before, newest, view),
    }
}

// Whether the begun reorganisations are of elements that want them, and have done what they passed.
fn are_reorganisations_sound<V: PairView>(
    alloc: Global,
    before: &Schema,
    newest: &Schema,
    view: &V,
    begun: &[Progress],
) -> Result<bool, AllocError>
    requires strings { AllStrings (map.entries (V.pairs view.now)) }
    requires pairs { AreSoundPairs before.now newest.now (V.pairs view.now) }
    ensures { IfOk result (λ sound. Decides sound (AreSoundReorganisations before.now newest.now (V.pairs view.now) begun.now)) }
{
    newest.lemma_known();
    are_tested(alloc, before, newest, view, begun)
}

/// Tests a checkpoint that came from outside, as from a file. A world may open from one that stands
/// the test: its timeline, versions, pairs and begun reorganisations fit one another, and the
/// theorem on logs holds of what it says. The checkpoint of any log stands it.
///
/// It goes over all pairs once for each version that a lease may use, looks up the pairs of public
/// elements for each row and the row of each other pair, and goes once more over what has been
/// passed.
///
/// - `moment`: that of the last entry before the checkpoint.
/// - `line`: when the versions were published.
/// - `newest`: the newest version.
/// - `before`: the version before the newest, if there is one.
/// - `begun`: the reorganisations that have begun and are not over.
/// - `view`: the pairs.
///
/// The refusals, in their order: `BadVersions`, `BadElements`, `BadPairs`, `BadReorganisations`;
/// `Memory`, only if neither of the first two holds.
pub fn check<V: PairView>(
    alloc: Global,
    moment: u64,
    line: &Timeline,
    newest: &Schema,
    before: Option<&Schema>,
    begun: &[Progress],
    view: &V,
) -> Result<(), CheckpointFault>
    ensures sound { OnOk result ((place : ℕ) → IsSound (given place moment line.now newest.now (option_copied before.entry) begun.now (V.pairs view.now))) }
    ensures refused { IfErr result (λ fault. (place : ℕ) → IsRefusal rank (Condition (given place moment line.now newest.now (option_copied before.entry) begun.now (V.pairs view.now))) OutOfMemory fault) }
{
    if !are_versions_sound(moment, line, before) {
        return Err(CheckpointFault::BadVersions);
    }
    let usable = usable_before(moment, line, before);
    let beside = beside(newest, usable);
    if !are_elements_sound(beside, newest) {
        return Err(CheckpointFault::BadElements);
    }
    if !are_pairs_sound(alloc, usable, newest, view)? {
        return Err(CheckpointFault::BadPairs);
    }
    if !are_reorganisations_sound(alloc, beside, newest, view, begun)? {
        return Err(CheckpointFault::BadReorganisations);
    }
    Ok(())
}
