//! The engine over a store that someone else runs: each function is a call of `layer_calls`, whose
//! bytes are written to those of the caller.
ghost use Rattle.layer_calls.specs.Given.{Answer, With, GivesVersion, GivesReorg, GivesCursor, GivesOpening, GivesOps, GivesQuery, GivesStep, GivesView, GivesPairs, GivesKeys};
ghost use Rattle.layer_calls.specs.Show.{Shows};
ghost use Rattle.layer_calls.specs.Opening.{OpensWith};
ghost use Rattle.layer_calls.specs.Txns.{Wants, Drafts};
ghost use Rattle.layer_calls.specs.Queries.{Asks, AsksRows, Answers};
ghost use Rattle.layer_calls.specs.Changes.{newest_of, Plans, GivesReorgs, Publishes, Closes, Begins};
ghost use Rattle.layer_calls.specs.Pieces.{PiecesAt};
ghost use Rattle.layer_calls.specs.Audits.{Audits};
ghost use Rattle.layer_calls.specs.PageChecks.{PageRows, PageGiven, AuditsPage};
ghost use Rattle.layer_calls.specs.Dues.{Dues};

use handles::CheckOutcome;
use layer_calls::{DueOutcome, LayerOutcome, show};
use std::alloc::Global;

/// `layer_calls::open`.
#[unsafe(no_mangle)]
pub extern "C" fn cagzhomul_layer_open(
    alloc: Global,
    opening: &[u8],
    out: &mut [u8],
) -> LayerOutcome
    ensures { (answer : Answer) × With GivesOpening (λ o a. OpensWith o.1 a) opening.now answer × Shows answer out.old result out.new }
{
    show(layer_calls::open(alloc, opening), out)
}

/// `layer_calls::reads`.
#[unsafe(no_mangle)]
pub extern "C" fn cagzhomul_layer_reads(
    alloc: Global,
    version: &[u8],
    operations: &[u8],
    out: &mut [u8],
) -> LayerOutcome
    ensures { (answer : Answer) × With GivesVersion (λ v a. With GivesOps (Wants v) operations.now a) version.now answer × Shows answer out.old result out.new }
{
    show(layer_calls::reads(alloc, version, operations), out)
}

/// `layer_calls::txn`.
#[unsafe(no_mangle)]
pub extern "C" fn cagzhomul_layer_txn(
    alloc: Global,
    number: u64,
    version: &[u8],
    operations: &[u8],
    view: &[u8],
    mark: &[u8],
    out: &mut [u8],
) -> LayerOutcome
    ensures { (answer : Answer) × With GivesVersion (λ v a. With GivesOps (λ o b. With GivesView (Drafts number mark.now v o) view.now b) operations.now a) version.now answer × Shows answer out.old result out.new }
{
    let answer = layer_calls::txn(alloc, number, version, operations, view, mark);
    show(answer, out)
}

/// `layer_calls::ranges`.
#[unsafe(no_mangle)]
pub extern "C" fn cagzhomul_layer_ranges(
    alloc: Global,
    version: &[u8],
    query: &[u8],
    out: &mut [u8],
) -> LayerOutcome
    ensures { (answer : Answer) × With GivesVersion (λ v a. With GivesQuery (Asks v) query.now a) version.now answer × Shows answer out.old result out.new }
{
    show(layer_calls::ranges(alloc, version, query), out)
}

/// `layer_calls::row_ranges`.
#[unsafe(no_mangle)]
pub extern "C" fn cagzhomul_layer_row_ranges(
    alloc: Global,
    version: &[u8],
    query: &[u8],
    pairs: &[u8],
    out: &mut [u8],
) -> LayerOutcome
    ensures { (answer : Answer) × With GivesVersion (λ v a. With GivesQuery (λ q b. With GivesPairs (AsksRows v q) pairs.now b) query.now a) version.now answer × Shows answer out.old result out.new }
{
    let answer = layer_calls::row_ranges(alloc, version, query, pairs);
    show(answer, out)
}

/// `layer_calls::rows`.
#[unsafe(no_mangle)]
pub extern "C" fn cagzhomul_layer_rows(
    alloc: Global,
    version: &[u8],
    query: &[u8],
    pairs: &[u8],
    out: &mut [u8],
) -> LayerOutcome
    ensures { (answer : Answer) × With GivesVersion (λ v a. With GivesQuery (λ q b. With GivesPairs (Answers v q) pairs.now b) query.now a) version.now answer × Shows answer out.old result out.new }
{
    show(layer_calls::rows(alloc, version, query, pairs), out)
}

/// `layer_calls::plan`.
#[unsafe(no_mangle)]
pub extern "C" fn cagzhomul_layer_plan(
    alloc: Global,
    version: &[u8],
    changes: &[u8],
    out: &mut [u8],
) -> LayerOutcome
    ensures { (answer : Answer) × With GivesVersion (λ v a. Plans v changes.now a) version.now answer × Shows answer out.old result out.new }
{
    show(layer_calls::plan(alloc, version, changes), out)
}

/// `layer_calls::publish`.
#[unsafe(no_mangle)]
pub extern "C" fn cagzhomul_layer_publish(
    alloc: Global,
    before: u32,
    version: &[u8],
    step: &[u8],
    found: &[u8],
    out: &mut [u8],
) -> LayerOutcome
    ensures { (answer : Answer) × With GivesVersion (λ v a. With GivesStep (λ s b. With GivesReorgs (Publishes (newest_of before v) s) found.now b) step.now a) version.now answer × Shows answer out.old result out.new }
{
    let answer = layer_calls::publish(alloc, before, version, step, found);
    show(answer, out)
}

/// `layer_calls::close`.
#[unsafe(no_mangle)]
pub extern "C" fn cagzhomul_layer_close(
    alloc: Global,
    before: u32,
    version: &[u8],
    out: &mut [u8],
) -> LayerOutcome
    ensures { (answer : Answer) × With GivesVersion (λ v a. Closes (newest_of before v) a) version.now answer × Shows answer out.old result out.new }
{
    show(layer_calls::close(alloc, before, version), out)
}

/// `layer_calls::begin`.
#[unsafe(no_mangle)]
pub extern "C" fn cagzhomul_layer_begin(
    alloc: Global,
    before: u32,
    version: &[u8],
    element: u32,
    keys: &[u8],
    out: &mut [u8],
) -> LayerOutcome
    ensures { (answer : Answer) × With GivesVersion (λ v a. With GivesKeys (Begins (newest_of before v) element) keys.now a) version.now answer × Shows answer out.old result out.new }
{
    let answer = layer_calls::begin(alloc, before, version, element, keys);
    show(answer, out)
}

/// `layer_calls::piece`.
#[unsafe(no_mangle)]
pub extern "C" fn cagzhomul_layer_piece(
    alloc: Global,
    reorg: &[u8],
    piece: u32,
    cursor: &[u8],
    to: &[u8],
    pairs: &[u8],
    out: &mut [u8],
) -> LayerOutcome
    ensures { (answer : Answer) × With GivesReorg (λ r a. With GivesCursor (λ c b. With GivesPairs (PiecesAt r piece c to.now) pairs.now b) cursor.now a) reorg.now answer × Shows answer out.old result out.new }
{
    let answer = layer_calls::piece(alloc, reorg, piece, cursor, to, pairs);
    show(answer, out)
}

/// `layer_calls::due`.
#[unsafe(no_mangle)]
pub extern "C" fn cagzhomul_layer_due(
    alloc: Global,
    before: u32,
    version: &[u8],
    found: &[u8],
    plan: &[u8],
    published: u64,
) -> DueOutcome
    ensures { Dues before version.now found.now plan.now published result }
{
    layer_calls::due(alloc, before, version, found, plan, published)
}

/// `layer_calls::check`.
#[unsafe(no_mangle)]
pub extern "C" fn cagzhomul_layer_check(alloc: Global, version: &[u8], pairs: &[u8]) -> CheckOutcome
    ensures { Audits version.now pairs.now result }
{
    layer_calls::check(alloc, version, pairs)
}

/// `layer_calls::check_rows`.
#[unsafe(no_mangle)]
pub extern "C" fn cagzhomul_layer_check_rows(
    alloc: Global,
    version: &[u8],
    pairs: &[u8],
    low: &[u8],
    to: &[u8],
    out: &mut [u8],
) -> LayerOutcome
    ensures { (answer : Answer) × With GivesVersion (λ v a. With GivesPairs (PageRows v low.now to.now) pairs.now a) version.now answer × Shows answer out.old result out.new }
{
    let answer = layer_calls::check_rows(alloc, version, pairs, low, to);
    show(answer, out)
}

/// `layer_calls::check_given`.
#[unsafe(no_mangle)]
pub extern "C" fn cagzhomul_layer_check_given(
    alloc: Global,
    version: &[u8],
    pairs: &[u8],
    low: &[u8],
    to: &[u8],
    out: &mut [u8],
) -> LayerOutcome
    ensures { (answer : Answer) × With GivesVersion (λ v a. With GivesPairs (PageGiven v low.now to.now) pairs.now a) version.now answer × Shows answer out.old result out.new }
{
    let answer = layer_calls::check_given(alloc, version, pairs, low, to);
    show(answer, out)
}

/// `layer_calls::check_page`.
#[unsafe(no_mangle)]
pub extern "C" fn cagzhomul_layer_check_page(
    alloc: Global,
    version: &[u8],
    pairs: &[u8],
    low: &[u8],
    to: &[u8],
) -> CheckOutcome
    ensures { AuditsPage version.now pairs.now low.now to.now result }
{
    layer_calls::check_page(alloc, version, pairs, low, to)
}
