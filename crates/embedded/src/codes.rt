//! Codes alone: each function is a call of `code_calls`.
ghost use Rattle.code_calls.specs.Files.{FindsEntry, HasForm, ShowsRecord};
ghost use Rattle.code_calls.specs.Steps.{FindsStep};

use handles::Outcome;
use std::alloc::Global;

/// `code_calls::saved_form`.
#[unsafe(no_mangle)]
pub extern "C" fn cagzhomul_saved_form(bytes: &[u8]) -> u32
    ensures { HasForm bytes.now result }
{
    code_calls::saved_form(bytes)
}

/// `code_calls::log_record`.
#[unsafe(no_mangle)]
pub extern "C" fn cagzhomul_log_record(
    alloc: Global,
    place: u64,
    entry: &[u8],
    out: &mut [u8],
) -> Outcome
    ensures { ShowsRecord place entry.now out.old result out.new }
{
    code_calls::log_record(alloc, place, entry, out)
}

/// `code_calls::log_entry`.
#[unsafe(no_mangle)]
pub extern "C" fn cagzhomul_log_entry(place: u64, bytes: &[u8]) -> Outcome
    ensures { FindsEntry place bytes.now result }
{
    code_calls::log_entry(place, bytes)
}

/// `code_calls::plan_step`.
#[unsafe(no_mangle)]
pub extern "C" fn cagzhomul_plan_step(
    alloc: Global,
    plan: &[u8],
    number: usize,
    out: &mut [u8],
) -> Outcome
    ensures { FindsStep plan.now number out.old result out.new }
{
    code_calls::plan_step(alloc, plan, number, out)
}
