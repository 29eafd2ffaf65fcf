//! The exit status of the program.
ghost use Rattle.std.specs.Prelude.{◌≡◌};
ghost use Rattle.script.specs.Status.{status_of};

use crate::run::{ScriptFault, Summary};

/// The exit status after a script: 0 if every line was good, 1 if a line was bad, 3 if the
/// script could not be read, 4 if a reply could not be written, 5 when out of memory.
pub fn script_status(outcome: &Result<Summary, ScriptFault>) -> u8
    ensures { result ≡ status_of outcome.now }
{
    match outcome {
        Ok(summary) if summary.bad == 0 => 0,
        Ok(_) => 1,
        Err(ScriptFault::Read | ScriptFault::TooLong | ScriptFault::NotUtf8) => 3,
        Err(ScriptFault::Write) => 4,
        Err(ScriptFault::Memory) => 5,
    }
}
