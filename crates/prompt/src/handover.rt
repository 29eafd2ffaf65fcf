//! Writers that hand on what was written.
ghost use Rattle.std.specs.Prelude.{◌≡◌, None, OnOk};
ghost use Rattle.std.specs.Io.KnownBytes.{Keeps};

use std::io;
use std::io::{Print, Printer, Write};

/// A writer that hands on what was written when it is asked to, so that whoever waits for it has
/// it.
pub trait Handover: Write {
    ghost use Rattle.std.specs.Prelude.{ℕ, List, Option};

    // the bytes that were handed on, where they are known
    ghost handed: { Self → Option (List ℕ) };

    /// Hands on all that was written. Refused if the writer fails.
    fn hand_on(&mut self) -> io::Result<()>
        ensures kept { Keeps (Self.contents self.old) (Self.contents self.new) }
        ensures handed { OnOk result (handed self.new ≡ Self.contents self.new) };
}

// What standard output has handed on is not known, so that a body which does nothing would be proved;
// `.ci/prompts` reads each answer over a pipe before it writes the next line.
impl<P: Print> Handover for Printer<'_, P> {
    ghost handed = { λ _. None };

    fn hand_on(&mut self) -> io::Result<()> {
        self.flush()
    }
}
