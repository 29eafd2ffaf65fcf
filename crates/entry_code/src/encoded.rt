//! What has a code in bytes.
ghost use Rattle.std.specs.Prelude.{◌≡◌, ◌++◌, ℕ, List, Result, OnOk};
ghost use Rattle.collections.specs.Answers.{GivesOr};
ghost use Rattle.entry_code.specs.declared.fault.CodeFault.{CodeFault};
ghost use Rattle.entry_code.specs.declared.fault.CodeFault.TheVariants.{Memory};

use crate::fault::CodeFault;
use std::alloc::{AllocError, Global};

/// A value that has a code in bytes, which no other value's code begins.
pub(crate) trait Encoded {
    /// Its code.
    ghost code: { Self → List ℕ };

    /// The value that these bytes begin with, and the bytes after it.
    ghost at: { List ℕ → Result (Self × List ℕ) CodeFault };

    /// What its type says of it: numbers are in their ranges and texts are UTF-8.
    ghost known: { Self → Type 0 };

    /// Adds the code to `out`. Refused only when out of memory; `out` then ends in a part of it.
    fn push(&self, out: &mut Vec<u8>) -> Result<(), AllocError>
        ensures code { OnOk result (out.new.items ≡ out.old.items ++ code self.now) }
        ensures known { OnOk result (known self.now) };

    /// Reads the value at the prefix of `bytes`, and gives it with the bytes after it. Refused with
    /// `Malformed` if no code begins the bytes; `Memory` may come in place of any answer.
    fn read(alloc: Global, bytes: &[u8]) -> Result<(Self, &[u8]), CodeFault>
        ensures { GivesOr Memory (λ x. (x.0, x.1.now)) result (at bytes.now) };
}
