//! The codes of values: those of keys.
ghost use Rattle.std.specs.Prelude.{◌≡◌, ◌++◌, OnOk};
ghost use Rattle.keycode.specs.Code.{code as value_code};
ghost use Rattle.keycode.specs.Valid.{IsValue};
ghost use Rattle.entry_code.specs.inner.At.{value_at};

use crate::encoded::Encoded;
use crate::fault::CodeFault;
use keycode::{KeyFault, Value, known_value, push_value, read_value};
use std::alloc::{AllocError, Global};

impl Encoded for Value {
    ghost code = { value_code };

    ghost at = { value_at };

    ghost known = { IsValue };

    fn push(&self, out: &mut Vec<u8>) -> Result<(), AllocError> {
        known_value(self);
        push_value(out, self)
    }

    #[tactic(auto, unfolding(crate::specs::inner::At::value_at))]
    fn read(alloc: Global, bytes: &[u8]) -> Result<(Value, &[u8]), CodeFault> {
        match read_value(alloc, bytes) {
            Ok(found) => Ok(found),
            Err(KeyFault::Memory) => Err(CodeFault::Memory),
            Err(_) => Err(CodeFault::Malformed),
        }
    }
}
