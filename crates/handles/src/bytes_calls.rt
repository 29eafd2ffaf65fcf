//! Bytes that a call gave, in handles of their own.
ghost use Rattle.std.specs.Prelude.{◌≡◌};
ghost use Rattle.handles.specs.Queries.{BytesFrom};

use crate::engine::Engine;
use crate::handle::Handle;
use crate::outcome::{Outcome, lay};
use std::alloc::Global;
use typed_calls::status::{CLOSED, OK};

impl Handle {
    /// Writes as much of the bytes that the handle holds to `out` as fits, from this one on. `OK`,
    /// with how many there are in all; else `CLOSED`.
    pub fn bytes_from(&mut self, alloc: Global, from: usize, out: &mut [u8]) -> Outcome
        ensures bytes { BytesFrom self.old.place.value from out.old result out.new }
        ensures same { self.new.place.value ≡ self.old.place.value }
    {
        let Some(engine) = self.take(alloc) else {
            return Outcome::refusal(CLOSED);
        };
        let Engine::Bytes(bytes) = &*engine else {
            self.put(engine);
            return Outcome::refusal(CLOSED);
        };
        let bytes = bytes.as_slice();
        let length = bytes.len();
        if from < length {
            lay(out, bytes.split_at(from).1);
        }
        self.put(engine);
        Outcome { status: OK, length }
    }
}
