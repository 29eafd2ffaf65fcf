//! How far a text goes without a 0.
ghost use Rattle.std.specs.Prelude.{◌≡◌, ◌≤◌, length};
ghost use Rattle.keycode.specs.inner.Run.{run_of};

use memchr::memchr;

/// How many bytes there are before the first 0, all if there is none.
pub(crate) fn count_run(bytes: &[u8]) -> usize
    ensures in_range { result ≤ length bytes.now }
    ensures run { result ≡ run_of bytes.now }
{
    match memchr(0, bytes) {
        Some(first) => first,
        None => bytes.len(),
    }
}
