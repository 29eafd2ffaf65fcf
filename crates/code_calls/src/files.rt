//! The form of saved bytes, and the records of a log file.
ghost use Rattle.std.specs.Prelude.{◌≡◌};
ghost use Rattle.code_calls.specs.Files.{FindsEntry, HasForm, ShowsRecord};

use digested_bytes::{Contents, contents_of, entry_in, record_of};
use handles::{Outcome, lay};
use std::alloc::Global;
use typed_calls::status::{BAD_CODE, OK, OUT_OF_MEMORY};

/// Bytes that are damaged: they have another digest than that at their end.
pub const DAMAGED: u32 = 0;

/// The saved bytes of earlier releases, without a digest; any bytes that do not begin with the marker
/// count as such.
pub const WITHOUT_DIGEST: u32 = 1;

/// Saved bytes with their digest, which is right.
pub const WITH_DIGEST: u32 = 2;

/// The form of saved bytes: `DAMAGED`, `WITHOUT_DIGEST` or `WITH_DIGEST`. It says nothing more of
/// them: that a world may open there is said by opening one. It takes time in proportion to them, and
/// no memory.
pub fn saved_form(bytes: &[u8]) -> u32
    ensures { HasForm bytes.now result }
{
    match contents_of(bytes) {
        Contents::Plain => WITHOUT_DIGEST,
        Contents::Whole(_) => WITH_DIGEST,
        Contents::Damaged => DAMAGED,
    }
}

/// Writes as much of the record of an entry to `out` as fits, and gives its length, which is 48 more
/// than the entry's. Refused only by `OUT_OF_MEMORY`, and `out` is then unchanged.
///
/// - `place`: the entry's place in the log, of which the first is 1.
/// - `entry`: its code; any bytes are taken.
pub fn log_record(alloc: Global, place: u64, entry: &[u8], out: &mut [u8]) -> Outcome
    ensures { ShowsRecord place entry.now out.old result out.new }
{
    let Ok(whole) = record_of(alloc, place, entry) else {
        return Outcome::refusal(OUT_OF_MEMORY);
    };
    lay(out, whole.as_slice());
    Outcome {
        status: OK,
        length: whole.len(),
    }
}

/// The length of the entry of the record with which these bytes begin: the entry is after the first
/// 16 of them, and 32 bytes after it comes what follows the record. `BAD_CODE` if they begin with no
/// record of this place: it is damaged or cut, or there is none. It takes time in proportion to the
/// record, and no memory.
///
/// - `place`: as for `log_record`.
pub fn log_entry(place: u64, bytes: &[u8]) -> Outcome
    ensures { FindsEntry place bytes.now result }
{
    match entry_in(bytes, place) {
        Some((entry, _)) => Outcome {
            status: OK,
            length: entry.len(),
        },
        None => Outcome::refusal(BAD_CODE),
    }
}
