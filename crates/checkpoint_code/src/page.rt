//! Pages of a checkpoint's pairs as bytes, and back.
ghost use Rattle.std.specs.Prelude.{◌≡◌, IfOk, OnOk};
ghost use Rattle.std.specs.Ordering.{is_lt};
ghost use Rattle.byte_map.specs.Order.{bytes_cmp};
ghost use Rattle.entry_code.specs.Parts.{pairs_code, ArePairs};
ghost use Rattle.checkpoint_code.specs.Page.{rise_after as rise_after_of, rise as rise_of, IsPageRead, IsPageAccepted};
ghost use Rattle.checkpoint_code.specs.Pages.{to_page_fault};

use crate::fault::PageFault;
use byte_map::Bytes;
use collections::List;
use entry_code::{CodeFault, pairs_bytes, pairs_of};
use std::alloc::{AllocError, Global};

// Whether one key is below another.
fn is_below(key: &Bytes, later: &Bytes) -> bool
    ensures { result ≡ is_lt (bytes_cmp key.now later.now) }
{
    key.compare(later.as_slice()).is_lt()
}

// Whether the keys rise after this one.
fn rise_after<'a>(key: &'a Bytes, pairs: &'a [(Bytes, Bytes)]) -> bool
    ensures { result ≡ rise_after_of key.now pairs.now }
{
    let mut before = key;
    for pair in pairs {
        if !is_below(before, &pair.0) {
            return false;
        }
        before = &pair.0;
    }
    true
}

fn rise(pairs: &[(Bytes, Bytes)]) -> bool
    ensures { result ≡ rise_of pairs.now }
{
    match pairs {
        [] => true,
        [first, rest @ ..] => rise_after(&first.0, rest),
    }
}

fn to_fault(fault: CodeFault) -> PageFault
    ensures { result ≡ to_page_fault fault }
{
    match fault {
        CodeFault::Version => PageFault::Version,
        CodeFault::Trailing => PageFault::Trailing,
        CodeFault::Malformed => PageFault::Malformed,
        CodeFault::Memory => PageFault::Memory,
    }
}

/// The code of a page of a checkpoint's pairs, each a key and its value, by rising key. Refused only
/// when out of memory.
///
/// A caller may write a table in pages of any size, so that it needs memory for one of them.
pub fn page_bytes(alloc: Global, pairs: &[(Bytes, Bytes)]) -> Result<Vec<u8>, AllocError>
    ensures code { IfOk result (λ bytes. bytes.items ≡ pairs_code pairs.now) }
    ensures known { OnOk result (ArePairs pairs.now) }
{
    pairs_bytes(alloc, pairs)
}

/// The page whose code these `bytes` are, whose keys strictly rise.
///
/// Refused in the order of `PageFault`, and `Memory` may come in place of any answer but `Version`.
///
/// It takes time in proportion to the number of bytes, however many pairs they announce, and memory
/// of no more than a fixed multiple of it.
pub fn page_of(alloc: Global, bytes: &[u8]) -> Result<List<(Bytes, Bytes)>, PageFault>
    ensures read { IsPageRead bytes.now result }
    ensures accepted { IsPageAccepted bytes.now result }
{
    match pairs_of(alloc, bytes) {
        Ok(pairs) => {
            if !rise(pairs.as_slice()) {
                return Err(PageFault::Unordered);
            }
            Ok(pairs)
        }
        Err(fault) => Err(to_fault(fault)),
    }
}
