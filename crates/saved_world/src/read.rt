//! A checkpoint read from one list of bytes.
ghost use Rattle.saved_world.specs.Loaded.{IsLoaded, IsLoadAccepted};
ghost use Rattle.saved_world.specs.Read.{IsRead, IsReadBack};
ghost use Rattle.saved_world.specs.inner.PagesRead.{ArePagesRead, ArePagesAccepted};

use crate::fault::LoadedFault;
use crate::loading::Loading;
use crate::parts::part_of;
use checkpoint::lemma_sound_is_whole;
use digested_bytes::{Contents, contents_of};
use std::alloc::Global;
use world::Checkpoint;

// Adds the pages that the bytes begin with, until the empty part, after which nothing may follow.
fn read_pages(alloc: Global, loading: &mut Loading, bytes: &[u8]) -> Result<(), LoadedFault>
    ensures read { ArePagesRead loading.old bytes.now result loading.new }
    ensures accepted { ArePagesAccepted loading.old bytes.now result loading.new }
{
    let mut rest = bytes;
    while let Some((part, more)) = part_of(rest) {
        if part.is_empty() {
            if more.is_empty() {
                return Ok(());
            }
            return Err(LoadedFault::Trailing);
        }
        loading.add(alloc, part)?;
        rest = more;
    }
    Err(LoadedFault::Cut)
}

// The checkpoint whose parts these bytes are.
fn load_parts(alloc: Global, bytes: &[u8]) -> Result<Checkpoint, LoadedFault>
    ensures read { IsLoaded bytes.now result }
    ensures accepted { IsLoadAccepted bytes.now result }
{
    lemma_sound_is_whole();
    let Some((head, pages)) = part_of(bytes) else {
        return Err(LoadedFault::Cut);
    };
    let mut loading = Loading::begin(alloc, head)?;
    read_pages(alloc, &mut loading, pages)?;
    Ok(loading.end(alloc)?)
}

/// The checkpoint whose bytes these are, as `save` writes them, if a world may open from it; also
/// those of earlier releases, which have no marker and no digest. The bytes that `save` gives are
/// refused only when out of memory.
///
/// Refused by `Damaged` before anything else is read, if they have another digest, and else by the
/// first part at which there is a reason.
pub fn load(alloc: Global, bytes: &[u8]) -> Result<Checkpoint, LoadedFault>
    ensures read { IsRead bytes.now result }
    ensures accepted { IsReadBack bytes.now result }
{
    match contents_of(bytes) {
        Contents::Plain => load_parts(alloc, bytes),
        Contents::Whole(parts) => load_parts(alloc, parts),
        Contents::Damaged => Err(LoadedFault::Damaged),
    }
}
