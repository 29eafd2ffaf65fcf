//! Why bytes are not read.
ghost use Rattle.std.specs.Prelude.{◌≡◌};
ghost use Rattle.saved_world.specs.declared.fault.LoadFault.TheVariants.{Page, Memory};

use checkpoint_code::{HeadFault, PageFault};
use std::alloc::AllocError;
use thiserror::Error;
use world::CheckpointFault;

/// Why a page is not added to what was read of a checkpoint. Of several reasons the first in this
/// order is reported.
#[derive(Clone, Copy, Debug, PartialEq, Eq, Error)]
pub enum LoadFault {
    /// The bytes are not read as a page, or there was no memory for it.
    #[error("{0}")]
    Page(PageFault),
    /// The first key of the page is not above all keys so far.
    #[error("the page does not go on where the last one ended")]
    Unordered,
    /// Out of memory.
    #[error("out of memory")]
    Memory,
}

impl From<PageFault> for LoadFault {
    ghost from_gives = { λ why fault. fault ≡ Page why };

    fn from(why: PageFault) -> LoadFault {
        LoadFault::Page(why)
    }
}

impl From<AllocError> for LoadFault {
    ghost from_gives = { λ _ fault. fault ≡ Memory };

    fn from(_e: AllocError) -> LoadFault {
        LoadFault::Memory
    }
}

/// Why a checkpoint is not read from one list of bytes, by the first part at which there is a
/// reason.
#[derive(Clone, Copy, Debug, PartialEq, Eq, Error)]
pub enum LoadedFault {
    /// The bytes begin with the marker, and do not end in the digest of what is before it: they are
    /// damaged.
    #[error("the bytes are damaged: their digest is another")]
    Damaged,
    /// The bytes end before the empty part that ends the pages.
    #[error("the bytes are cut")]
    Cut,
    /// Bytes follow the empty part.
    #[error("bytes follow the end")]
    Trailing,
    /// The first part is not read as a head.
    #[error("the head: {0}")]
    Head(HeadFault),
    /// A later part is not read as a page that goes on where the last one ended.
    #[error("a page: {0}")]
    Page(LoadFault),
    /// No world may open from what the parts are parts of.
    #[error("{0}")]
    Checkpoint(CheckpointFault),
}

impl From<HeadFault> for LoadedFault {
    ghost use Rattle.saved_world.specs.declared.fault.LoadedFault.TheVariants.{Head};

    ghost from_gives = { λ why fault. fault ≡ Head why };

    fn from(why: HeadFault) -> LoadedFault {
        LoadedFault::Head(why)
    }
}

impl From<LoadFault> for LoadedFault {
    ghost use Rattle.saved_world.specs.declared.fault.LoadedFault.TheVariants as loaded_fault;

    ghost from_gives = { λ why fault. fault ≡ loaded_fault.Page why };

    fn from(why: LoadFault) -> LoadedFault {
        LoadedFault::Page(why)
    }
}

impl From<CheckpointFault> for LoadedFault {
    ghost use Rattle.saved_world.specs.declared.fault.LoadedFault.TheVariants as loaded_fault;

    ghost from_gives = { λ why fault. fault ≡ loaded_fault.Checkpoint why };

    fn from(why: CheckpointFault) -> LoadedFault {
        LoadedFault::Checkpoint(why)
    }
}
