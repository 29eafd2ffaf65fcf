//! Why a draft is not applied.
ghost use Rattle.std.specs.Prelude.{◌≡◌};
ghost use Rattle.draft_store.specs.Apply.{to_fault as to_fault_of};
ghost use Rattle.draft_store.specs.declared.fault.ApplyFault.TheVariants.{Memory};

use byte_map::Bytes;
use entry_code::CodeFault;
use std::alloc::AllocError;
use thiserror::Error;

/// Why a draft is not applied. Of several reasons the first in this order is reported.
#[derive(Debug, Drop, Error)]
pub enum ApplyFault {
    /// The bytes are the code of no draft, for this reason, which is not `Memory`.
    #[error("the bytes are the code of no draft")]
    BadDraft(CodeFault),
    /// A pair is another than one that the draft compares.
    #[error("a pair is not the expected one")]
    Refused {
        /// The least key of such a pair.
        key: Bytes,
    },
    /// Out of memory. It may come in place of any other answer.
    #[error("out of memory")]
    Memory,
}

impl From<AllocError> for ApplyFault {
    ghost from_gives = { λ _ fault. fault ≡ Memory };

    fn from(_: AllocError) -> ApplyFault {
        ApplyFault::Memory
    }
}

/// The fault of a draft that is not read.
pub(crate) fn to_fault(fault: CodeFault) -> ApplyFault
    ensures { result ≡ to_fault_of fault }
{
    match fault {
        CodeFault::Version => ApplyFault::BadDraft(CodeFault::Version),
        CodeFault::Trailing => ApplyFault::BadDraft(CodeFault::Trailing),
        CodeFault::Malformed => ApplyFault::BadDraft(CodeFault::Malformed),
        CodeFault::Memory => ApplyFault::Memory,
    }
}
