//! Why a conversation ended before its end, and the exit status that tells it.
ghost use Rattle.std.specs.Prelude.{◌≡◌};
ghost use Rattle.prompt.specs.Conversation.{status_of};
ghost use Rattle.prompt.specs.declared.fault.PromptFault.TheVariants.{Memory};

use crate::conversation::Summary;
use std::alloc::AllocError;
use thiserror::Error;

/// Why a conversation ended before its end.
#[derive(Clone, Copy, Debug, Drop, PartialEq, Eq, Error)]
pub enum PromptFault {
    /// The reader failed.
    #[error("read")]
    Read,
    /// The writer failed or took nothing.
    #[error("write")]
    Write,
    /// Memory ran out.
    #[error("memory")]
    Memory,
}

impl From<AllocError> for PromptFault {
    ghost from_gives = { λ _ e. e ≡ Memory };

    fn from(_e: AllocError) -> PromptFault {
        PromptFault::Memory
    }
}

/// The exit status after a conversation, which is that of a script: 0 if every line was good, 1 if
/// a line was bad, 3 if a line could not be read, 4 if a reply could not be written, 5 if memory
/// ran out.
///
/// - `outcome`: how the conversation ended.
pub fn prompt_status(outcome: &Result<Summary, PromptFault>) -> u8
    ensures { result ≡ status_of outcome.now }
{
    match outcome {
        Ok(summary) if summary.bad == 0 => 0,
        Ok(_) => 1,
        Err(PromptFault::Read) => 3,
        Err(PromptFault::Write) => 4,
        Err(PromptFault::Memory) => 5,
    }
}
