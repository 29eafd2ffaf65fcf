//! Which checkpoints are accepted: a call without a body, so that a contract names the law.
ghost use Rattle.checkpoint_check.specs.Accepted.{KeptIsAccepted, LogsAreAccepted};

/// The checkpoint of what any world keeps, and so that of any log, is refused only when out of
/// memory.
pub fn logs_are_accepted()
    ensures kept { KeptIsAccepted }
    ensures logs { LogsAreAccepted }
{}
