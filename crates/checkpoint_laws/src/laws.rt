//! What follows of the contracts of `world`, for a world that goes on from a checkpoint.
ghost use Rattle.checkpoint_laws.specs.Later.{AcceptedGoOn, AlikeBothWays, AlikeStatesAnswerAlike, CallsAnswerAlike, CheckpointsOpenAlike, RunsAnswerAlike, RunsGoOn};

/// A world that opens from a checkpoint is alike to the one that it was taken of. Whatever a call may
/// answer in the one, refusals and receipts too, it may answer in the other, and then they are alike
/// again; so no run of calls tells them apart. An entry that the one accepts may follow in the
/// other: whatever was accepted, both have the same pairs, versions and begun reorganisations.
pub fn checkpoints_go_on()
    ensures open { CheckpointsOpenAlike }
    ensures symmetric { AlikeBothWays }
    ensures calls { CallsAnswerAlike }
    ensures runs { RunsAnswerAlike }
    ensures accepted { AcceptedGoOn }
    ensures all { RunsGoOn }
    ensures answers { AlikeStatesAnswerAlike }
{}
