//! What a checkpoint keeps: each law is a call without a body, so that a contract names it.
ghost use Rattle.checkpoint.specs.Alike.{AlikeAnswerAlike, AlikeBothWays, AlikeGoOn, AlikeLogsGoOn};
ghost use Rattle.checkpoint.specs.Sound.{CheckpointsAreSound, SoundIsWhole, WholeIsSound};
ghost use Rattle.checkpoint.specs.Worked.{AWorkedLogIsCut};
ghost use Rattle.checkpoint.specs.Cut.{CutsChangeNothing, CutsGoOn, HeadlineFrom};
ghost use Rattle.checkpoint.specs.Checkpoint.{CheckpointsAreWhole, CheckpointsComeBack, CheckpointsKeep, OpeningsAreCheckpoints, OpeningsAreWhole};

/// What a checkpoint says is all that the log up to it says, but for values that no pair shows and
/// versions that no lease may use any more, and all that the theorem on logs rests on is kept with
/// it. An opening is the checkpoint of no entries.
pub fn lemma_checkpoints_keep()
    ensures keep { CheckpointsKeep }
    ensures openings { OpeningsAreCheckpoints }
    ensures again { CheckpointsComeBack }
    ensures whole { CheckpointsAreWhole }
    ensures open { OpeningsAreWhole }
{}

/// Facts that differ only in values that no pair shows, and in versions that no lease may use any
/// more, allow the same entries, and differ only so after each of them.
pub fn lemma_alike_go_on()
    ensures one { AlikeGoOn }
    ensures all { AlikeLogsGoOn }
    ensures symmetric { AlikeBothWays }
    ensures answers { AlikeAnswerAlike }
{}

/// A log may be cut anywhere: from the checkpoint of its first entries on, each later entry may
/// follow, and what any later call answers is the same. The theorem on logs holds from any
/// checkpoint on.
pub fn cuts_change_nothing()
    ensures cut { CutsChangeNothing }
    ensures headline { HeadlineFrom }
    ensures again { CutsGoOn }
    ensures worked { AWorkedLogIsCut }
{}

/// A world may open from a checkpoint if and only if the checkpoint is sound, and the checkpoint of
/// any log is.
pub fn lemma_sound_is_whole()
    ensures whole { SoundIsWhole }
    ensures sound { WholeIsSound }
    ensures logs { CheckpointsAreSound }
{}
