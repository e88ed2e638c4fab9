//! That a member can always send what it holds: every message with which a head tells its log has a frame, so an adoption of 256
//! updates too, since the runs of unfinished updates share no byte of a space. That is a law of the machine's runs; a frame with
//! its sum is the matter of `link_frames`.
#![tactic(auto)]

ghost use Rattle.law_frames.specs.Laws.{LogsHaveFrames, SessionsHaveFrames, TellingsHaveFrames};

/// Along every run the log of each living process has a frame, as an adoption and update by update.
pub fn logs_have_frames()
    ensures { LogsHaveFrames }
{}

/// Along every run each message that tells of updates, in a link between two living processes, has a frame.
pub fn tellings_have_frames()
    ensures { TellingsHaveFrames }
{}

/// Along every run each message of a block session into a living process has a frame.
pub fn sessions_have_frames()
    ensures { SessionsHaveFrames }
{}
