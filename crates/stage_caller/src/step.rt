ghost use Rattle.stage_caller.specs.Moving.{StepSays};

use crate::phase::{Next, Phase};
use group_calls::{Answer, Cause};
use group_stage::StageAnswer;
use group_types::ProcessId;
use memc_proto::CallEnd;

/// A call of the seat that a call makes next.
#[derive(Clone, Copy, Debug, PartialEq, Eq)]
pub(crate) enum Move {
    Ask(ProcessId),
    Collect(u64, ProcessId),
    Trace(u64, ProcessId),
    Look(ProcessId, ProcessId),
    Deliver(ProcessId, ProcessId),
}

/// What was heard of the group, as far as it says which move is next.
#[derive(Clone, Copy, Debug, PartialEq, Eq)]
pub(crate) enum Heard {
    /// A message waits or was received, or a ticket was given.
    Moves,
    /// Nothing moved.
    Nothing,
    /// A node was held elsewhere.
    Busy,
    /// A block has to be rebuilt.
    Block,
    /// The call has to go to another process.
    Elsewhere,
}

/// What one call of the seat came to.
#[derive(Debug, Drop, PartialEq, Eq)]
pub(crate) enum Step {
    Goes(Phase, Heard),
    Ends(CallEnd),
}

/// The step that leads there.
pub(crate) fn step_to(next: Next, heard: Heard) -> Step
    ensures { StepSays next result }
{
    match next {
        Next::Goes(phase) => Step::Goes(phase, heard),
        Next::Ends(end) => Step::Ends(end),
    }
}

/// What an answer says of the group.
pub(crate) fn heard_of(ended: &StageAnswer) -> Heard {
    match ended {
        StageAnswer::Busy(_) => Heard::Busy,
        StageAnswer::Made(answer) => heard_in(answer),
        StageAnswer::Worn => Heard::Nothing,
    }
}

fn heard_in(answer: &Answer) -> Heard {
    match answer {
        Answer::Retry(Cause::Block { .. }) => Heard::Block,
        Answer::Moved | Answer::Lost | Answer::Stranger | Answer::Gone => Heard::Elsewhere,
        Answer::NotYet | Answer::Idle | Answer::Stale(_) | Answer::Retry(_) => Heard::Nothing,
        _ => Heard::Moves,
    }
}
