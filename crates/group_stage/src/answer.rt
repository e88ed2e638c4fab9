use group_calls::Answer;
use group_types::ProcessId;

/// What a call of a stage ended in.
#[derive(Debug, Drop, PartialEq, Eq)]
pub enum StageAnswer {
    /// The call is an event of the group's schedule, with this answer.
    Made(Answer),
    /// Another seat held the node of this process, and the call made no event.
    Busy(ProcessId),
    /// The seat has made all its calls.
    Worn,
}
