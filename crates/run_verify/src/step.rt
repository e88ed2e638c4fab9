use group_calls::Event;
use group_types::{ProcessId, Run};

/// What a line of a script has the transcript tell.
#[derive(Debug, Drop)]
pub enum Step {
    /// The answer of an event, and what it logged.
    Make(Event),
    /// Deliveries until there is no message left: what they logged, and a number of them.
    Deliveries,
    /// The stamp of a process and the bytes of a run of its space.
    Look(ProcessId, Run),
    /// The runs of the updates.
    Placing,
}
