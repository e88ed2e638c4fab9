ghost use Rattle.std.specs.Prelude.{◌≡◌, []};

use head_service::{Sent, Settlement};
use std::alloc::Global;

/// What a process sends and what it settles, in order.
#[derive(Debug, Drop)]
pub struct Step {
    pub sent: Vec<Sent>,
    pub settled: Vec<Settlement>,
}

impl Step {
    /// A step that sends and settles nothing.
    pub fn nothing(alloc: Global) -> Step
        ensures sent { result.sent.items ≡ [] }
        ensures settled { result.settled.items ≡ [] }
    {
        Step::sending(alloc, Vec::new(alloc))
    }

    /// A step that sends these messages and settles nothing.
    pub fn sending(alloc: Global, sent: Vec<Sent>) -> Step
        ensures sent { result.sent.items ≡ sent.items }
        ensures settled { result.settled.items ≡ [] }
    {
        Step {
            sent,
            settled: Vec::new(alloc),
        }
    }
}
