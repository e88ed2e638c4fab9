ghost use Rattle.group_ledger.specs.Laws.{CallsAreTheNext, LogsAreRecorded, StepsAreRecorded};

/// The group after an event is its nodes after the event, with the books that record what they made of it.
#[tactic(auto, using(crate::proofs::Steps::step_recorded))]
pub fn steps_are_recorded()
    ensures { StepsAreRecorded }
{}

/// What an event logs is what is recorded of it.
#[tactic(auto, using(crate::proofs::Steps::step_logged))]
pub fn logs_are_recorded()
    ensures { LogsAreRecorded }
{}

/// The call that an ask asks is its caller's next.
#[tactic(auto, using(crate::proofs::Steps::call_next))]
pub fn calls_are_the_next()
    ensures { CallsAreTheNext }
{}
