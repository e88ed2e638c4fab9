ghost use Rattle.head_service.specs.Laws.{AsksAreTheMachines, FatesAreTheMachines, FlushesAreTheMachines, JudgesAreTheMachines, TakeoversAreTheMachines};

/// What a head makes of a call, part by part, is the step of the machine's process.
pub fn asks_are_the_machines()
    ensures { AsksAreTheMachines }
{}

/// What a head settles is what the machine's process settles where it judges acknowledgements.
#[tactic(auto, using(crate::proofs::Machine::judges_are_the_machines))]
pub fn judges_are_the_machines()
    ensures { JudgesAreTheMachines }
{}

/// What a head tells of a call is what the machine's process tells.
#[tactic(auto, using(crate::proofs::Machine::fates_are_the_machines))]
pub fn fates_are_the_machines()
    ensures { FatesAreTheMachines }
{}

/// A takeover is the step of the machine's process that takes a partition over.
pub fn takeovers_are_the_machines()
    ensures { TakeoversAreTheMachines }
{}

/// What a flush sends is what the machine's process sends.
pub fn flushes_are_the_machines()
    ensures { FlushesAreTheMachines }
{}
