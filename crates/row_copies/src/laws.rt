ghost use Rattle.row_copies.specs.Laws.{MarksAreTheMachines};

/// What a mark makes of a row's copies, and what it hands out, is the machine's step.
#[tactic(auto, using(crate::proofs::Machine::marks_are_the_machines))]
pub fn marks_are_the_machines()
    ensures { MarksAreTheMachines }
{}
