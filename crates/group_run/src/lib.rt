//! A coding group as a pure machine: what each process is, what each event and each message does to
//! it, what a run of events is, and what is promised of a run. Everything above cites these
//! definitions; the laws here are public functions whose contracts say them. How a process keeps its
//! state is left to the crates above.
#![tactic(auto)]

ghost use Rattle.group_run.specs.Locality.{OthersStay, SenderKeeps, OthersAreTold, NamesDecide};

/// Every node that an event does not name stays as it is.
#[tactic(auto, using(crate::proofs::Locality::others_stay))]
pub fn others_stay()
    ensures { OthersStay }
{}

/// A delivery changes of its sender only the link that it takes from.
#[tactic(auto, using(crate::proofs::Locality::sender_keeps))]
pub fn sender_keeps()
    ensures { SenderKeeps }
{}

/// A failure changes of the other nodes only their words whether the group is down.
#[tactic(auto, using(crate::proofs::Locality::others_are_told))]
pub fn others_are_told()
    ensures { OthersAreTold }
{}

/// An event's answer, and the new nodes that it names, depend on the event, its call's position and
/// those nodes alone.
pub fn names_decide()
    ensures { NamesDecide }
{}
