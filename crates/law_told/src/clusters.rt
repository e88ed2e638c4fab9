ghost use Rattle.law_told.specs.Clusters.{DeadAreOnFailedNodes, OtherGroupsAreNamed};

/// A process of a group is dead exactly where the node that it stands on is one that failed.
#[tactic(auto, using(crate::proofs::Dead::dead_are_on_failed_nodes))]
pub fn dead_are_on_failed_nodes()
    ensures { DeadAreOnFailedNodes }
{}

/// An ask is answered that its key is of another group exactly where it is, and the answer names that group.
#[tactic(auto, using(crate::proofs::Others::other_groups_are_named))]
pub fn other_groups_are_named()
    ensures { OtherGroupsAreNamed }
{}
