ghost use Rattle.group_layout.specs.Layout.{OneANode};
ghost use Rattle.group_layout.specs.Promise.{AnswersAreWithin, ClustersAreRuns, EntriesAreOwn, FewFailuresAreBorne, LogsAreLegal, MovesAreRuns};

/// No two processes of a group stand on one node.
#[tactic(auto, using(crate::proofs::Places::one_a_node))]
pub fn one_a_node()
    ensures { OneANode }
{}

/// Groups that make events in turn each make a run of their own, with the whole headline.
#[tactic(auto, using(crate::proofs::Runs::moves_are_runs))]
pub fn moves_are_runs()
    ensures { MovesAreRuns }
{}

/// So do the groups of a cluster, whatever happens in its groups and whichever nodes fail.
#[tactic(auto, using(crate::proofs::Happening::clusters_are_runs))]
pub fn clusters_are_runs()
    ensures { ClustersAreRuns }
{}

/// While at most m nodes have failed no group is down.
#[tactic(auto, using(crate::proofs::Failing::few_failures_are_borne))]
pub fn few_failures_are_borne()
    ensures { FewFailuresAreBorne }
{}

/// Each answered call stands in the cluster's log once, between its asking and its answering.
#[tactic(auto, using(crate::proofs::Answers::answers_are_within))]
pub fn answers_are_within()
    ensures { AnswersAreWithin }
{}

/// Each entry of the cluster's log is of its key's group.
#[tactic(auto, using(crate::proofs::Owning::entries_are_own))]
pub fn entries_are_own()
    ensures { EntriesAreOwn }
{}

/// The cluster's log is legal: its replies are those of one memcached table over all keys.
#[tactic(auto, using(crate::proofs::Tables::logs_are_legal))]
pub fn logs_are_legal()
    ensures { LogsAreLegal }
{}
