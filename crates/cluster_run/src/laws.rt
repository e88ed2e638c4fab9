ghost use Rattle.cluster_run.specs.Promises.{ScriptsKeepPromises};

/// Where no line is refused, each group makes a run of its own with the whole headline, also after each of the events, and
/// the answers are those of one table over all keys in the order of one log; what is shown is what the log tells.
#[tactic(auto, using(crate::proofs::Promises::scripts_keep_promises))]
pub fn scripts_keep_promises()
    ensures { ScriptsKeepPromises }
{}
