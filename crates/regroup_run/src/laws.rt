ghost use Rattle.regroup_run.specs.Promises.{ScriptsKeepPromises};

/// Where no line is refused, the log over all eras is legal, each era is a run of its own with the whole headline, what is
/// carried is kept, and each line that shows bytes shows what the log tells.
#[tactic(auto, using(crate::proofs::Promises::scripts_keep_promises))]
pub fn scripts_keep_promises()
    ensures { ScriptsKeepPromises }
{}
