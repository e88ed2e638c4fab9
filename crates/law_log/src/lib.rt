//! One log: what heads settle comes into the log of a group as memcached's table has it, each call once and within its
//! time. What the log shows of each partition, and what becomes of calls, are lemmas beside it. That what is settled is
//! right, and that heads have it, is asked of the layer that proves it of every replica (`StandsAlways`).
#![tactic(auto)]

ghost use Rattle.law_log.specs.Laws.{LogIsOne};

/// Along every run in which heads stand, the log is that of the turns, it is legal, and calls are answered
/// within their time.
pub fn log_is_one()
    ensures { LogIsOne }
{}
