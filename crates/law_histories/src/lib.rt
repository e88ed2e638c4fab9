//! What every replica has seen, for every run: what each living process has applied and keeps in its log prolongs the
//! settled updates, and the messages of a link fit one after the other. The contracts say which numbers a replica has,
//! and that a drained group has nothing unfinished. What the updates themselves say is left to the crates above.
#![tactic(auto)]

ghost use Rattle.law_histories.specs.Copies.{ForgottenAlways};
ghost use Rattle.law_histories.specs.Laws.{AskedAlways, FinishedAlways, HeadedAlways, TracedAlways};
ghost use Rattle.law_histories.specs.Numbers.{LogsShortAlways, NumbersKeptAlways};

/// Along every run each living replica has applied or keeps in its log every settled update of its
/// partition, by consecutive numbers, and a living data process has applied all of them.
pub fn numbers_kept_always()
    ensures { NumbersKeptAlways }
{}

/// Along every run no log of a living process has more than 256 updates.
pub fn logs_short_always()
    ensures { LogsShortAlways }
{}

/// In a drained group that isn't down every partition has a head that has taken over.
pub fn headed_always()
    ensures { HeadedAlways }
{}

/// In a drained group every head has settled all that it issued or inherited.
pub fn finished_always()
    ensures { FinishedAlways }
{}

/// In a drained group a trace is never answered that the call's fate isn't known yet.
pub fn traced_always()
    ensures { TracedAlways }
{}

/// In a drained group an ask is never answered that an update has to be finished first.
pub fn asked_always()
    ensures { AskedAlways }
{}

/// In a drained group no living process has a copy of a block for a leader that is dead.
pub fn forgotten_always()
    ensures { ForgottenAlways }
{}
