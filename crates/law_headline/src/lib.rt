//! The headline: whatever calls, deliveries and failures come, in whatever order, the answers are those of one
//! memcached table in the order of one log, and any k survivors that agree on a stamp decode to exactly the values
//! written. The contracts say it for every shape and every run, with what is promised of block sessions, of every
//! message that is delivered, and of what a process shows. `proofs::All` has all that is carried from event to event.
#![tactic(auto)]

ghost use Rattle.law_headline.specs.Laws.{CallsAlways, CopiesAlways, FitsAlways, HeadlineAlways, RebuiltAlways};
ghost use Rattle.law_headline.specs.Recovering.{RecoversAlways, SessionsStandAlways};
ghost use Rattle.law_headline.specs.Shown.{TruthAlways};

/// One log; no logged update is undone at a living process; survivors agree on a stamp and decode exactly; and
/// values are written.
pub fn headline_always()
    ensures { HeadlineAlways }
{}

/// A rebuilt block of a living leader has the values of its partition up to the leader's settled number.
pub fn rebuilt_always()
    ensures { RebuiltAlways }
{}

/// A row's copy that isn't finished is the code at its marks, and elsewhere at the row's applied numbers.
pub fn copies_always()
    ensures { CopiesAlways }
{}

/// Every message that is delivered to a living process fits what that process holds.
pub fn fits_always()
    ensures { FitsAlways }
{}

/// Living replicas keep of each caller its last applied update, and held calls are of logged updates or of
/// those that wait in their head's log.
pub fn calls_always()
    ensures { CallsAlways }
{}

/// Every open session of a living leader has a stamp at which all that has come in for it stands, and all rows
/// that are on their way to it.
pub fn sessions_stand_always()
    ensures { SessionsStandAlways }
{}

/// Rebuilt blocks are exact, sessions stand at their stamps, and rows' copies are the code at theirs.
pub fn recovers_always()
    ensures { RecoversAlways }
{}

/// Along every run a living process holds what the log tells at its stamp.
pub fn truth_always()
    ensures { TruthAlways }
{}
