//! The exact cause of each answer, what an answer to an ask leaves as it was, and the bounds of every run, for code
//! that runs the machine and makes its room before each step: which messages come to which process, how many dead it
//! may learn of, how high numbers rise, of which calls tickets and entries are, and how much one step sends and
//! settles. That what comes fits the process is left to the crate of the headline.
#![tactic(auto)]

ghost use Rattle.law_answers.specs.Deliveries.{FewDeadAlways, KindsAlways, OwnMarksAlways};
ghost use Rattle.law_answers.specs.Laws.{AnswersAlways, AsksAlways, AsksLeaveAlways, ClearAlways, CollectsAlways, DeliveriesAlways, FailuresAlways, FlushesAlways, TracesAlways};
ghost use Rattle.law_answers.specs.Numbers.{NumbersLowAlways};
ghost use Rattle.law_answers.specs.Rules.{RulesAlways};
ghost use Rattle.law_answers.specs.Steps.{AlwaysSendsFew, AlwaysSendsInside, AlwaysSettlesFew};
ghost use Rattle.law_answers.specs.Tickets.{EntriesAlways, TicketsAlways};

/// Why a delivery is answered so.
pub fn deliveries_always()
    ensures { DeliveriesAlways }
{}

/// Why a failure is answered so.
pub fn failures_always()
    ensures { FailuresAlways }
{}

/// Why a flush is answered so.
pub fn flushes_always()
    ensures { FlushesAlways }
{}

/// Why a collect is answered so.
pub fn collects_always()
    ensures { CollectsAlways }
{}

/// What an answer to an ask leaves as it was.
pub fn asks_leave_always()
    ensures { AsksLeaveAlways }
{}

/// Why a trace is answered so.
pub fn traces_always()
    ensures { TracesAlways }
{}

/// Why an ask is answered so.
pub fn asks_always()
    ensures { AsksAlways }
{}

/// A call that nothing stands in the way of is served.
pub fn clear_always()
    ensures { ClearAlways }
{}

/// An ask at a head that is ready is answered by the rules of a head in their order: each decides the answer where its
/// premise holds and no earlier one decides.
pub fn rules_always()
    ensures { RulesAlways }
{}

/// Each answer has its cause: the laws above, for every event that may come.
pub fn answers_always()
    ensures { AnswersAlways }
{}

/// Every message that is delivered to a living process is of a kind that is for it.
pub fn kinds_always()
    ensures { KindsAlways }
{}

/// While the group isn't down no living process learns of more than m dead.
pub fn few_dead_always()
    ensures { FewDeadAlways }
{}

/// A mark that is delivered to the leader of its session is for one that it started.
pub fn own_marks_always()
    ensures { OwnMarksAlways }
{}

/// No update, no session and no call has a number above that of the events.
pub fn numbers_low_always()
    ensures { NumbersLowAlways }
{}

/// Each ticket is of a call that was asked, and no two are of one call.
pub fn tickets_always()
    ensures { TicketsAlways }
{}

/// The entries that one event logs are of different calls.
pub fn entries_always()
    ensures { EntriesAlways }
{}

/// No step of a process sends more messages to one process than one for each partition, and one.
pub fn sends_few()
    ensures { AlwaysSendsFew }
{}

/// Every step of a process sends to processes of the group alone.
pub fn sends_inside()
    ensures { AlwaysSendsInside }
{}

/// No step of a process settles more updates than wait in its logs, and one that was asked.
pub fn settles_few()
    ensures { AlwaysSettlesFew }
{}
