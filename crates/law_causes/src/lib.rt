//! What stands behind the answers: what is unfinished at a head is exactly what stands in its log, and each answer that
//! tells a call to wait names something unfinished; what a flush tells the others; when a process holds a call, and when
//! no longer; that no delivery is next exactly where a group is drained; and which updates have a run. It is told of
//! every run, and of the event that follows it. How the answers come about is left to the crate of the answers.
#![tactic(auto)]

ghost use Rattle.law_causes.specs.Calls.{CollectedAlways, TicketsHeldAlways, HeldLastAlways};
ghost use Rattle.law_causes.specs.Drained.{NextAlways};
ghost use Rattle.law_causes.specs.Flushing.{TellsAlways};
ghost use Rattle.law_causes.specs.Unfinished.{UnfinishedAlways};
ghost use Rattle.law_causes.specs.Values.{RunsAlways};
ghost use Rattle.law_causes.specs.Waiting.{WaitsAlways};
ghost use Rattle.law_causes.specs.Worked.{AnswersCome};

/// At every moment exactly the updates of a head's log are unfinished there, and at a head that is ready too.
pub fn unfinished_always()
    ensures { UnfinishedAlways }
{}

/// An ask, a collect or a trace that is told to wait for an update waits for one that is unfinished.
pub fn waits_always()
    ensures { WaitsAlways }
{}

/// A flush tells each other parity process the settled numbers of what the process heads, and does nothing else.
pub fn tells_always()
    ensures { TellsAlways }
{}

/// After a ticket the process holds the call.
pub fn tickets_held_always()
    ensures { TicketsHeldAlways }
{}

/// A held call stays held until a collect of it is replied to.
pub fn held_last_always()
    ensures { HeldLastAlways }
{}

/// After a collect that is replied to the process holds the call no longer.
pub fn collected_always()
    ensures { CollectedAlways }
{}

/// No delivery is next exactly where the group is drained.
pub fn next_always()
    ensures { NextAlways }
{}

/// An update has a run exactly where its op gives its key a value.
pub fn runs_always()
    ensures { RunsAlways }
{}

/// Each of the answers that these laws are about comes in a run.
pub fn answers_come()
    ensures { AnswersCome }
{}
