ghost use Rattle.std.specs.Prelude.{◌≡◌};
ghost use Rattle.stage_caller.specs.Calling.{asked_to, collected_to, traced_to};

use group_calls::Answer;
use memc_proto::CallEnd;

/// What a call does next of its own.
#[derive(Clone, Copy, Debug, PartialEq, Eq)]
pub enum Phase {
    /// It is asked.
    Asks,
    /// It waits for what became of the seat's ask of this number.
    Waits { call: u64 },
}

/// How far a call has come.
#[derive(Debug, Drop, PartialEq, Eq)]
pub enum Next {
    Goes(Phase),
    Ends(CallEnd),
}

/// Where the seat's ask of this number leads that is answered so.
pub(crate) fn after_ask(call: u64, answer: Answer) -> Next
    ensures { result ≡ asked_to call answer }
{
    match answer {
        Answer::Reply(reply) => Next::Ends(CallEnd::Reply(reply)),
        Answer::Ticket(_) => Next::Goes(Phase::Waits { call }),
        Answer::NoSpace => Next::Ends(CallEnd::NoSpace),
        Answer::Down => Next::Ends(CallEnd::Down),
        _ => Next::Goes(Phase::Asks),
    }
}

/// Where a collect of that ask leads.
pub(crate) fn after_collect(call: u64, answer: Answer) -> Next
    ensures { result ≡ collected_to call answer }
{
    match answer {
        Answer::Reply(reply) => Next::Ends(CallEnd::Reply(reply)),
        Answer::Down => Next::Ends(CallEnd::Down),
        _ => Next::Goes(Phase::Waits { call }),
    }
}

/// Where a trace of it leads.
pub(crate) fn after_trace(call: u64, answer: Answer) -> Next
    ensures { result ≡ traced_to call answer }
{
    match answer {
        Answer::Reply(reply) => Next::Ends(CallEnd::Reply(reply)),
        Answer::Down => Next::Ends(CallEnd::Down),
        Answer::Gone => Next::Goes(Phase::Asks),
        _ => Next::Goes(Phase::Waits { call }),
    }
}
