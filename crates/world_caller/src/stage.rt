ghost use Rattle.std.specs.Prelude.{◌≡◌};
ghost use Rattle.world_caller.specs.Calling.{next_of_ask, next_of_collect};

use group_calls::{Answer, Cause};
use group_types::ProcessId;
use memc_proto::CallEnd;

/// What a call does next of its own.
#[derive(Clone, Copy, Debug, PartialEq, Eq)]
pub enum Stage {
    /// It is asked.
    Asks,
    /// Its ticket is collected at the process that issued it.
    Collects { call: u64, at: ProcessId },
}

/// How far a call has come.
#[derive(Debug, Drop, PartialEq, Eq)]
pub enum Next {
    Goes(Stage),
    Ends(CallEnd),
}

/// Where an ask leads that is answered so.
pub(crate) fn after_ask(call: u64, at: ProcessId, answer: Answer) -> Option<Next>
    ensures { result ≡ next_of_ask call at answer }
{
    match answer {
        Answer::Reply(reply) => Some(Next::Ends(CallEnd::Reply(reply))),
        Answer::Ticket(_) => Some(Next::Goes(Stage::Collects { call, at })),
        Answer::Retry(Cause::Block { .. }) => Some(Next::Goes(Stage::Asks)),
        Answer::NoSpace => Some(Next::Ends(CallEnd::NoSpace)),
        Answer::Down => Some(Next::Ends(CallEnd::Down)),
        _ => None,
    }
}

/// Where a collect leads that is answered so.
pub(crate) fn after_collect(answer: Answer) -> Option<Next>
    ensures { result ≡ next_of_collect answer }
{
    match answer {
        Answer::Reply(reply) => Some(Next::Ends(CallEnd::Reply(reply))),
        _ => None,
    }
}
