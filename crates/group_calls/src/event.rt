use group_types::{Partition, ProcessId};
use memc_table::{Op, Reply};

/// What happens to a group, one thing at a time: a call, one message received, or one failure.
#[derive(Debug, Drop, PartialEq, Eq)]
pub enum Event {
    Ask {
        caller: u32,
        op: Op,
        at: ProcessId,
    },
    Collect {
        caller: u32,
        call: u64,
        at: ProcessId,
    },
    Deliver {
        from: ProcessId,
        to: ProcessId,
    },
    Fail {
        at: ProcessId,
        keep: u32,
    },
    Flush {
        at: ProcessId,
    },
    Trace {
        caller: u32,
        call: u64,
        partition: Partition,
        at: ProcessId,
    },
}

/// Why a call has to be asked again: for an update that isn't finished, or for a block that has to
/// be rebuilt first.
#[derive(Debug, Drop, PartialEq, Eq)]
pub enum Cause {
    Pending { partition: Partition, number: u64 },
    Block { block: u32 },
}

/// What an event is answered.
#[derive(Debug, Drop, PartialEq, Eq)]
pub enum Answer {
    Reply(Reply),
    Ticket(u64),
    NotYet,
    NoSpace,
    Retry(Cause),
    Moved,
    Lost,
    Down,
    Idle,
    Stranger,
    Done,
    AlreadyDead,
    Gone,
    Stale(u64),
}

/// What comes of an event: its answer, and how many entries it added at the end of the log.
#[derive(Debug, Drop, PartialEq, Eq)]
pub struct Out {
    pub answer: Answer,
    pub logged: u64,
}
