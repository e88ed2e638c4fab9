use memc_proto::CallEnd;
use memc_table::Reply;

/// How many outcomes there are.
pub(crate) const OUTCOMES: usize = 3;

/// What came of a client's call.
#[derive(Clone, Copy)]
pub enum Outcome {
    /// What it asked was done, or found.
    Done,
    /// The item on its key, or that there is none, stood against it.
    Refused,
    /// There was no space for its value.
    NoSpace,
}

impl Outcome {
    /// The outcome of a call that ended so.
    pub(crate) fn of(end: &CallEnd) -> Outcome {
        match end {
            CallEnd::Reply(reply) => Outcome::of_reply(reply),
            _ => Outcome::NoSpace,
        }
    }

    fn of_reply(reply: &Reply) -> Outcome {
        match reply {
            Reply::Value(_) | Reply::Stored | Reply::Deleted | Reply::Touched | Reply::Number(_) =>
                Outcome::Done,
            _ => Outcome::Refused,
        }
    }

    /// Its place among the outcomes.
    pub(crate) fn place(self) -> usize {
        match self {
            Outcome::Done => 0,
            Outcome::Refused => 1,
            Outcome::NoSpace => 2,
        }
    }
}
