use group_message::{Body, Outcome};
use memc_table::Reply;

/// What the head of a partition decides of a call, in the order of its rules.
#[derive(Debug, Drop)]
pub enum Decision {
    /// The reply is given at once.
    Answer(Reply),
    /// The update of this number has to be settled first.
    Retry(u64),
    /// No free run has the length of the new value.
    NoSpace,
    /// This block has to be rebuilt first.
    NeedBlock(u32),
    /// The next update of the partition.
    Issue { body: Body, outcome: Outcome },
}
