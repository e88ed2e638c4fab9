use group_types::Partition;
use memc_table::Op;

/// What a gateway asks of a member for a call: to treat it, or to look for it in a partition.
#[derive(Debug, Drop, PartialEq, Eq)]
pub enum Wish {
    Ask(Op),
    Trace(Partition),
}
