use memc_table::{Op, Reply};

/// An entry of the log: the call `call` of `caller`, counted from 0, its op and its reply.
#[derive(Debug, Drop, PartialEq, Eq)]
pub struct Entry {
    pub caller: u32,
    pub call: u64,
    pub op: Op,
    pub reply: Reply,
}
