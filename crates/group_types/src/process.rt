/// How many callers there may be: each is a number below this.
pub const CALLERS: u32 = 256;

/// A process of a group: a data process or a parity process, by its number.
#[derive(Clone, Copy, Debug, PartialEq, Eq)]
pub enum ProcessId {
    DataNode(u32),
    ParityNode(u32),
}

/// The keys whose home is one data process.
#[derive(Clone, Copy, Debug, PartialEq, Eq)]
pub struct Partition(pub u32);

/// A place in the order in which processes head a partition: 0 is its data process, and i + 1 is
/// parity process i.
#[derive(Clone, Copy, Debug, PartialEq, Eq)]
pub struct Rank(pub u32);
