use memc_table::Reply;

/// How a call of a connection ended.
#[derive(Debug, Drop, PartialEq, Eq)]
pub enum CallEnd {
    Reply(Reply),
    /// No free run has the value's length.
    NoSpace,
    /// More processes are dead than the group can lose.
    Down,
    /// No further call can be counted.
    Worn,
    /// No call that may change an item is taken: the group's items are being moved into another.
    Moves,
}

/// How the order that a process fail ended.
#[derive(Clone, Copy, Debug, PartialEq, Eq)]
pub enum FailEnd {
    Made,
    AlreadyDead,
    /// The group has no such process.
    NoProcess,
    /// Such orders are not taken here.
    Off,
    /// No further call can be counted.
    Worn,
}
