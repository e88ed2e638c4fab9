/// How a carry ended.
#[derive(Clone, Copy, Debug, PartialEq, Eq)]
pub enum CarryEnd {
    /// So many items were set in the new group and read back equal; the others had ended.
    Carried { items: u64 },
    /// Not all are: a person was told why. The old group takes no change.
    Stopped,
    /// There was no memory.
    Want,
}
