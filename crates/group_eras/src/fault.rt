use group_types::Partition;

/// Why the items of a group aren't carried into a fresh one, in the order in which this is judged. The first three
/// leave everything as it was.
#[derive(Debug, Drop, PartialEq, Eq)]
pub enum CarryFault {
    /// More than m processes of the group are dead.
    Down,
    /// A message is on its way to a living process.
    NotDrained,
    /// The items of this partition, the first such, have more bytes together than the new space.
    NoSpace { partition: Partition },
    /// Want of memory: the old group stands.
    Want,
}
