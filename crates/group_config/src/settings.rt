use crate::address::Address;
use group_types::Shape;

/// How a group is served.
#[derive(Drop)]
pub struct Settings {
    /// The group's shape.
    pub shape: Shape,
    /// Where it is served.
    pub address: Address,
    /// How many connections are served at once beside the one that the accepting thread serves, 1 to 64.
    pub workers: u32,
    /// After how many connections serving ends, at most 2^62: 0 for never.
    pub connections: u64,
    /// Whether a connection may let processes fail.
    pub control: bool,
}
