use group_types::{ProcessId, Shape};

/// What a group is called: 16 bytes, drawn when it is set up.
#[derive(Clone, Copy, Debug, PartialEq, Eq)]
pub struct GroupId {
    pub high: u64,
    pub low: u64,
}

/// The first frame of each side of a link: who it is, of which group, and a number that its program drew when it started.
#[derive(Clone, Copy, Debug, PartialEq, Eq)]
pub struct Hello {
    pub version: u16,
    pub group: GroupId,
    pub shape: Shape,
    pub from: ProcessId,
    pub to: ProcessId,
    pub drawn: u64,
}
