use group_calls::{Answer, Event};

/// What happens to a cluster: an event of one group, or the failure of a node with all its processes, whose links
/// each keep their first messages.
#[derive(Debug, Drop, PartialEq, Eq)]
pub enum ClusterEvent {
    InGroup { group: u32, event: Event },
    FailNode { node: u32, keep: u32 },
}

/// What an event is answered: by its group, by the group that the key is of, or of the node.
#[derive(Debug, Drop, PartialEq, Eq)]
pub enum ClusterAnswer {
    Inner(Answer),
    WrongGroup(u32),
    Done,
    AlreadyDead,
}

/// What comes of an event: its answer, and how many entries it added at the end of the log.
#[derive(Debug, Drop, PartialEq, Eq)]
pub struct ClusterOut {
    pub answer: ClusterAnswer,
    pub logged: u64,
}
