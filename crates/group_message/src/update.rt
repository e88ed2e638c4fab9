use group_types::{Key, Payload, Run};

/// What an accepted update is answered, at once or when it is collected.
#[derive(Clone, Copy, Debug, PartialEq, Eq)]
pub enum Outcome {
    Stored,
    Deleted,
    Touched,
    Number(u64),
}

/// What an update does to the item on its key. `delta` is the exclusive or of the value with the
/// bytes that stand in the run, `until` the second at which the item ends, if it ends.
#[derive(Debug, Drop, PartialEq, Eq, Clone)]
pub enum Body {
    Put {
        flags: u32,
        until: Option<u64>,
        run: Run,
        delta: Payload,
    },
    Remove,
    Touch {
        until: Option<u64>,
    },
}

/// An accepted update of a partition: its number, from 1, and the call that it is of. `frees` is the
/// run of the item that it replaces or removes, if there is one.
#[derive(Debug, Drop, PartialEq, Eq, Clone)]
pub struct Update {
    pub number: u64,
    pub caller: u32,
    pub call: u64,
    pub key: Key,
    pub body: Body,
    pub frees: Option<Run>,
    pub outcome: Outcome,
}
