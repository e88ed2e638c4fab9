use group_types::{Key, Payload, Run};

/// What an update does to the item on its key: it writes a value at a run, where the text tells one, or it removes the item, or
/// it leaves its value.
#[derive(Debug, Drop)]
pub enum Effect {
    Writes(Payload, Option<Run>),
    Removes,
    Keeps,
}

/// An update of a partition.
#[derive(Debug, Drop)]
pub struct Change {
    pub key: Key,
    pub effect: Effect,
}
