use group_types::{Key, Partition, Payload};

/// An item that is carried: `len` is how many bytes its value has, and `until` the second at which it ends, if it ends.
#[derive(Debug, Drop)]
pub(crate) struct Item {
    pub(crate) partition: Partition,
    pub(crate) key: Key,
    pub(crate) len: u32,
    pub(crate) flags: u32,
    pub(crate) until: Option<u64>,
}

/// An item on its way, with its value.
#[derive(Debug, Drop)]
pub(crate) struct Parcel {
    pub(crate) item: Item,
    pub(crate) value: Payload,
}
