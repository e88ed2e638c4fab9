use group_types::Payload;

/// An item as a `get` shows it: the client's flags, the cas number and the value.
#[derive(Debug, Drop, PartialEq, Eq, Clone)]
pub struct Item {
    pub flags: u32,
    pub cas: u64,
    pub value: Payload,
}

/// The answer of the table to an op (memcached's protocol).
#[derive(Debug, Drop, PartialEq, Eq, Clone)]
pub enum Reply {
    Value(Item),
    Miss,
    Stored,
    NotStored,
    Exists,
    NotFound,
    Deleted,
    Touched,
    Number(u64),
    NotNumber,
    TooLarge,
}
