use group_types::Key;

/// An item as the head of its partition lists it.
#[derive(Debug, Drop)]
pub struct Listed {
    /// Its key.
    pub key: Key,
    /// Its flags.
    pub flags: u32,
    /// How many bytes its value has.
    pub length: u32,
    /// The second from which on it has ended, if it ends.
    pub until: Option<u64>,
}
