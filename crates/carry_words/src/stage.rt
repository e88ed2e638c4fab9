use group_types::Payload;

/// How far an item has come.
#[derive(Debug, Drop)]
pub enum Stage {
    /// It is to be read in the old group.
    Unread,
    /// Its value was read there, and is to be set in the new group.
    Read { value: Payload },
    /// It is set there, and is to be read back.
    Stored { value: Payload },
}
