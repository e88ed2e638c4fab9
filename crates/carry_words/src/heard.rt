use group_types::Payload;

/// What was answered to what was asked for an item.
#[derive(Debug, Drop)]
pub enum Heard {
    /// The item, with the flags and the length that were listed, and this value.
    Found { value: Payload },
    /// A miss.
    Missing,
    /// That it is set.
    Stored,
    /// An item with other flags or another length.
    Other,
    /// None of these: it is to be asked again.
    Refused,
}
