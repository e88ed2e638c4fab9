use group_types::ByteList;

/// What a head finds in a run of its partition's space: the bytes, or the lowest block that has to be
/// rebuilt first.
#[derive(Debug, Drop)]
pub enum Found {
    Bytes(ByteList),
    Missing(u32),
}
