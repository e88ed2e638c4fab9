use group_types::ByteList;

/// The bytes of the block of this number.
#[derive(Debug, Drop)]
pub struct Page {
    pub number: u32,
    pub bytes: ByteList,
}
