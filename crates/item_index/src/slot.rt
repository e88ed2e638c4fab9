/// Where the value of an item stands, and what else a look-up gives of the item.
///
/// `at` and `len` are bytes of the value space, `cas` is the number that a store compares with, and
/// `until` is the second at which the item ends, if it ends.
#[derive(Clone, Copy, Debug, PartialEq, Eq)]
pub struct Slot {
    pub at: u32,
    pub len: u32,
    pub flags: u32,
    pub cas: u64,
    pub until: Option<u64>,
}
