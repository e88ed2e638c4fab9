/// What a connection keeps of a call that it began.
#[derive(Debug, Drop, PartialEq, Eq)]
pub struct GroupCall<K> {
    /// The number of its group.
    pub(crate) group: usize,
    /// The call there.
    pub(crate) inner: K,
}
