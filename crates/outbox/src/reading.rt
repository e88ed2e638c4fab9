/// What a read that does not wait came to.
#[derive(Clone, Copy, Debug, PartialEq, Eq)]
pub enum Reading {
    /// So many bytes came, at least one.
    Came(usize),
    /// The input has ended.
    Ended,
    /// Nothing is there yet.
    Waits,
}
