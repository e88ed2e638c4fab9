/// A stream became ready, and its peer may have closed it.
#[derive(Clone, Copy, Debug, PartialEq, Eq)]
pub struct Notice {
    /// The key of the stream.
    pub key: usize,
    /// Whether its peer may have closed it: what is still to be read of it is not told again.
    pub ends: bool,
}
