/// How far what waited was sent.
#[derive(Clone, Copy, Debug, PartialEq, Eq)]
pub enum Sending {
    /// All of it.
    All,
    /// As much as was to be sent at once, and more waits.
    Part,
    /// As much as the stream takes without waiting, and more waits.
    Waits,
}
