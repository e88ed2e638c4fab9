/// Which calls of one connection may be under way together.
#[derive(Clone, Copy, Debug, PartialEq, Eq)]
pub enum Overlap {
    /// None: a call begins once the one before it ended.
    Never,
    /// Those on different keys.
    OtherKeys,
}

/// What the first request that waits needs.
#[derive(Clone, Copy, Debug, PartialEq, Eq)]
pub enum Need {
    /// A call.
    Call,
    /// An order that a process fail.
    Order,
    /// Nothing: its text can be written.
    Text,
}
