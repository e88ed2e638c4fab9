/// The end of input and output at which a call fails.
#[derive(Clone, Copy, PartialEq, Eq)]
pub enum End {
    Read,
    Write,
    /// A call of the listener: it listens, and then accepts.
    Accept,
}

/// A call that fails, and how much of a dialogue's output is written then, before the last line.
#[derive(Clone, Copy)]
pub struct Fault {
    pub end: End,
    /// Which call it is, counted from 1.
    pub number: u64,
    pub len: usize,
    /// The most bytes that a read gives: all sizes are tried where it is 0.
    pub piece: usize,
}

impl Fault {
    /// The fault of a word `@<end>:<number>:<len>` or `@<end>:<number>:<len>:<piece>`.
    pub fn named(word: &str) -> Option<Fault> {
        let mut parts = word.strip_prefix('@')?.split(':');
        let end = match parts.next()? {
            "read" => End::Read,
            "write" => End::Write,
            "accept" => End::Accept,
            _ => return None,
        };
        Some(Fault {
            end,
            number: parts.next()?.parse().ok()?,
            len: parts.next()?.parse().ok()?,
            piece: parts.next().and_then(|part| part.parse().ok()).unwrap_or(0),
        })
    }

    /// The number of the call that fails at this end: 0 where none does.
    pub fn at(&self, end: End) -> u64 {
        if self.end == end { self.number } else { 0 }
    }
}
