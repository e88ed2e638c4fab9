ghost use Rattle.std.specs.Prelude.{◌≡◌, ◌≢◌, ◌<◌, true, false};

/// What is known of the bytes that a stream has to be read.
#[derive(Clone, Copy, Debug, PartialEq, Eq)]
pub(crate) enum Supply {
    /// Nothing: none may come of which it is told.
    Unknown,
    /// Some may be there, and it is told of those that come.
    Open,
    /// None are there until it is told of some.
    Drained,
}

impl Supply {
    /// What is known once the stream is told as ready: where its peer may have closed it, that is the last time.
    pub(crate) fn woken(self, ends: bool) -> Supply
        ensures awake { result ≢ Supply.Drained }
        ensures ends { ends ≡ true → result ≡ Supply.Unknown }
        ensures told { ends ≡ false → self ≢ Supply.Unknown → result ≡ Supply.Open }
        ensures unknown { self ≡ Supply.Unknown → result ≡ Supply.Unknown }
    {
        match self {
            Supply::Open | Supply::Drained if !ends => Supply::Open,
            _ => Supply::Unknown,
        }
    }

    /// What is known once so many bytes were read into a room: where some came and it isn't full, none are left.
    pub(crate) fn behind(self, count: usize, room: usize) -> Supply
        ensures some { result ≡ Supply.Drained → 0 < count }
        ensures short { result ≡ Supply.Drained → count < room }
        ensures told { result ≡ Supply.Drained → self ≢ Supply.Unknown }
        ensures drains { 0 < count → count < room → self ≢ Supply.Unknown → result ≡ Supply.Drained }
        ensures unknown { self ≡ Supply.Unknown → result ≡ Supply.Unknown }
    {
        match self {
            Supply::Unknown => Supply::Unknown,
            _ if count != 0 && count < room => Supply::Drained,
            _ => Supply::Open,
        }
    }
}
