/// The most connections that are open at a time.
pub const MOST_OPEN: u64 = 10_000;

/// How many are open where connections that were refused can come again: a tenth has left.
const FEW_OPEN: u64 = MOST_OPEN / 10 * 9;

/// Whether connections are refused since too many are open.
#[derive(Clone, Copy, Debug, PartialEq, Eq)]
pub struct Crowd {
    is_full: bool,
}

/// What became of a crowd.
#[derive(Clone, Copy, Debug, PartialEq, Eq)]
pub enum CrowdChange {
    None,
    /// From now on connections are refused.
    Fills,
    /// They aren't refused any more.
    Thins,
}

impl Crowd {
    /// None is refused.
    pub fn new() -> Crowd {
        Crowd { is_full: false }
    }

    /// A connection came when so many were open.
    pub fn note(&mut self, open: u64) -> CrowdChange {
        if !self.is_full && open >= MOST_OPEN {
            self.is_full = true;
            return CrowdChange::Fills;
        }
        if self.is_full && open < FEW_OPEN {
            self.is_full = false;
            return CrowdChange::Thins;
        }
        CrowdChange::None
    }
}
