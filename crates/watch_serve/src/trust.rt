/// For how long etcd has to have answered before anybody is dead by it, in milliseconds: by then who watches has leases again.
pub(crate) const SETTLED: u64 = 10_000;

/// Since when etcd has answered without a gap.
#[derive(Clone, Copy, Drop)]
pub(crate) struct Trust {
    since: Option<u64>,
    last: u64,
}

impl Trust {
    /// It hasn't answered.
    pub(crate) fn none() -> Trust {
        Trust {
            since: None,
            last: 0,
        }
    }

    /// It answered. Says for how long it hadn't, where that was longer than a lease of so many seconds allows, and it was trusted.
    pub(crate) fn note(&mut self, now: u64, seconds: u32) -> Option<u64> {
        let gap = now.saturating_sub(self.last);
        let was_settled = self.is_settled(self.last);
        self.last = now;
        if self.since.is_some() && gap <= most_gap(seconds) {
            return None;
        }
        self.since = Some(now);
        if was_settled { Some(gap) } else { None }
    }

    /// What it answers isn't to be trusted yet.
    pub(crate) fn begin_anew(&mut self, now: u64) {
        if self.since.is_some() {
            self.since = Some(now);
        }
    }

    /// Whether it has answered for long enough.
    pub(crate) fn is_settled(self, now: u64) -> bool {
        match self.since {
            Some(since) => now.saturating_sub(since) >= SETTLED,
            None => false,
        }
    }
}

/// The longest time without an answer by which no lease of so many seconds can have run out, in milliseconds.
fn most_gap(seconds: u32) -> u64 {
    u64::from(seconds).saturating_mul(433)
}
