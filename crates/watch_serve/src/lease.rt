/// What a member has in etcd.
#[derive(Clone, Copy, Drop)]
pub(crate) struct Lease {
    /// The lease, if there is one.
    pub(crate) id: Option<u64>,
    /// Whether the member stands under it.
    pub(crate) holds: bool,
    /// When it was asked for last, with success.
    pub(crate) renewed: u64,
}

impl Lease {
    /// None.
    pub(crate) fn none() -> Lease {
        Lease {
            id: None,
            holds: false,
            renewed: 0,
        }
    }

    /// One that was found, under which the member stands: it is to be asked for again now.
    pub(crate) fn found(id: Option<u64>, now: u64, seconds: u32) -> Lease {
        Lease {
            id,
            holds: true,
            renewed: now.saturating_sub(quarter_of(seconds)),
        }
    }

    /// Whether it is to be asked for again, as one of so many seconds.
    pub(crate) fn is_due(self, now: u64, seconds: u32) -> bool {
        self.id.is_some() && now.saturating_sub(self.renewed) >= quarter_of(seconds)
    }

    /// Whether it has run out by itself, as one of so many seconds.
    pub(crate) fn is_over(self, now: u64, seconds: u32) -> bool {
        now.saturating_sub(self.renewed) >= u64::from(seconds).saturating_mul(1_500)
    }
}

/// A quarter of so many seconds, in milliseconds: so often a lease is asked for again.
fn quarter_of(seconds: u32) -> u64 {
    u64::from(seconds).saturating_mul(250)
}

/// How long a question may wait for its answer where a lease lasts so many seconds, in milliseconds: by a third two that are lost
/// end no lease.
pub(crate) fn most_wait(seconds: u32) -> u64 {
    u64::from(seconds).saturating_mul(333)
}
