use group_types::ProcessId;
use std::sync::atomic::{AtomicU64, Ordering};

/// The processes of a group that clients let fail, for whoever tells a person of them.
#[derive(Drop)]
pub(crate) struct Losses {
    k: u32,
    lost: AtomicU64,
}

impl Losses {
    /// None is lost of a group with so many data processes.
    pub(crate) fn new(k: u32) -> Losses {
        Losses {
            k,
            lost: AtomicU64::new(0),
        }
    }

    /// A process is lost.
    pub(crate) fn note(&self, at: ProcessId) {
        let place = match at {
            ProcessId::DataNode(d) => d,
            ProcessId::ParityNode(i) => self.k.saturating_add(i),
        };
        self.lost.fetch_or(bit_of(place), Ordering::SeqCst);
    }

    /// The places of those that are lost, as bits: data processes first.
    pub(crate) fn lost(&self) -> u64 {
        self.lost.load(Ordering::SeqCst)
    }
}

/// The bit of a place: none where there are no more.
pub(crate) fn bit_of(place: u32) -> u64 {
    1u64.checked_shl(place).unwrap_or(0)
}
