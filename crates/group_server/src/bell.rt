use std::sync::Wait;
use std::sync::atomic::{AtomicBool, Ordering};
use std::thread::Parker;
use std::time::Duration;

/// Tells the one thread that pauses at it that serving has ended.
#[derive(Drop)]
pub(crate) struct Bell {
    rang: AtomicBool,
    sleeper: Parker,
}

impl Bell {
    /// It hasn't rung.
    pub(crate) fn new() -> Bell {
        Bell {
            rang: AtomicBool::new(false),
            sleeper: Parker::new(),
        }
    }

    /// It rings, and ends a pause.
    pub(crate) fn ring(&self) {
        self.rang.store(true, Ordering::SeqCst);
        self.sleeper.unpark();
    }

    /// Whether it rang.
    pub(crate) fn rang(&self) -> bool {
        self.rang.load(Ordering::SeqCst)
    }

    /// Pauses so long, or until it rings.
    pub(crate) fn pause<R: Wait>(&self, rt: &R, time: Duration) {
        self.sleeper.park_timeout(rt, time);
    }
}
