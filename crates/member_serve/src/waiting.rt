use crate::callers::Callers;
use crate::serving::Serving;
use std::time::Duration;

/// The longest wait, in milliseconds.
const LONGEST: u64 = 100;

impl<R, W, G: Callers> Serving<'_, R, W, G> {
    /// For how long at most it waits for what comes.
    pub(crate) fn limit(&self) -> Duration {
        if self.links.has_input() || self.client_port.is_ready(self.now) {
            return Duration::from_millis(0);
        }
        let due = self.worker.gateway().limit().unwrap_or(LONGEST);
        Duration::from_millis(due.min(LONGEST))
    }
}
