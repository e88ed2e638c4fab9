use crate::callers::Callers;
use crate::report::Report;
use crate::serving::Serving;
use crate::telling::{tell_patience, tell_recovery};

impl<R, W: Report, G: Callers> Serving<'_, R, W, G> {
    /// Lets all clients go once the others' answers, by which theirs are shown, are waited for too long, or fewer than k members
    /// are within reach for so long.
    pub(crate) fn lose_patience(&mut self) {
        self.few_since = self.few_from();
        let was_stuck = self.is_stuck;
        self.is_stuck = self.is_too_long(self.worker.gateway().waits_since())
            || self.is_too_long(self.few_since);
        if self.is_stuck && !was_stuck {
            tell_patience(self.alloc, self.report, self.settings.patience);
            self.worker.readiness().shut_all();
        } else if was_stuck && !self.is_stuck {
            tell_recovery(self.report);
        }
    }

    // Since when fewer than k members are within reach of this one, which served clients before.
    fn few_from(&self) -> Option<u64> {
        if !self.client_port.is_open()
            || self.links.fewest_up().saturating_add(1) >= self.settings.shape.k()
        {
            return None;
        }
        Some(self.few_since.unwrap_or(self.now))
    }

    // Whether this has lasted longer than a member is patient.
    fn is_too_long(&self, since: Option<u64>) -> bool {
        let patience = u64::from(self.settings.patience).saturating_mul(1_000);
        since.is_some_and(|since| self.now.saturating_sub(since) >= patience)
    }
}
