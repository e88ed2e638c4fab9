use crate::callers::Callers;
use crate::report::Report;
use crate::serving::Serving;
use crate::telling::{tell_closed, tell_moved, tell_open};

impl<R, W: Report, G: Callers> Serving<'_, R, W, G> {
    /// No change is taken from now on: those that are open go on.
    pub(crate) fn answer_close(&mut self, at: usize) {
        if !self.worker.gateway().is_closed() {
            self.worker.set_closed(true);
            tell_closed(self.report);
        }
        self.control.answer(at, "closed\n");
    }

    /// Changes are taken again, and clients served.
    pub(crate) fn answer_open(&mut self, at: usize) {
        if self.worker.gateway().is_closed() {
            self.worker.set_closed(false);
            tell_open(self.report);
        }
        self.is_moved = false;
        self.listings.clear();
        self.control.answer(at, "open\n");
    }

    /// The group's items are in another: its clients are let go.
    pub(crate) fn answer_moved(&mut self, at: usize) {
        if !self.is_moved {
            self.worker.set_closed(true);
            self.is_moved = true;
            self.listings.clear();
            self.worker.readiness().shut_all();
            tell_moved(self.report);
        }
        self.control.answer(at, "moved\n");
    }
}
