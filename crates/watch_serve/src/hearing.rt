use crate::exchange::{Asked, Outcome};
use crate::lease::{Lease, most_wait};
use crate::report::WatchReport;
use crate::watching::Watching;
use etcd_words::{lease_in, seconds_in, was_done};

/// After how many milliseconds etcd is asked again that didn't answer.
const AGAIN: u64 = 100;

/// After how many milliseconds without an answer a person is told so.
const AWAY: u64 = 3_000;

impl<R, W: WatchReport> Watching<'_, R, W> {
    /// Hears what etcd answers.
    pub(crate) fn hear_etcd(&mut self) {
        let asked = self.exchange.asked;
        if asked == Asked::Nothing {
            return;
        }
        match self.exchange.go_on(self.now, most_wait(self.watch.seconds)) {
            Outcome::Waits => {}
            Outcome::Refused => self.hear_refusal(asked),
            Outcome::None => self.put_off(),
            Outcome::Answer(body) => {
                self.exchange.give_up();
                if self.take(asked, body.as_slice()) {
                    self.note_answer();
                } else {
                    self.put_off();
                }
            }
        }
    }

    // etcd refused: so it does where a lease has ended.
    fn hear_refusal(&mut self, asked: Asked) {
        match asked {
            Asked::Register | Asked::Revoke => self.lease = Lease::none(),
            Asked::Condemn => self.next = None,
            _ => {}
        }
        self.has_looked = false;
        self.put_off();
    }

    /// Asks the next address, some time later.
    pub(crate) fn put_off(&mut self) {
        self.exchange.give_up();
        self.changes.give_up();
        self.again = self.now.saturating_add(AGAIN);
        self.at = self.at.saturating_add(1);
        if self.at >= self.watch.etcd.as_slice().len() {
            self.at = 0;
        }
        self.tell_absence();
    }

    // Tells once that etcd hasn't answered for some time.
    fn tell_absence(&mut self) {
        if !self.is_away && self.now.saturating_sub(self.answered) >= AWAY {
            self.is_away = true;
            self.report
                .warn("etcd doesn't answer, which is tried again");
        }
    }

    fn note_answer(&mut self) {
        self.answered = self.now;
        if self.is_away {
            self.is_away = false;
            self.report.note("etcd answers again");
        }
    }

    // Takes an answer. Says whether it was one.
    fn take(&mut self, asked: Asked, body: &[u8]) -> bool {
        match asked {
            Asked::Grant => self.take_lease(body),
            Asked::Register => self.take_registration(body),
            Asked::Renew => self.take_renewal(body),
            Asked::Look => self.take_look(body),
            Asked::Condemn => self.take_condemnation(body),
            Asked::Revoke => {
                self.lease = Lease::none();
                true
            }
            Asked::Nothing => true,
        }
    }

    fn take_lease(&mut self, body: &[u8]) -> bool {
        let Some(id) = lease_in(self.alloc, body) else {
            return false;
        };
        self.lease = Lease {
            id: Some(id),
            holds: false,
            renewed: self.exchange.asked_at,
        };
        true
    }

    // Where the member stood in etcd already it is seen by which lease.
    fn take_registration(&mut self, body: &[u8]) -> bool {
        let done = was_done(self.alloc, body);
        if done == Some(true) {
            self.lease.holds = true;
            self.tell_alive();
        } else {
            self.lease = Lease::none();
        }
        self.has_looked = false;
        done.is_some()
    }

    fn take_renewal(&mut self, body: &[u8]) -> bool {
        match seconds_in(self.alloc, body) {
            Some(0) => {
                self.lease = Lease::none();
                self.has_looked = false;
                self.report.warn("the lease ran out");
                true
            }
            Some(_) => {
                self.lease.renewed = self.exchange.asked_at;
                true
            }
            None => false,
        }
    }

    fn take_condemnation(&mut self, body: &[u8]) -> bool {
        let done = was_done(self.alloc, body);
        if done == Some(true) {
            self.tell_condemned();
        }
        self.next = None;
        self.look_due = self.now;
        done.is_some()
    }
}
