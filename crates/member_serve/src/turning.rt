use crate::callers::Callers;
use crate::client_port::CLIENT_PORT;
use crate::control::{CONTROL_PORT, FIRST_CONTROL};
use crate::noting::Noted;
use crate::report::Report;
use crate::seats::member_of;
use crate::serving::Serving;
use crate::telling::{tell_end, tell_event};
use member_links::{LinkEnd, LinkEvent};
use member_machine::MemberEnd;
use ready_worker::Watch;
use std::net::Net;
use std::sync::Wait;
use std::time;
use std::time::Duration;

/// The most events of links that are told in a turn.
const MOST_EVENTS: u32 = 64;

impl<R: Net + time::Clock, W: Report + Watch, G: Callers> Serving<'_, R, W, G> {
    /// Runs until a word ends it or it has to stop.
    pub(crate) fn run(&mut self) -> MemberEnd
    where
        R: Wait,
    {
        'turns: for _ in self.rt.forever() {
            if let Some(end) = self.turn() {
                return end;
            }
        }
        unreachable!()
    }

    // A turn: waits, and then treats all that came.
    fn turn(&mut self) -> Option<MemberEnd> {
        let limit = self.limit();
        let ready = self.worker.await_ready(Some(limit));
        self.tell_time();
        self.note_ready();
        self.establish();
        self.accept_clients();
        if self.hear_operators() {
            return Some(MemberEnd::Ended);
        }
        self.exchange(ready);
        self.lose_patience();
        self.tell_events();
        self.tell_deaths();
        self.tell_space();
        self.end()
    }

    // Sees how late it is. Where the system's clocks fail the time stands still.
    fn tell_time(&mut self) {
        if let Ok(time) = self.rt.monotonic() {
            self.now = millis_of(time);
        }
        if let Ok(time) = self.rt.since_1970() {
            self.clock.set(time);
        }
        self.links.set_now(self.now);
    }

    // Notes what else than clients' streams became ready.
    fn note_ready(&mut self) {
        'noted: for at in 0..self.worker.readiness().others() {
            if let Some(noted) = self.worker.readiness().other(at) {
                self.note(noted);
            }
        }
    }

    fn note(&mut self, noted: Noted) {
        if noted.token == CLIENT_PORT {
            self.client_port.note_ready();
        } else if noted.token == CONTROL_PORT || noted.token >= FIRST_CONTROL {
            self.control.note_ready(noted.token);
        } else {
            self.links.note_ready(noted.token, noted.ends);
        }
    }

    // Goes on with what is no link yet.
    fn establish(&mut self) {
        let registry = self.worker.readiness().registry();
        self.links.establish(self.rt, registry);
    }

    // Takes what came from the others, serves the clients that can go on, and sends what is to go to the others.
    fn exchange(&mut self, ready: usize) {
        self.worker.receive(&mut self.links.groups);
        self.serve_clients(ready);
        self.worker.send(&mut self.links.groups);
        self.links.write_out();
    }

    // Serves the clients that are ready, and those that can go on by what came.
    fn serve_clients(&mut self, ready: usize) {
        let _ = self.worker.serve(ready);
        'woken: for _ in 0..self.worker.len() {
            if !self.worker.has_queued() {
                return;
            }
            let _ = self.worker.serve(0);
        }
    }

    // Tells what became of links.
    fn tell_events(&mut self) {
        'groups: for group in 0..self.settings.groups {
            self.tell_events_in(group);
        }
    }

    fn tell_events_in(&mut self, group: u32) {
        'events: for _ in 0..MOST_EVENTS {
            match self.links.next_event(group) {
                Some(event) => self.tell(group, event),
                None => return,
            }
        }
    }

    fn tell(&mut self, group: u32, event: LinkEvent) {
        if let LinkEvent::Broken(_) = event {
            self.tally.lose_link();
        }
        tell_event(self.alloc, self.report, self.settings, group, event);
    }

    // Why the member has to stop, if one of its groups has it to: a person is told.
    fn end(&self) -> Option<MemberEnd> {
        'groups: for group in 0..self.settings.groups {
            if let Some(end) = self.links.end(group) {
                tell_end(self.alloc, self.report, self.settings, group, end);
                return Some(self.end_of(group, end));
            }
        }
        None
    }

    // How a run ends that has to stop for this reason, of a group.
    fn end_of(&self, group: u32, end: LinkEnd) -> MemberEnd {
        match end {
            LinkEnd::Misfit(x) | LinkEnd::BadFrame(x) => MemberEnd::Misfit {
                peer: member_of(self.settings.shape, group, x),
            },
            LinkEnd::NoSpelling(_) => MemberEnd::LinkFault,
            LinkEnd::Refused(_) => MemberEnd::Refused,
        }
    }
}

/// A time in milliseconds.
fn millis_of(time: Duration) -> u64 {
    let whole = time.as_secs().saturating_mul(1_000);
    whole.saturating_add(u64::from(time.subsec_millis()))
}
