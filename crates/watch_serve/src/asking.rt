use crate::exchange::Asked;
use crate::member_wire::Presence;
use crate::names::{control_at, name_at};
use crate::report::WatchReport;
use crate::watching::Watching;
use crate::wire::Wire;
use etcd_words::{Ask, request_of};
use std::alloc::AllocError;
use std::net::Net;

/// The tokens of the connections to etcd.
const QUESTION: usize = 2;

const CHANGES: usize = 3;

impl<R: Net, W: WatchReport> Watching<'_, R, W> {
    /// Asks etcd what is next, where nothing is asked.
    pub(crate) fn ask_etcd(&mut self) {
        if self.exchange.asked != Asked::Nothing || self.now < self.again {
            return;
        }
        let asked = self.next_question();
        if asked == Asked::Nothing {
            return;
        }
        match self.question(asked) {
            Ok(text) => self.begin(asked, text.as_str()),
            Err(AllocError) => self.put_off(),
        }
        if self.changes.is_wanted(self.now) && self.lease.holds {
            self.ask_for_changes();
        }
    }

    // What is to be asked next.
    fn next_question(&self) -> Asked {
        match self.member.presence() {
            Presence::Awaited => Asked::Nothing,
            Presence::Gone if self.lease.id.is_some() => Asked::Revoke,
            Presence::Gone => Asked::Nothing,
            Presence::There | Presence::Doubtful(_) => self.next_of_living(),
        }
    }

    fn next_of_living(&self) -> Asked {
        if !self.has_looked {
            Asked::Look
        } else if !self.lease.holds {
            self.next_of_unregistered()
        } else if self.lease.is_due(self.now, self.watch.seconds) {
            Asked::Renew
        } else if self.next.is_some() {
            Asked::Condemn
        } else if self.now >= self.look_due {
            Asked::Look
        } else {
            Asked::Nothing
        }
    }

    fn next_of_unregistered(&self) -> Asked {
        if self.lease.id.is_none() {
            Asked::Grant
        } else {
            Asked::Register
        }
    }

    // The text of a question.
    fn question(&self, asked: Asked) -> Result<String, AllocError> {
        match asked {
            Asked::Register => self.registration(),
            Asked::Condemn => self.condemnation(),
            _ => self.request(self.short_question(asked)),
        }
    }

    fn short_question(&self, asked: Asked) -> Ask<'_> {
        let lease = self.lease.id.unwrap_or(0);
        match asked {
            Asked::Grant => Ask::Grant {
                seconds: self.watch.seconds,
            },
            Asked::Renew => Ask::Renew { lease },
            Asked::Revoke => Ask::Revoke { lease },
            _ => Ask::Range {
                from: self.keys.root.as_str(),
                to: self.keys.end.as_str(),
            },
        }
    }

    fn registration(&self) -> Result<String, AllocError> {
        let own = self.settings.own as usize;
        let name = name_at(self.settings, own);
        let alive = self.keys.alive(name)?;
        let seen = self.keys.seen(name)?;
        self.request(Ask::Register {
            lease: self.lease.id.unwrap_or(0),
            alive: alive.as_str(),
            seen: seen.as_str(),
            value: control_at(self.settings, own),
        })
    }

    // That one more is dead.
    fn condemnation(&self) -> Result<String, AllocError> {
        let name = name_at(self.settings, self.next.unwrap_or(0));
        let alive = self.keys.alive(name)?;
        let space = if self.dead.is_empty() { "" } else { " " };
        let value = format!(in self.alloc; "{}{space}{name}", self.dead.as_str())?;
        self.request(Ask::Condemn {
            dead: self.keys.dead.as_str(),
            revision: self.revision,
            value: value.as_str(),
            alive: alive.as_str(),
        })
    }

    fn request(&self, ask: Ask<'_>) -> Result<String, AllocError> {
        request_of(self.alloc, self.address(), ask)
    }

    // Which etcd is asked.
    fn address(&self) -> &str {
        match self.watch.etcd.as_slice().get(self.at) {
            Some(address) => address.as_str(),
            None => "",
        }
    }

    fn begin(&mut self, asked: Asked, text: &str) {
        match self.open(QUESTION, text) {
            Some(wire) => self.exchange.begin(wire, asked, self.now),
            None => self.put_off(),
        }
    }

    fn open(&self, token: usize, text: &str) -> Option<Wire> {
        let registry = self.poll.registry();
        let mut wire = Wire::open(self.rt, self.alloc, registry, token, self.address()).ok()?;
        wire.say(text).ok()?;
        Some(wire)
    }

    // Asks for a line at each change.
    fn ask_for_changes(&mut self) {
        let ask = Ask::Watch {
            from: self.keys.root.as_str(),
            to: self.keys.end.as_str(),
        };
        let wire = match self.request(ask) {
            Ok(text) => self.open(CHANGES, text.as_str()),
            Err(_) => None,
        };
        self.changes.begin(wire, self.now);
    }
}
