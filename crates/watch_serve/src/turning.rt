use crate::exchange::Asked;
use crate::member_wire::Presence;
use crate::report::WatchReport;
use crate::watching::Watching;
use crate::wire::Wire;
use member_machine::MemberEnd;
use std::net::Net;
use std::sync::Wait;
use std::time;
use std::time::Duration;

/// How long a turn waits at most, in milliseconds.
const LONGEST_WAIT: u64 = 100;

/// The token of the connection to the member.
const MEMBER: usize = 1;

impl<R: Net + time::Clock, W: WatchReport> Watching<'_, R, W> {
    /// Watches until the member has ended and its lease is taken back.
    pub(crate) fn run(&mut self) -> MemberEnd
    where
        R: Wait,
    {
        'turns: for _ in self.rt.forever() {
            if self.turn() {
                return MemberEnd::Ended;
            }
        }
        unreachable!()
    }

    // A turn: waits, and then goes on with all connections. Says whether it was the last.
    fn turn(&mut self) -> bool {
        let _ = self.poll.poll(&mut self.events, Some(Duration::from_millis(LONGEST_WAIT)));
        self.tell_time();
        self.see_member();
        if self.member.presence() == Presence::Gone && self.exchange.asked != Asked::Revoke {
            self.exchange.give_up();
        }
        self.hear_changes();
        self.hear_etcd();
        if self.is_over() {
            return true;
        }
        self.ask_etcd();
        self.hear_member();
        self.tell_member();
        false
    }

    // Sees how late it is. Where the system's clock fails the time stands still.
    fn tell_time(&mut self) {
        if let Ok(time) = self.rt.monotonic() {
            let whole = time.as_secs().saturating_mul(1_000);
            self.now = whole.saturating_add(u64::from(time.subsec_millis()));
        }
    }

    // Sees whether the member is there.
    fn see_member(&mut self) {
        let before = self.member.presence();
        if self.member.is_wanted(self.now) {
            let wire = self.open_member();
            self.member.begin(wire, self.now);
        }
        let most = u64::from(self.watch.seconds).saturating_mul(1_000);
        self.member.go_on(self.now, most);
        let after = self.member.presence();
        if before != Presence::Gone && after == Presence::Gone {
            self.report.note("the member has ended");
            self.again = 0;
        }
    }

    fn open_member(&self) -> Option<Wire> {
        let entry = self
            .settings
            .members
            .entries()
            .get(self.settings.own as usize)?;
        let registry = self.poll.registry();
        Wire::open(
            self.rt,
            self.alloc,
            registry,
            MEMBER,
            entry.control.as_str(),
        )
        .ok()
    }

    // Looks again where etcd says that something changed.
    fn hear_changes(&mut self) {
        if self.changes.go_on() {
            self.look_due = self.now;
        }
    }

    // Whether the member ended, and nothing is left of it in etcd.
    fn is_over(&self) -> bool {
        self.member.presence() == Presence::Gone
            && (self.lease.id.is_none() || self.lease.is_over(self.now, self.watch.seconds))
    }
}
