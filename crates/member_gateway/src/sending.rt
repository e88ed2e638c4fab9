// What goes to the others: requests, pings, and what the member's process has for them.
ghost use Rattle.std.specs.Prelude.{◌≡◌};
ghost use Rattle.member_gateway.specs.Calls.{GoesQuietly};

use crate::links::Links;
use crate::sets::{has, many, members_of, with};
use crate::work::MemberWork;
use link_frames::Frame;

/// How often a member tells how far it has settled, in milliseconds.
pub(crate) const FLUSH: u64 = 5;

/// The most messages for a process that are handed out in a turn.
const MESSAGES: u32 = 4_096;

impl MemberWork {
    /// Sends what is to go to the others.
    pub(crate) fn send<L: Links>(&mut self, links: &mut L)
        ensures goes { GoesQuietly self.old self.new }
    {
        self.moment = links.now();
        self.outgoing.retry(links);
        self.collect(links);
        self.take_deaths(links);
        self.ask_all(links);
        self.ask_resting(links);
        self.treat(links);
        self.ping(links);
        self.flush();
        let shape = self.shape();
        'links: for x in 0..many(shape) {
            self.hand_out(links, x);
        }
    }

    // Sends a ping, where one is due.
    fn ping<L: Links>(&mut self, links: &mut L)
        ensures goes { GoesQuietly self.old self.new }
    {
        if !self.outgoing.is_clear() || self.fence.unshown() == 0 {
            return;
        }
        let (uncut, now) = (self.uncut, self.moment);
        let Some(to) = self.fence.due(uncut, now) else {
            return;
        };
        if to == 0 && !self.member.has_enough(u64::MAX) {
            return;
        }
        let set = members_of(self.shape(), to);
        let Some(ping) = self.ping_set(&set) else {
            return;
        };
        self.fence.sent(to);
        self.outgoing.post(links, to, Frame::Ping(ping));
        self.confirm();
    }

    /// Sees how many pings enough have answered, and wakes those whose answers can be shown.
    pub(crate) fn confirm(&mut self)
        ensures same { self.new ≡ self.old }
    {
        let pinged = self.fence.pinged();
        self.confirm_by(pinged);
        let shape = self.shape();
        'others: for x in 0..many(shape) {
            let ponged = self.fence.ponged(x);
            self.confirm_by(ponged);
        }
        self.wake();
    }

    // Sees whether enough have answered so many pings.
    fn confirm_by(&mut self, count: u64)
        ensures same { self.new ≡ self.old }
    {
        if self.fence.confirmed() < count && self.member.has_enough(count - 1) {
            self.fence.confirm(count);
        }
    }

    // Tells now and then how far the member has settled, where something did.
    fn flush(&mut self)
        ensures goes { GoesQuietly self.old self.new }
    {
        if !self.has_settled || self.moment.saturating_sub(self.flushed) < FLUSH {
            return;
        }
        if self.flush_member() {
            self.has_settled = false;
            self.flushed = self.moment;
        }
    }

    // Hands out what the member's process has for a process, as long as there is room. What is for one that is cut is lost.
    fn hand_out<L: Links>(&mut self, links: &mut L, x: u32)
        ensures goes { GoesQuietly self.old self.new }
    {
        if x == self.own {
            return;
        }
        'messages: for _ in 0..MESSAGES {
            if !self.hands_out(links, x) {
                return;
            }
        }
    }

    // Whether there was a message for it, and room.
    fn hands_out<L: Links>(&mut self, links: &mut L, x: u32) -> bool
        ensures goes { GoesQuietly self.old self.new }
    {
        let is_cut = !has(self.uncut, x);
        if !self.outgoing.is_clear() || !is_cut && !links.has_room(x) {
            return false;
        }
        let Some(message) = self.hand_out_one(x) else {
            return false;
        };
        if is_cut {
            drop(message);
        } else {
            self.outgoing
                .post(links, with(0, x), Frame::Message(message));
        }
        true
    }
}
