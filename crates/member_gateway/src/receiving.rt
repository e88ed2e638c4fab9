// What came of the others is treated, link by link.
ghost use Rattle.std.specs.Prelude.{◌≡◌};
ghost use Rattle.member_gateway.specs.Calls.{GoesQuietly};

use crate::links::Links;
use crate::parking::Event;
use crate::sets::{has, many, with};
use crate::work::MemberWork;
use group_member::Received;
use group_message::Message;
use group_node::process_at;
use group_types::ProcessId;
use head_service::Settlement;
use link_frames::{Frame, Request, Told};

/// The most frames of a link that are treated in a turn.
const FRAMES: u32 = 4_096;

impl MemberWork {
    /// Takes what came of the others, and the operator's words, and what goes on by them.
    pub(crate) fn receive<L: Links>(&mut self, links: &mut L)
        ensures goes { GoesQuietly self.old self.new }
    {
        self.moment = links.now();
        self.outgoing.retry(links);
        self.collect(links);
        self.take_words(links);
        let shape = self.shape();
        'links: for x in 0..many(shape) {
            self.read(links, x, process_at(shape, x));
        }
        self.take_deaths(links);
        self.treat(links);
    }

    // Reads the link of a process to its end, or until memory is wanted.
    fn read<L: Links>(&mut self, links: &mut L, x: u32, from: ProcessId)
        ensures goes { GoesQuietly self.old self.new }
    {
        'frames: for _ in 0..FRAMES {
            if !self.is_clear() || !has(self.uncut, x) {
                return;
            }
            let Some(frame) = links.take(x) else {
                return;
            };
            if !self.reads(links, x, from, frame) {
                return;
            }
        }
    }

    // Whether a frame was treated: else it was given back.
    fn reads<L: Links>(&mut self, links: &mut L, x: u32, from: ProcessId, frame: Frame) -> bool
        ensures goes { GoesQuietly self.old self.new }
    {
        match frame {
            Frame::Message(message) => return self.reads_message(links, x, from, message),
            Frame::Request(request) => return self.reads_request(links, x, from, request),
            Frame::Told(told) => self.learn(links, x, from, told),
            Frame::Said(names) => self.hear(links, from, names),
            Frame::Ping(ping) => self.pong(links, x, from, ping),
            Frame::Pong(ping) => self.count(links, x, from, ping),
            Frame::Hello(_) => links.misfit(x),
        }
        true
    }

    fn reads_message<L: Links>(
        &mut self,
        links: &mut L,
        x: u32,
        from: ProcessId,
        message: Message,
    ) -> bool
        ensures goes { GoesQuietly self.old self.new }
    {
        let takes = self.takes_message(links, x, from, &message);
        if takes {
            drop(message);
        } else {
            links.give_back(x, Frame::Message(message));
        }
        takes
    }

    // Whether there was memory for a message.
    fn takes_message<L: Links>(
        &mut self,
        links: &mut L,
        x: u32,
        from: ProcessId,
        message: &Message,
    ) -> bool
        ensures goes { GoesQuietly self.old self.new }
    {
        match self.receive_message(from, message) {
            Err(_) => return false,
            Ok(Received::Made(settled)) => self.follow_message(links, message, settled),
            Ok(Received::Unread) => {}
            Ok(Received::Misfit) => links.misfit(x),
        }
        true
    }

    // What goes on by a message that came.
    fn follow_message<L: Links>(
        &mut self,
        links: &mut L,
        message: &Message,
        settled: Vec<Settlement>,
    )
        ensures goes { GoesQuietly self.old self.new }
    {
        self.see_message(message);
        self.settle(settled);
        self.collect(links);
    }

    // What waited for a part of a block, or until others acknowledge that this one took over, can go on.
    fn see_message(&mut self, message: &Message)
        ensures same { self.new ≡ self.old }
    {
        let event = match message {
            Message::Block { .. } | Message::Row { .. } | Message::Mark { .. } => Event::Block,
            Message::Ack { .. } => Event::Acknowledged,
            _ => return,
        };
        self.parking.wake(event);
        self.calls.stir();
    }

    fn reads_request<L: Links>(
        &mut self,
        links: &mut L,
        x: u32,
        from: ProcessId,
        request: Request,
    ) -> bool
        ensures goes { GoesQuietly self.old self.new }
    {
        if !self.member.may_read(from) || !self.member.may_be_from(from, &request) {
            drop(request);
            links.misfit(x);
            return true;
        }
        let caller = request.parts().0;
        if self.parking.reserve().is_err() {
            links.give_back(x, Frame::Request(request));
            return false;
        }
        match self.read_request(from, request) {
            Ok(()) => {
                self.parking.push(caller);
                true
            }
            Err(request) => {
                links.give_back(x, Frame::Request(request));
                false
            }
        }
    }

    fn learn<L: Links>(&mut self, links: &mut L, x: u32, from: ProcessId, told: Told)
        ensures goes { GoesQuietly self.old self.new }
    {
        if !self.member.may_learn(&told) {
            drop(told);
            links.misfit(x);
            return;
        }
        let caller = told.caller();
        self.learn_told(from, told);
        self.see(caller);
    }

    fn pong<L: Links>(&mut self, links: &mut L, x: u32, from: ProcessId, ping: u64)
        ensures goes { GoesQuietly self.old self.new }
    {
        if let Some(pong) = self.pong_ping(from, ping) {
            self.outgoing.post(links, with(0, x), Frame::Pong(pong));
        }
    }

    fn count<L: Links>(&mut self, links: &mut L, x: u32, from: ProcessId, ping: u64)
        ensures goes { GoesQuietly self.old self.new }
    {
        if !self.count_pong(from, ping) {
            links.misfit(x);
            return;
        }
        self.fence.count(x, ping);
        self.confirm();
    }
}
