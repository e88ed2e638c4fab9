// The calls of the member's callers are asked and traced at the heads in view.
ghost use Rattle.member_gateway.specs.Calls.{GoesQuietly};

use crate::links::Links;
use crate::sets::{has, place_of, with};
use crate::work::MemberWork;
use group_types::{Partition, ProcessId, Shape};
use link_frames::Frame;

impl MemberWork {
    /// Asks what is to be asked, as long as that can go out.
    pub(crate) fn ask_all<L: Links>(&mut self, links: &mut L)
        ensures goes { GoesQuietly self.old self.new }
    {
        'asks: for _ in 0..self.calls.asks() {
            if !self.is_clear() {
                return;
            }
            let Some(caller) = self.calls.next_ask() else {
                return;
            };
            self.ask(links, caller);
        }
    }

    /// Asks what rests, where something happened since it was asked last: the first of a key only.
    pub(crate) fn ask_resting<L: Links>(&mut self, links: &mut L)
        ensures goes { GoesQuietly self.old self.new }
    {
        let resting = self.calls.begin_pass();
        'resting: for done in 0..resting {
            if !self.is_clear() {
                self.calls.stir();
                return;
            }
            if let Some(caller) = self.calls.next_resting(resting - done - 1) {
                self.ask(links, caller);
            }
        }
    }

    // A call is asked of the head in view, or traced there. Where that is cut, it waits until a death is taken.
    fn ask<L: Links>(&mut self, links: &mut L, caller: u32)
        ensures goes { GoesQuietly self.old self.new }
    {
        match self.head_for(caller) {
            Some(head) if head == self.name => self.ask_here(links, caller),
            Some(head) if self.member.may_read(head) => self.ask_at(links, caller, head),
            Some(_) => self.calls.rest(caller),
            None => {}
        }
    }

    // The process of lowest rank of a call's partition whose death isn't taken.
    fn head_for(&self, caller: u32) -> Option<ProcessId> {
        if !self.member.has_caller(caller) || self.member.caller(caller).call().is_none() {
            return None;
        }
        let hash = self.calls.note(caller)?.hash;
        self.head_of(Partition(hash % self.member.shape().k()))
    }

    /// The process of lowest rank of a partition whose death isn't taken.
    pub(crate) fn head_of(&self, partition: Partition) -> Option<ProcessId> {
        if !has(self.taken, partition.0) {
            return Some(ProcessId::DataNode(partition.0));
        }
        first_parity(self.member.shape(), self.taken)
    }

    fn ask_here<L: Links>(&mut self, links: &mut L, caller: u32)
        ensures goes { GoesQuietly self.old self.new }
    {
        match self.ask_own(caller) {
            Err(_) => self.calls.to_ask(caller),
            Ok(None) => {
                self.trace_own(caller);
                self.see_traced(caller);
            }
            Ok(Some(settled)) => {
                self.settle(settled);
                self.collect(links);
                self.see_asked(caller);
            }
        }
    }

    fn ask_at<L: Links>(&mut self, links: &mut L, caller: u32, head: ProcessId)
        ensures goes { GoesQuietly self.old self.new }
    {
        let Ok(asked) = self.ask_other(caller, head) else {
            return self.calls.to_ask(caller);
        };
        let request = match asked {
            Some(request) => Some(request),
            None => self.trace_other(caller, head),
        };
        if let Some(request) = request {
            let to = with(0, place_of(self.shape(), head));
            self.outgoing.post(links, to, Frame::Request(request));
        }
    }
}

// The first parity process whose death isn't taken.
fn first_parity(shape: Shape, taken: u32) -> Option<ProcessId> {
    'ranks: for i in 0..shape.m() {
        if !has(taken, shape.k().wrapping_add(i)) {
            return Some(ProcessId::ParityNode(i));
        }
    }
    None
}
