// The link to one target.
ghost use Rattle.std.specs.Prelude.{◌≡◌, ◌+◌, ◌-◌, ◌<◌, ◌≤◌, ◌==◌, IsOk, max, [], ◌∷◌, ◌++◌, length, take, drop, slice_get, OnOk, OnErr, option_copied};
ghost use Rattle.link_core.specs.Outgoing.{empty_link};

use std::alloc::{AllocError, Global};
use std::collections::VecDeque;
use std::marker::Model;

/// Messages to one target, in the order in which they were sent.
#[derive(Drop)]
pub struct Link<M> {
    messages: VecDeque<M>,
    spare: usize,
}

impl<M> Model for Link<M> {
    ghost use Rattle.std.specs.Prelude.{◌+◌, ◌≤◌};
    ghost use Rattle.std.specs.VecDeque.{deque_len, deque_capacity};
    ghost use Rattle.link_core.specs.Outgoing as outgoing;

    ghost Value = { outgoing.Link M };

    ghost view = { λ link. record { messages = link.messages.items; spare = link.spare } };

    ghost invariant = { λ link. deque_len link.messages + link.spare ≤ deque_capacity link.messages };
}

impl<M: Drop> Link<M> {
    pub fn new(alloc: Global) -> Self
        ensures { result ≡ empty_link }
    {
        Self {
            messages: VecDeque::new(alloc),
            spare: 0,
        }
    }

    pub fn reserve(&mut self, n: usize) -> Result<(), AllocError>
        ensures messages { self.new.messages ≡ self.old.messages }
        ensures ok { OnOk result (self.new.spare ≡ max self.old.spare n) }
        ensures err { OnErr result (self.new.spare ≡ self.old.spare) }
        ensures succeeds { n ≤ self.old.spare → IsOk result }
    {
        if self.spare < n {
            self.messages.reserve(n)?;
            self.spare = n;
        }
        Ok(())
    }

    pub fn send(&mut self, message: M)
        requires { 0 < self.old.spare }
        ensures { self.new ≡ record { messages = self.old.messages ++ message ∷ []; spare = self.old.spare - 1 } }
    {
        self.spare -= 1;
        match self.messages.push_back(message) {
            Ok(()) => {}
            Err(_) => unreachable!(),
        }
    }

    pub fn peek(&self) -> Option<&M>
        ensures { option_copied result ≡ slice_get self.now.messages 0 }
    {
        self.messages.front()
    }

    pub fn pop(&mut self) -> Option<M>
        ensures first { result ≡ slice_get self.old.messages 0 }
        ensures rest { self.new ≡ record { messages = drop 1 self.old.messages; spare = self.old.spare } }
    {
        self.messages.pop_front()
    }

    pub fn cut(&mut self, keep: usize)
        ensures { self.new ≡ record { messages = take keep self.old.messages; spare = self.old.spare } }
    {
        self.messages.truncate(keep);
    }

    pub fn is_empty(&self) -> bool
        ensures { result ≡ (length self.now.messages == 0) }
    {
        self.messages.is_empty()
    }
}
