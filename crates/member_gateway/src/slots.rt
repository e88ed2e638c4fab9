ghost use Rattle.std.specs.Prelude.{◌≡◌, ◌<◌, None, Some, length, IsTrue};
ghost use Rattle.group_types.specs.Lists.{at, put};

use group_types::CALLERS;
use std::alloc::{AllocError, Global};
use std::marker::Model;

/// What a connection keeps of a call that it began: the number of its caller in the group, the call's own number, and the hash
/// of the key that it asks.
#[derive(Clone, Copy, Debug, PartialEq, Eq)]
pub struct OwnCall {
    caller: u32,
    serial: u64,
    hash: u32,
}

impl OwnCall {
    /// The number of its caller in the group.
    pub(crate) fn caller(self) -> u32
        ensures { result ≡ self.caller }
    {
        self.caller
    }

    /// The hash of the key that it asks.
    pub(crate) fn hash(self) -> u32
        ensures { result ≡ self.hash }
    {
        self.hash
    }
}

/// Which call each caller is lent to, by the caller's number in the group.
#[derive(Drop)]
pub(crate) struct Slots {
    calls: Vec<Option<OwnCall>>,
    next: u64,
}

impl Model for Slots {
    ghost use Rattle.std.specs.Prelude.{List, Option};
    ghost use Rattle.member_gateway.specs.declared.slots.OwnCall.{OwnCall};

    ghost Value = { List (Option OwnCall) };

    ghost view = { λ s. s.calls.items };
}

impl Slots {
    /// No caller is lent.
    pub(crate) fn new(alloc: Global) -> Result<Slots, AllocError> {
        Ok(Slots {
            calls: vec![in alloc; None; CALLERS as usize]?,
            next: 0,
        })
    }

    /// Whether a caller is lent to nobody.
    #[tactic(auto, using(group_types::proofs::Lists::at_index))]
    pub(crate) fn is_closed(&self, caller: u32) -> bool
        ensures free { IsTrue result → at None self.now caller ≡ None }
        ensures within { IsTrue result → caller < length self.now }
    {
        let caller = caller as usize;
        caller < self.calls.len() && self.calls[caller].is_none()
    }

    /// Whether a call has its caller.
    #[tactic(auto, using(group_types::proofs::Lists::at_index))]
    pub(crate) fn is_lent(&self, call: OwnCall) -> bool
        ensures lent { IsTrue result → at None self.now call.caller ≡ Some call }
        ensures within { IsTrue result → call.caller < length self.now }
    {
        let caller = call.caller as usize;
        caller < self.calls.len() && self.calls[caller] == Some(call)
    }

    /// A caller is lent to a new call, which asks a key of this hash.
    #[tactic(auto, using(group_types::proofs::Lists::set_put))]
    pub(crate) fn lend(&mut self, caller: u32, hash: u32) -> OwnCall
        requires { caller < length self.old }
        ensures caller { result.caller ≡ caller }
        ensures hash { result.hash ≡ hash }
        ensures lent { self.new ≡ put None self.old caller (Some result) }
    {
        let call = OwnCall {
            caller,
            serial: self.next,
            hash,
        };
        self.next = call.serial.wrapping_add(1);
        self.calls[caller as usize] = Some(call);
        call
    }

    /// A caller is lent no more.
    #[tactic(auto, using(group_types::proofs::Lists::set_put))]
    pub(crate) fn close(&mut self, caller: u32)
        requires { caller < length self.old }
        ensures { self.new ≡ put None self.old caller None }
    {
        self.calls[caller as usize] = None;
    }
}
