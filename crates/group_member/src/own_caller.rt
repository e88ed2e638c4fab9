ghost use Rattle.std.specs.Prelude.{◌≡◌, ◌↔◌, ◌<◌, ◌≤◌, ◌-◌, ◌^◌, ℕ, true, IsTrue, Some, None, IfOk, option_copied};
ghost use Rattle.group_wire.specs.May.{call_waits_for};
ghost use Rattle.group_wire.specs.Serving.{call_learned, stage_given_up};
ghost use Rattle.group_wire.specs.State as wire;
ghost use Rattle.group_member.specs.Callers.{ask_for, asked_of, call_staged, is_at, is_unasked, is_unknown, no_caller, trace_of};
ghost use Rattle.group_member.specs.Showing.{WasToldBefore};

use crate::open_call::OpenCall;
use group_types::{Partition, ProcessId, home};
use link_frames::{Request, Told, Wish};
use memc_table::Op;
use std::alloc::AllocError;
use std::marker::Model;

/// A caller: its open call, if there is one, and its next position.
#[derive(Debug, Drop)]
pub struct OwnCaller {
    call: Option<OpenCall>,
    next: u64,
}

impl Model for OwnCaller {
    ghost use Rattle.group_member.specs.Callers as callers;

    ghost Value = { callers.OwnCaller };

    ghost view = { λ c. record { call = c.call; next = c.next } };
}

impl OwnCaller {
    /// A caller that has asked nothing.
    pub fn new() -> OwnCaller
        ensures { result ≡ no_caller }
    {
        OwnCaller {
            call: None,
            next: 0,
        }
    }

    /// Its open call.
    pub fn call(&self) -> Option<&OpenCall>
        ensures { option_copied result ≡ self.now.call }
    {
        self.call.as_ref()
    }

    /// Its next position.
    pub fn next(&self) -> u64
        ensures { result ≡ self.now.next }
    {
        self.next
    }

    /// Whether its call is to be asked, and has a position left.
    pub(crate) fn can_be_asked(&self) -> bool
        ensures { IsTrue result ↔ ((is_at is_unasked self.now.call ≡ true) × (self.now.next < 2 ^ 64 - 1)) }
    {
        self.next < u64::MAX && self.call.as_ref().is_some_and(|call| call.is_unasked())
    }

    /// Whether its call is of unknown fate.
    pub(crate) fn can_be_traced(&self) -> bool
        ensures { result ≡ is_at is_unknown self.now.call }
    {
        match &self.call {
            Some(call) => call.is_unknown(),
            None => false,
        }
    }

    /// The member that its call waits for.
    pub(crate) fn waits_for(&self) -> Option<ProcessId>
        ensures { result ≡ call_waits_for self.now.call }
    {
        self.call.as_ref()?.waits_for()
    }

    /// Whether its call was told its answer before a ping was sent.
    pub(crate) fn was_told_before(&self, ping: u64) -> bool
        ensures { IsTrue result ↔ WasToldBefore self.now.call ping }
    {
        match &self.call {
            Some(call) => call.was_told_before(ping),
            None => false,
        }
    }

    /// The request by which its call is asked.
    pub(crate) fn request(&self, caller: u32) -> Result<Request, AllocError>
        requires { is_at is_unasked self.now.call ≡ true }
        ensures { IfOk result (λ r. Some r ≡ ask_for caller self.now.next self.now.call) }
    {
        match &self.call {
            Some(call) => Ok(Request::new(caller, self.next, Wish::Ask(call.op().clone()?))),
            None => unreachable!(),
        }
    }

    /// The position of its call and the partition of its key, in a group of k data processes: what is traced.
    pub(crate) fn trace_place(&self, k: u32) -> (u64, Partition)
        requires unknown { is_at is_unknown self.now.call ≡ true }
        requires some { 1 ≤ k }
        ensures call { (caller : ℕ) → Some (wire.TraceOf caller result.0 result.1.0) ≡ trace_of k caller self.now.call }
        ensures partition { result.1.0 < k }
    {
        match &self.call {
            Some(call) => (call.position(), home(call.op().act().key(), k)),
            None => unreachable!(),
        }
    }

    /// A call begins.
    pub(crate) fn begin(&mut self, op: Op)
        ensures { self.new ≡ record self.old {
          call
              = Some (record { op = op; position = 0; stage = wire.Unasked });
        } }
    {
        self.call = Some(OpenCall::new(op));
    }

    /// Its call is asked of a member, under its next position.
    pub(crate) fn ask(&mut self, of: ProcessId)
        requires { self.old.next < 2 ^ 64 - 1 }
        ensures { self.new ≡ asked_of of self.old }
    {
        if let Some(call) = &mut self.call {
            call.ask(self.next, of);
        }
        self.next += 1;
    }

    /// Its call is traced at a member.
    pub(crate) fn trace(&mut self, at: ProcessId)
        ensures { self.new ≡ record self.old { call = call_staged (λ _. wire.TracedAt at) self.old.call } }
    {
        if let Some(call) = &mut self.call {
            call.trace(at);
        }
    }

    /// What its call asked of a member is given up.
    pub(crate) fn give_up(&mut self)
        ensures { self.new ≡ record self.old {
          call
              = call_staged (λ o. stage_given_up o.op o.stage) self.old.call;
        } }
    {
        if let Some(call) = &mut self.call {
            call.give_up();
        }
    }

    /// Its call learns what it was told.
    pub(crate) fn learn(&mut self, told: Told, pinged: u64)
        ensures { self.new ≡ record self.old { call = call_learned told pinged self.old.call } }
    {
        if let Some(call) = &mut self.call {
            call.learn(told, pinged);
        }
    }

    /// Its call is over.
    pub(crate) fn end(&mut self) -> Option<OpenCall>
        ensures call { result ≡ self.old.call }
        ensures over { self.new ≡ record self.old { call = None } }
    {
        self.call.take()
    }
}
