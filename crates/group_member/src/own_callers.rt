ghost use Rattle.std.specs.Prelude.{◌≡◌, ◌↔◌, ◌+◌, ◌-◌, ◌<◌, ◌≤◌, ◌^◌, true, IsTrue, Some, None, IfOk};
ghost use Rattle.group_types.specs.Names.{IsProcess};
ghost use Rattle.group_wire.specs.Serving.{call_learned, stage_given_up};
ghost use Rattle.group_wire.specs.State as wire;
ghost use Rattle.group_member.specs.Callers.{AreCallersOf, IsItsCaller, asked_of, call_staged, caller_of, with_call, with_caller};
ghost use Rattle.group_member.specs.Opening.{opening_callers};

use crate::names::callers_each;
use crate::open_call::OpenCall;
use crate::own_caller::OwnCaller;
use group_node::index_of;
use group_types::{CALLERS, ProcessId, Shape};
use link_frames::Told;
use memc_table::Op;
use std::alloc::{AllocError, Global};
use std::marker::Model;

/// The callers whose gateway a member is: as many as each other member has, numbered from its first.
#[derive(Drop)]
pub struct OwnCallers {
    first: u32,
    states: Vec<OwnCaller>,
}

impl Model for OwnCallers {
    ghost use Rattle.group_member.specs.Callers as callers;

    ghost Value = { callers.OwnCallers };

    ghost view = { λ c. record { first = c.first; states = c.states.items } };
}

impl OwnCallers {
    /// Those of a member at the start: no call is open.
    pub fn new(alloc: Global, shape: Shape, name: ProcessId) -> Result<OwnCallers, AllocError>
        requires { IsProcess shape name }
        ensures opening { IfOk result (λ c. c ≡ opening_callers shape name) }
        ensures own { IfOk result (λ c. AreCallersOf shape name c) }
    {
        let each = callers_each(shape);
        let mut states = Vec::with_capacity(alloc, each as usize)?;
        'callers: for _ in 0..each {
            states.push(OwnCaller::new())?;
        }
        Ok(OwnCallers {
            first: index_of(shape, name) * each,
            states,
        })
    }

    /// Whether the caller of a number is one of them.
    pub fn has(&self, caller: u32) -> bool
        ensures { IsTrue result ↔ IsItsCaller self.now caller }
    {
        self.first <= caller && ((caller - self.first) as usize) < self.states.len()
    }

    /// The caller of a number.
    #[tactic(auto, using(group_types::proofs::Lists::at_index))]
    pub fn caller(&self, caller: u32) -> &OwnCaller
        requires { IsItsCaller self.now caller }
        ensures { result.now ≡ caller_of self.now caller }
    {
        &self.states[(caller - self.first) as usize]
    }

    /// A call begins.
    #[tactic(auto, using(group_types::proofs::Lists::set_put, group_types::proofs::Lists::at_index))]
    pub(crate) fn begin(&mut self, caller: u32, op: Op)
        requires { IsItsCaller self.old caller }
        ensures { self.new ≡ with_call self.old caller (Some (record {
          op = op;
          position = 0;
          stage = wire.Unasked;
        })) }
    {
        self.states[(caller - self.first) as usize].begin(op);
    }

    /// A call is asked of a member, under its caller's next position.
    #[tactic(auto, using(group_types::proofs::Lists::set_put, group_types::proofs::Lists::at_index))]
    pub(crate) fn ask(&mut self, caller: u32, of: ProcessId)
        requires its { IsItsCaller self.old caller }
        requires left { (caller_of self.old caller).next < 2 ^ 64 - 1 }
        ensures { self.new ≡ with_caller self.old caller (asked_of of (caller_of self.old caller)) }
    {
        self.states[(caller - self.first) as usize].ask(of);
    }

    /// A call is traced at a member.
    #[tactic(auto, using(group_types::proofs::Lists::set_put, group_types::proofs::Lists::at_index))]
    pub(crate) fn trace(&mut self, caller: u32, at: ProcessId)
        requires { IsItsCaller self.old caller }
        ensures { self.new ≡ with_call self.old caller (call_staged (λ _. wire.TracedAt at)
            (caller_of self.old caller).call) }
    {
        self.states[(caller - self.first) as usize].trace(at);
    }

    /// What a call asked of a member is given up.
    #[tactic(auto, using(group_types::proofs::Lists::set_put, group_types::proofs::Lists::at_index))]
    pub(crate) fn give_up(&mut self, caller: u32)
        requires { IsItsCaller self.old caller }
        ensures { self.new ≡ with_call self.old caller (call_staged (λ o. stage_given_up o.op o.stage)
            (caller_of self.old caller).call) }
    {
        self.states[(caller - self.first) as usize].give_up();
    }

    /// A call learns what it was told.
    #[tactic(auto, using(group_types::proofs::Lists::set_put, group_types::proofs::Lists::at_index))]
    pub(crate) fn learn(&mut self, told: Told, pinged: u64)
        requires { IsItsCaller self.old told.caller }
        ensures { self.new ≡ with_call self.old told.caller (call_learned told pinged
            (caller_of self.old told.caller).call) }
    {
        let place = (told.caller() - self.first) as usize;
        self.states[place].learn(told, pinged);
    }

    /// A call is over.
    #[tactic(auto, using(group_types::proofs::Lists::set_put, group_types::proofs::Lists::at_index))]
    pub(crate) fn end(&mut self, caller: u32) -> Option<OpenCall>
        requires { IsItsCaller self.old caller }
        ensures call { result ≡ (caller_of self.old caller).call }
        ensures over { self.new ≡ with_call self.old caller None }
    {
        self.states[(caller - self.first) as usize].end()
    }
}
