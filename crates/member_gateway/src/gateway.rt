ghost use Rattle.std.specs.Prelude.{◌≡◌, IfOk};
ghost use Rattle.group_types.specs.Names.{IsProcess};
ghost use Rattle.group_member.specs.Opening.{opening_member};

use crate::command::Command;
use crate::ended::EndedCalls;
use crate::kind::Kind;
use crate::links::Links;
use crate::outcome::Outcome;
use crate::slots::{OwnCall, Slots};
use crate::waiting::Waiting;
use crate::work::MemberWork;
use front_end::Gateway;
use group_member::callers_each;
use group_node::index_of;
use group_types::{ProcessId, Shape};
use memc_proto::{CallEnd, FailEnd};
use memc_table::Op;
use moving_gateway::Keyed;
use ready_worker::Exchange;
use std::alloc::{AllocError, Global};
use std::marker::Model;

/// The callers of a member as a gateway: each call is asked of the head of its key's partition, and its end is that of the
/// answer that the member shows.
#[derive(Drop)]
pub struct MemberGateway {
    pub(crate) work: MemberWork,
    pub(crate) waiting: Waiting,
    pub(crate) ended: EndedCalls,
    slots: Slots,
}

impl Model for MemberGateway {
    ghost use Rattle.member_gateway.specs.Rules as rules;

    ghost Value = { rules.Gateway };

    ghost view = { λ g. record { member = g.work; slots = g.slots } };
}

impl MemberGateway {
    /// A gateway over a member at the start.
    pub fn new(alloc: Global, shape: Shape, name: ProcessId) -> Result<MemberGateway, AllocError>
        requires { IsProcess shape name }
        ensures opening { IfOk result (λ g. g.member ≡ opening_member shape name) }
    {
        let each = callers_each(shape);
        Ok(MemberGateway {
            work: MemberWork::new(alloc, shape, name)?,
            waiting: Waiting::new(alloc, index_of(shape, name).wrapping_mul(each), each)?,
            ended: EndedCalls::new(),
            slots: Slots::new(alloc)?,
        })
    }
}

impl Gateway for MemberGateway {
    ghost use Rattle.member_gateway.specs.Rules.{member_rules};
    ghost use Rattle.member_gateway.specs.Order.{member_order};

    type Call = OwnCall;

    ghost rules = { member_rules };

    ghost order = { member_order };

    #[tactic(auto, using(crate::proofs::Opening::same_keeps, crate::proofs::Opening::same_lends, crate::proofs::Opening::same_later))]
    fn turn_of(&mut self, key: usize) {
        self.waiting.turn_of(key);
    }

    #[tactic(auto, using(crate::proofs::Opening::begins_open, crate::proofs::Opening::begins_fresh, crate::proofs::Opening::begins_keeps, crate::proofs::Opening::begins_lends, crate::proofs::Opening::begins_later, crate::proofs::Opening::same_keeps, crate::proofs::Opening::same_lends, crate::proofs::Opening::same_later))]
    fn begin(&mut self, op: Op) -> Result<Option<OwnCall>, AllocError> {
        let Some(caller) = self.waiting.take(Kind::of(Command::of(op.act())))? else {
            drop(op);
            return Ok(None);
        };
        if !self.slots.is_closed(caller) || !self.work.may_begin(caller) {
            drop(op);
            return Ok(None);
        }
        let turn = self.waiting.turn();
        let hash = op.act().key().fnv1a();
        self.work.begin(caller, op, turn, hash);
        Ok(Some(self.slots.lend(caller, hash)))
    }

    #[tactic(auto, using(crate::proofs::Ending::shows_ended, crate::proofs::Ending::shows_over, crate::proofs::Ending::shows_free, crate::proofs::Ending::shows_keeps, crate::proofs::Ending::shows_lends, crate::proofs::Ending::shows_later, crate::proofs::Opening::same_keeps, crate::proofs::Opening::same_lends, crate::proofs::Opening::same_later))]
    fn take_end(&mut self, call: &OwnCall) -> Option<CallEnd> {
        let caller = call.caller();
        if !self.slots.is_lent(*call) {
            return None;
        }
        let command = self.work.command_of(caller)?;
        let end = self.work.take_end(caller)?;
        self.slots.close(caller);
        self.waiting.give_back(caller, Kind::of(command));
        self.ended.note(command, Outcome::of(&end));
        Some(end)
    }

    #[tactic(auto, using(crate::proofs::Opening::same_keeps, crate::proofs::Opening::same_lends, crate::proofs::Opening::same_later))]
    fn fail(&mut self, _at: ProcessId, _keep: u32) -> Result<FailEnd, AllocError> {
        Ok(FailEnd::Off)
    }
}

impl Keyed for MemberGateway {
    fn hash(&self, call: &OwnCall) -> u32 {
        call.hash()
    }
}

impl<L: Links> Exchange<L> for MemberGateway {
    #[tactic(auto, using(crate::proofs::Opening::quiet_keeps, crate::proofs::Opening::quiet_lends, crate::proofs::Opening::quiet_later))]
    fn receive(&mut self, links: &mut L) {
        self.work.receive(links);
        let now = self.work.now();
        self.waiting.pass(now);
    }

    #[tactic(auto, using(crate::proofs::Opening::quiet_keeps, crate::proofs::Opening::quiet_lends, crate::proofs::Opening::quiet_later))]
    fn send(&mut self, links: &mut L) {
        self.work.send(links);
    }

    #[tactic(auto, using(crate::proofs::Opening::same_keeps, crate::proofs::Opening::same_lends, crate::proofs::Opening::same_later))]
    fn next_woken(&mut self) -> Option<usize> {
        match self.work.next_woken() {
            Some(key) => Some(key),
            None => self.waiting.next_woken(),
        }
    }
}
