ghost use Rattle.std.specs.Prelude.{◌≡◌, ◌↔◌, IsTrue, Some};
ghost use Rattle.group_wire.specs.May.{awaited_member};
ghost use Rattle.group_wire.specs.Serving.{again, call_learned, stage_given_up, stage_told};
ghost use Rattle.group_wire.specs.State as wire;
ghost use Rattle.group_member.specs.Callers.{answer_told_at, is_unasked, is_unknown, stage_of, waits_for_told};
ghost use Rattle.group_member.specs.Showing.{IsToldIn};

use group_calls::Answer;
use group_types::ProcessId;
use link_frames::Told;
use memc_table::{Act, Op};
use std::marker::Model;

/// Where a call stands at its gateway: to be asked, asked of a member, of unknown fate, traced at a member, or answered,
/// when so many pings had been sent.
#[derive(Debug, Drop)]
pub enum CallStage {
    Unasked,
    AskedOf(ProcessId),
    Unknown,
    TracedAt(ProcessId),
    Answered { told: Told, pinged: u64 },
}

/// A client's call that is open at its gateway, with the position of its last ask.
#[derive(Debug, Drop)]
pub struct OpenCall {
    op: Op,
    position: u64,
    stage: CallStage,
}

impl Model for OpenCall {
    ghost use Rattle.group_wire.specs.State as wire;
    ghost use Rattle.group_member.specs.Callers.{stage_of};

    ghost Value = { wire.OpenCall };

    ghost view = { λ c. record { op = c.op; position = c.position; stage = stage_of c.stage } };
}

impl OpenCall {
    /// A call that is to be asked.
    pub fn new(op: Op) -> OpenCall
        ensures { result ≡ record { op = op; position = 0; stage = wire.Unasked } }
    {
        OpenCall {
            op,
            position: 0,
            stage: CallStage::Unasked,
        }
    }

    /// What is asked.
    pub fn op(&self) -> &Op
        ensures { result.now ≡ self.now.op }
    {
        &self.op
    }

    /// The position of its last ask.
    pub fn position(&self) -> u64
        ensures { result ≡ self.now.position }
    {
        self.position
    }

    /// Where it stands.
    pub fn stage(&self) -> &CallStage
        ensures { stage_of result.now ≡ self.now.stage }
    {
        &self.stage
    }

    /// Whether it is to be asked.
    pub fn is_unasked(&self) -> bool
        ensures { result ≡ is_unasked self.now.stage }
    {
        matches!(self.stage, CallStage::Unasked)
    }

    /// Whether its fate is not known.
    pub fn is_unknown(&self) -> bool
        ensures { result ≡ is_unknown self.now.stage }
    {
        matches!(self.stage, CallStage::Unknown)
    }

    /// The member that it waits for.
    pub fn waits_for(&self) -> Option<ProcessId>
        ensures { result ≡ awaited_member self.now.stage }
    {
        match self.stage {
            CallStage::AskedOf(x) | CallStage::TracedAt(x) => Some(x),
            _ => None,
        }
    }

    /// Whether it was told its answer before a ping was sent.
    pub fn was_told_before(&self, ping: u64) -> bool
        ensures { IsTrue result ↔ IsToldIn self.now.stage ping }
    {
        match self.stage {
            CallStage::Answered { pinged, .. } => pinged <= ping,
            _ => false,
        }
    }

    /// What it was told as its answer.
    pub(crate) fn into_told(self) -> Option<Told>
        ensures { result ≡ answer_told_at self.stage }
    {
        let OpenCall {
            op: _,
            position: _,
            stage,
        } = self;
        match stage {
            CallStage::Answered { told, .. } => Some(told),
            _ => None,
        }
    }

    /// It is asked of a member, under a position.
    pub(crate) fn ask(&mut self, position: u64, of: ProcessId)
        ensures { self.new ≡ record self.old { position = position; stage = wire.AskedOf of } }
    {
        self.position = position;
        self.stage = CallStage::AskedOf(of);
    }

    /// It is traced at a member.
    pub(crate) fn trace(&mut self, at: ProcessId)
        ensures { self.new ≡ record self.old { stage = wire.TracedAt at } }
    {
        self.stage = CallStage::TracedAt(at);
    }

    /// What it asked of a member is given up.
    pub(crate) fn give_up(&mut self)
        ensures { self.new ≡ record self.old { stage = stage_given_up self.old.op self.old.stage } }
    {
        match self.stage {
            CallStage::AskedOf(_) => self.stage = after_ask(self.op.act()),
            CallStage::TracedAt(_) => self.stage = CallStage::Unknown,
            _ => {}
        }
    }

    /// It learns what it was told, where it waits for that.
    pub(crate) fn learn(&mut self, told: Told, pinged: u64)
        ensures { Some self.new ≡ call_learned told pinged (Some self.old) }
    {
        if self.position == told.call() && self.waits_for_told(told.traced()) {
            self.stage = stage_told(told, pinged);
        }
    }

    // Whether it waits for an answer to its ask, or to its trace.
    fn waits_for_told(&self, traced: bool) -> bool
        ensures { result ≡ waits_for_told traced self.now.stage }
    {
        match self.stage {
            CallStage::AskedOf(_) => !traced,
            CallStage::TracedAt(_) => traced,
            _ => false,
        }
    }
}

// A read that was given up is asked again, and a change is traced.
fn after_ask(act: &Act) -> CallStage
    ensures { stage_of result ≡ again act.now }
{
    match act {
        Act::Get { .. } => CallStage::Unasked,
        _ => CallStage::Unknown,
    }
}

// A reply and the want of space are answers, and all else is asked again.
fn stage_told(told: Told, pinged: u64) -> CallStage
    ensures { stage_of result ≡ stage_told told pinged told.answer told.traced }
{
    match told.answer() {
        Answer::Reply(_) | Answer::NoSpace => {}
        Answer::Gone => return CallStage::Unasked,
        _ if told.traced() => return CallStage::Unknown,
        _ => return CallStage::Unasked,
    }
    CallStage::Answered { told, pinged }
}
