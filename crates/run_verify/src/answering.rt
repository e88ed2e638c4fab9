ghost use Rattle.std.specs.Prelude.{◌≡◌, ◌≤◌, length, All, IfOk, IfErr, OnOk, true};
ghost use Rattle.scenario_run.specs.Lines.{lines_of};
ghost use Rattle.transcript_text.specs.Forms.{kind_of_act, kind_of_event};
ghost use Rattle.run_verify.specs.Accounts.{account_of};
ghost use Rattle.memc_table.specs.Table.{contents};
ghost use Rattle.run_verify.specs.Judging.{IsAnswerJudged, Judges, TellsReplyTo};
ghost use Rattle.run_verify.specs.Passing.{after_event};
ghost use Rattle.run_verify.specs.Plain.{IsEventInRange};

use crate::account::Account;
use crate::calls::{add_call, calls_of, is_ahead, is_text_of, reply_in};
use group_calls::Event;
use memc_table::Act;
use std::alloc::AllocError;
use transcript_text::Kind;
use transcript_text::answer::{Said, read_said};

impl Account {
    ghost use Rattle.std.specs.Prelude.{◌↔◌, ◌<◌, IsTrue};
    ghost use Rattle.run_verify.specs.Judging.{IsTextThere, reply_logged};
    ghost use Rattle.run_verify.specs.Passing.{LogsAhead, entry_front, next_call_name};

    /// Takes the answer of an event, if the line tells one, with these lines ahead.
    pub(crate) fn answer(
        &mut self,
        event: &Event,
        line: &[u8],
        ahead: &[u8],
    ) -> Result<bool, AllocError>
        requires { IsEventInRange event.now }
        ensures { Judges (IsAnswerJudged (account_of self.old) event.now line.now (lines_of ahead.now))
            (account_of self.new) result }
    {
        match read_said(kind(event), line) {
            None => Ok(false),
            Some(Said::Reply(reply)) => {
                if !self.is_reply_to(event, reply, ahead)? {
                    return Ok(false);
                }
                self.ask(event, true)
            }
            Some(Said::Ticket) => self.ask(event, true),
            Some(Said::Other) => self.ask(event, false),
        }
    }

    /// Keeps the call that an event asks, if it asks one, which takes effect or not.
    fn ask(&mut self, event: &Event, taken: bool) -> Result<bool, AllocError>
        requires { IsEventInRange event.now }
        ensures account { OnOk result (account_of self.new ≡ after_event (account_of self.old) event.now taken) }
        ensures goes { IfOk result (λ goes. goes ≡ true) }
    {
        if let Event::Ask { caller, op, .. } = event {
            let op = op.clone()?;
            add_call(&mut self.calls, *caller, op, taken)?;
        }
        Ok(true)
    }

    /// Whether a text is that of the reply of the entry of an event's call.
    fn is_reply_to(&self, event: &Event, reply: &[u8], ahead: &[u8]) -> Result<bool, AllocError>
        requires { IsEventInRange event.now }
        ensures { IfOk result (λ yes. IsTrue yes
            ↔ TellsReplyTo (account_of self.now) event.now reply.now (lines_of ahead.now)) }
    {
        match event {
            Event::Ask { caller, .. } => self.is_next(*caller, reply, ahead),
            Event::Collect { caller, call, .. } => self.is_there(*caller, *call, reply, ahead),
            Event::Trace { caller, call, .. } => self.is_there(*caller, *call, reply, ahead),
            _ => Ok(false),
        }
    }

    /// Whether the entry of a caller's next call is right ahead with this reply.
    fn is_next(&self, caller: u32, reply: &[u8], ahead: &[u8]) -> Result<bool, AllocError>
        requires { caller < 256 }
        ensures { IfOk result (λ yes. IsTrue yes ↔ LogsAhead
            (entry_front (next_call_name (account_of self.now) caller)) reply.now (lines_of ahead.now)) }
    {
        let call = calls_of(&self.calls, caller).len() as u64;
        is_ahead(self.alloc, caller, call, reply, ahead)
    }

    /// Whether a text is that of the reply of a call's entry, which was logged before or is right ahead.
    fn is_there(
        &self,
        caller: u32,
        call: u64,
        reply: &[u8],
        ahead: &[u8],
    ) -> Result<bool, AllocError>
        requires { caller < 256 }
        ensures { IfOk result (λ yes. IsTrue yes ↔ IsTextThere (reply_logged (account_of self.now).calls caller call)
            (entry_front (record { caller = caller; call = call })) reply.now (lines_of ahead.now)) }
    {
        match reply_in(calls_of(&self.calls, caller), call) {
            Some(logged) => is_text_of(self.alloc, logged, reply),
            None => is_ahead(self.alloc, caller, call, reply, ahead),
        }
    }
}

/// The kind of an event.
fn kind(event: &Event) -> Kind
    ensures { result ≡ kind_of_event event.now }
{
    match event {
        Event::Ask { op, .. } => kind_of_act(op.act()),
        Event::Collect { .. } => Kind::Collect,
        Event::Deliver { .. } => Kind::Deliver,
        Event::Fail { .. } => Kind::Fail,
        Event::Flush { .. } => Kind::Flush,
        Event::Trace { .. } => Kind::Trace,
    }
}

/// The kind of an ask, by its act.
fn kind_of_act(act: &Act) -> Kind
    ensures { result ≡ kind_of_act act.now }
{
    match act {
        Act::Get { .. } => Kind::Read,
        Act::Delete { .. } | Act::Touch { .. } => Kind::Alter,
        Act::Set { .. }
        | Act::Add { .. }
        | Act::Replace { .. }
        | Act::Cas { .. }
        | Act::Append { .. }
        | Act::Prepend { .. }
        | Act::Incr { .. }
        | Act::Decr { .. } => Kind::Store,
    }
}
