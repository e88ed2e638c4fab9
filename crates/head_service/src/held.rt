ghost use Rattle.std.specs.Prelude.{◌≡◌, filter, find, not};
ghost use Rattle.group_run.specs.Asking.{is_call, reply_from};
ghost use Rattle.head_service.specs.Fates.{fate_answer, kept_of};

use group_calls::Answer;
use group_message::Outcome;
use memc_table::Reply;
use std::marker::Model;

/// A call that was answered with a ticket and isn't collected yet.
#[derive(Clone, Copy, Debug)]
pub struct Held {
    pub caller: u32,
    pub call: u64,
    pub number: u64,
    pub outcome: Outcome,
}

impl Model for Held {
    ghost use Rattle.group_run.specs.Process as machine;

    ghost Value = { machine.Held };

    ghost view = { λ h. record { caller = h.caller; call = h.call; number = h.number; outcome = h.outcome } };

    ghost inverse = { λ h. record { caller = h.caller; call = h.call; number = h.number; outcome = h.outcome } };
}

/// The reply that an outcome is handed out as.
pub fn reply(outcome: Outcome) -> Reply
    ensures { result ≡ reply_from outcome }
{
    match outcome {
        Outcome::Stored => Reply::Stored,
        Outcome::Deleted => Reply::Deleted,
        Outcome::Touched => Reply::Touched,
        Outcome::Number(n) => Reply::Number(n),
    }
}

/// Answers a call: with its reply where it is held and its update is settled, and then forgets it.
pub fn hand_out(held: &mut Vec<Held>, applied: u64, caller: u32, call: u64) -> Answer
    ensures answer { result ≡ fate_answer applied (find (is_call caller call) held.old.items) }
    ensures held { held.new.items ≡ kept_of applied (find (is_call caller call) held.old.items) held.old.items }
{
    let Some(found) = look_up(held, caller, call) else {
        return Answer::Stranger;
    };
    if applied < found.number {
        return Answer::NotYet;
    }
    forget(held, found.caller, found.call);
    Answer::Reply(reply(found.outcome))
}

fn forget(held: &mut Vec<Held>, caller: u32, call: u64)
    ensures { held.new.items ≡ filter (λ h. not (is_call caller call h)) held.old.items }
{
    held.retain(|h| !(h.caller == caller && h.call == call));
}

/// The call among those that are held, if it is.
pub fn look_up(held: &[Held], caller: u32, call: u64) -> Option<Held>
    ensures { result ≡ find (is_call caller call) held.now }
{
    'held: for one in held {
        if one.caller == caller && one.call == call {
            return Some(*one);
        }
    }
    None
}
