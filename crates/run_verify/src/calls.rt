ghost use Rattle.std.specs.Prelude.{◌≡◌, ◌↔◌, ◌<◌, ◌^◌, ◌++◌, ◌∷◌, [], All, None, length, slice_get, option_and_then, IfOk, OnOk, IsTrue, option_copied};
ghost use Rattle.group_types.specs.Lists.{at, put};
ghost use Rattle.scenario_text.specs.Texts.{reply_words};
ghost use Rattle.scenario_run.specs.Lines.{lines_of};
ghost use Rattle.transcript_text.specs.Forms.{FitsReply};
ghost use Rattle.run_verify.specs.Accounts.{lists_of};
ghost use Rattle.run_verify.specs.Passing.{LogsAhead, entry_front};

use crate::ahead::logs_ahead;
use crate::call::Call;
use memc_table::{Item, Op, Reply};
use scenario_text::reply_text::write_reply;
use std::alloc::{AllocError, Global};

/// The calls of a caller.
#[tactic(auto, using(crate::proofs::Vectors::list_at))]
pub(crate) fn calls_of(calls: &[Vec<Call>], caller: u32) -> &[Call]
    requires { caller < length calls.now }
    ensures { result.now ≡ at [] (lists_of calls.now) caller }
{
    &calls[caller as usize]
}

/// Another call of a caller.
pub(crate) fn add_call(
    calls: &mut Vec<Vec<Call>>,
    caller: u32,
    op: Op,
    taken: bool,
) -> Result<(), AllocError>
    requires { caller < length calls.old.items }
    ensures calls { OnOk result (lists_of calls.new.items ≡ put [] (lists_of calls.old.items) caller
        (at [] (lists_of calls.old.items) caller ++ record { op = op; taken = taken; reply = None } ∷ [])) }
    ensures callers { length calls.new.items ≡ length calls.old.items }
{
    let reply = None;
    calls[caller as usize].push(Call { op, taken, reply })?;
    Ok(())
}

/// The reply of the entry of a call, once it was logged.
pub(crate) fn reply_in(calls: &[Call], call: u64) -> Option<&Reply>
    ensures { option_copied result ≡ option_and_then (λ c. c.reply) (slice_get calls.now call) }
{
    match calls.get(call as usize) {
        Some(call) => call.reply.as_ref(),
        None => None,
    }
}

/// Whether a text is that of a reply.
pub(crate) fn is_text_of(alloc: Global, reply: &Reply, text: &[u8]) -> Result<bool, AllocError>
    ensures { IfOk result (λ yes. IsTrue yes ↔ (FitsReply reply.now × (reply_words reply.now ≡ text.now))) }
{
    fits(reply);
    Ok(write_reply(alloc, reply)?.as_slice() == text)
}

/// A reply is within the limits of its types.
pub(crate) fn fits(reply: &Reply)
    ensures { FitsReply reply.now }
{
    match reply {
        Reply::Value(item) => fits_item(item),
        Reply::Number(number) => {
            let _number = *number;
        }
        _ => {}
    }
}

fn fits_item(item: &Item)
    ensures flags { item.now.flags < 2 ^ 32 }
    ensures cas { item.now.cas < 2 ^ 64 }
    ensures value { All (λ b. b < 256) item.now.value }
{
    let _flags = item.flags;
    let _cas = item.cas;
    are_bytes(item.value.bytes());
}

fn are_bytes(bytes: &[u8])
    ensures { All (λ b. b < 256) bytes.now }
{
    let _long = bytes.len();
}

/// Whether the entry of a call is right ahead with this reply.
pub(crate) fn is_ahead(
    alloc: Global,
    caller: u32,
    call: u64,
    reply: &[u8],
    ahead: &[u8],
) -> Result<bool, AllocError>
    ensures { IfOk result (λ yes. IsTrue yes ↔ LogsAhead (entry_front (record { caller = caller; call = call })) reply.now
        (lines_of ahead.now)) }
{
    let front = front(alloc, caller, call)?;
    Ok(logs_ahead(&front, reply, ahead))
}

/// How the line of a call's entry begins.
fn front(alloc: Global, caller: u32, call: u64) -> Result<Vec<u8>, AllocError>
    ensures { IfOk result (λ front. front.items ≡ entry_front (record { caller = caller; call = call })) }
{
    let mut text = format!(in alloc; "= {caller}")?.into_bytes();
    text.extend_from_slice(format!(in alloc; ".{call}")?.as_bytes())?;
    text.extend_from_slice(b" ")?;
    Ok(text)
}
