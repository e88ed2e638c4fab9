ghost use Rattle.std.specs.Prelude.{◌≡◌, ◌<◌, ◌≤◌, ◌+◌, ◌^◌, ◌++◌, [], ◌∷◌, if◌then◌else◌, false, Some, length, vec_len, vec_capacity, All, IfOk, IfSome, OnErr};
ghost use Rattle.group_types.specs.Lists.{at};
ghost use Rattle.memc_table.specs.declared.reply.Item.{Item};
ghost use Rattle.memc_table.specs.declared.reply.Reply.{Reply};
ghost use Rattle.memc_table.specs.declared.reply.Reply.TheVariants.{Value};
ghost use Rattle.group_calls.specs.Turns.{accepts};
ghost use Rattle.group_calls.specs.declared.event.Answer.TheVariants as says;
ghost use Rattle.group_run.specs.Replica.{callers};
ghost use Rattle.group_run.specs.World.{asked_after, is_issued, logged_at_once, tickets_after};
ghost use Rattle.group_ledger.specs.Books.{call_in, refusal_if, refusal_in};

use crate::room::add;
use crate::tickets::Ticket;
use group_calls::{Answer, Entry};
use memc_table::{Op, Reply};
use std::alloc::AllocError;

/// A caller's next call: its op, and its reply where it is refused at once.
#[derive(Debug, Drop)]
pub struct NewCall {
    pub caller: u32,
    pub op: Op,
    pub refusal: Option<Reply>,
}

/// A copy of the reply by which a call is refused, if it is.
pub fn refusal(answer: &Answer) -> Result<Option<Reply>, AllocError>
    ensures ok { IfOk result (λ reply. reply ≡ refusal_in answer.now) }
    ensures err { OnErr result ((reply : Reply) × (answer.now ≡ says.Reply reply) × (accepts reply ≡ false)) }
    ensures wanted { OnErr result ((item : Item) × (answer.now ≡ says.Reply (Value item))) }
{
    match answer {
        Answer::Reply(reply) => refusal_of(reply),
        _ => Ok(None),
    }
}

fn refusal_of(reply: &Reply) -> Result<Option<Reply>, AllocError>
    ensures ok { IfOk result (λ copy. copy ≡ refusal_if (accepts reply.now) reply.now) }
    ensures err { OnErr result (accepts reply.now ≡ false) }
    ensures wanted { OnErr result ((item : Item) × (reply.now ≡ Value item)) }
{
    Ok(match reply {
        Reply::Stored | Reply::Deleted | Reply::Touched | Reply::Number(_) => None,
        Reply::Value(item) => Some(Reply::Value(item.clone()?)),
        Reply::Miss => Some(Reply::Miss),
        Reply::NotStored => Some(Reply::NotStored),
        Reply::Exists => Some(Reply::Exists),
        Reply::NotFound => Some(Reply::NotFound),
        Reply::NotNumber => Some(Reply::NotNumber),
        Reply::TooLarge => Some(Reply::TooLarge),
    })
}

// Whether it accepts an update.
fn accepts(reply: &Reply) -> bool
    ensures { result ≡ accepts reply.now }
{
    match reply {
        Reply::Stored | Reply::Deleted | Reply::Touched | Reply::Number(_) => true,
        Reply::Value(_)
        | Reply::Miss
        | Reply::NotStored
        | Reply::Exists
        | Reply::NotFound
        | Reply::NotNumber
        | Reply::TooLarge => false,
    }
}

// Whether a call that is answered so has issued an update.
fn is_issued(answer: &Answer) -> bool
    ensures { result ≡ is_issued answer.now }
{
    match answer {
        Answer::Ticket(_) => true,
        Answer::Reply(reply) => accepts(reply),
        _ => false,
    }
}

/// Counts a call, if there is one, and keeps its ticket where its update was issued, or its entry where
/// it was refused. It takes no memory.
pub(crate) fn enter(
    call: Option<NewCall>,
    answer: &Answer,
    asked: &mut [u64],
    log: &mut Vec<Entry>,
    tickets: &mut Vec<Ticket>,
)
    requires caller { IfSome call (λ c. c.caller < length asked.old) }
    requires count { IfSome call (λ c. at 0 asked.old c.caller < 2 ^ 62) }
    requires refusal { IfSome call (λ c. c.refusal ≡ refusal_in answer.now) }
    requires log_room { vec_len log.old < vec_capacity log.old }
    requires tickets_room { vec_len tickets.old < vec_capacity tickets.old }
    ensures asked { asked.new ≡ asked_after asked.old (call_in asked.old call) }
    ensures log { log.new.items ≡ log.old.items ++ logged_at_once (call_in asked.old call) answer.now }
    ensures tickets { tickets.new.items ≡ tickets_after (length log.old.items)
        (call_in asked.old call) answer.now tickets.old.items }
    ensures few { vec_len log.new ≤ vec_len log.old + 1 }
    ensures log_capacity { vec_capacity log.old ≤ vec_capacity log.new }
{
    match call {
        None => {}
        Some(call) => enter_call(call, answer, asked, log, tickets),
    }
}

fn enter_call(
    call: NewCall,
    answer: &Answer,
    asked: &mut [u64],
    log: &mut Vec<Entry>,
    tickets: &mut Vec<Ticket>,
)
    requires caller { call.caller < length asked.old }
    requires count { at 0 asked.old call.caller < 2 ^ 62 }
    requires refusal { call.refusal ≡ refusal_in answer.now }
    requires log_room { vec_len log.old < vec_capacity log.old }
    requires tickets_room { vec_len tickets.old < vec_capacity tickets.old }
    ensures asked { asked.new ≡ asked_after asked.old (call_in asked.old (Some call)) }
    ensures log { log.new.items ≡ log.old.items ++ logged_at_once (call_in asked.old (Some call)) answer.now }
    ensures tickets { tickets.new.items ≡ tickets_after (length log.old.items)
        (call_in asked.old (Some call)) answer.now tickets.old.items }
    ensures few { vec_len log.new ≤ vec_len log.old + 1 }
    ensures log_capacity { vec_capacity log.old ≤ vec_capacity log.new }
{
    let NewCall {
        caller,
        op,
        refusal,
    } = call;
    let number = asked[caller as usize];
    asked[caller as usize] = number + 1;
    match refusal {
        None => {
            let ticket = Ticket {
                caller,
                call: number,
                since: log.len(),
                op: Some(op),
            };
            keep_ticket(answer, ticket, tickets);
        }
        Some(reply) => add(
            log,
            Entry {
                caller,
                call: number,
                op,
                reply,
            },
        ),
    }
}

// Where an update was issued.
fn keep_ticket(answer: &Answer, ticket: Ticket, tickets: &mut Vec<Ticket>)
    requires room { vec_len tickets.old < vec_capacity tickets.old }
    ensures { tickets.new.items ≡ tickets.old.items ++ (if is_issued answer.now then ticket ∷ [] else []) }
{
    if is_issued(answer) {
        add(tickets, ticket);
    }
}
