ghost use Rattle.std.specs.Prelude.{◌≡◌, IfSome};
ghost use Rattle.group_types.specs.Names.{IsProcess};
ghost use Rattle.group_wire.specs.State.{gateway_of};
ghost use Rattle.group_member.specs.Callers.{AreCallersOf};
ghost use Rattle.group_member.specs.Requests.{HasGateway};
ghost use Rattle.group_member.specs.Telling.{callers_heard, callers_told, handed_of, told_for, told_on, told_reply};

use crate::names::gateway_of;
use crate::own_callers::OwnCallers;
use crate::words::OwnWords;
use group_calls::Answer;
use link_frames::Told;

// What the gateway is told of a call, but for a ticket, of which it hears later.
pub(crate) fn told_for(caller: u32, call: u64, traced: bool, answer: Answer) -> Option<Told>
    ensures { result ≡ told_for caller call traced answer }
{
    match answer {
        Answer::Ticket(_) => None,
        answer => Some(Told::new(caller, call, traced, answer)),
    }
}

// What the gateway is told of a call that was collected, once there is a reply.
pub(crate) fn told_reply(caller: u32, call: u64, answer: Answer) -> Option<Told>
    ensures { result ≡ told_reply caller call answer }
{
    match answer {
        Answer::Reply(reply) => Some(Told::new(caller, call, false, Answer::Reply(reply))),
        _ => None,
    }
}

// What is told goes to its caller's gateway, unless that is cut; a caller of the member's own learns it at once.
pub(crate) fn tell(
    words: &OwnWords,
    callers: &mut OwnCallers,
    pinged: u64,
    told: Told,
) -> Option<Told>
    requires own { AreCallersOf words.now.shape words.now.name callers.old }
    requires caller { HasGateway words.now.shape told.caller }
    ensures callers { callers.new ≡ callers_told words.now pinged told callers.old }
    ensures told { result ≡ told_on words.now told }
{
    let to = gateway_of(words.shape(), told.caller())?;
    if to == words.name() {
        callers.learn(told, pinged);
        return None;
    }
    if words.has_cut(to) {
        return None;
    }
    Some(told)
}

// The same of what is told, if anything is.
pub(crate) fn tell_any(
    words: &OwnWords,
    callers: &mut OwnCallers,
    pinged: u64,
    told: Option<Told>,
) -> Option<Told>
    requires own { AreCallersOf words.now.shape words.now.name callers.old }
    requires caller { IfSome told (λ t. HasGateway words.now.shape t.caller) }
    ensures callers { callers.new ≡ callers_heard words.now pinged told callers.old }
    ensures told { result ≡ handed_of words.now told }
{
    tell(words, callers, pinged, told?)
}
