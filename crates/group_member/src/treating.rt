ghost use Rattle.std.specs.Prelude.{◌≡◌, ◌↔◌, ◌<◌, false, true, Some, IsTrue, IfOk, OnErr};
ghost use Rattle.group_types.specs.Dimensions.{callers};
ghost use Rattle.group_node.specs.Asking.{HasOpened};
ghost use Rattle.group_node.specs.Steps.{made};
ghost use Rattle.group_wire.specs.State as wire;
ghost use Rattle.group_member.specs.Callers.{ask_for};
ghost use Rattle.group_member.specs.Requests.{CanTreat, HasNumbersFor, IsTreatable, is_early};
ghost use Rattle.group_member.specs.Telling.{told_to};
ghost use Rattle.group_member.specs.Treating.{treat_node};

use crate::own_caller::OwnCaller;
use crate::telling::told_for;
use group_calls::{Answer, Cause};
use group_node::{Node, NodeOut};
use head_service::Call;
use link_frames::{Request, Told, Wish};
use std::alloc::{AllocError, Global};

// A request is treated at a node that lives. After want of memory it is as it was.
pub(crate) fn treat_at(
    alloc: Global,
    node: &mut Node,
    request: &Request,
) -> Result<NodeOut, AllocError>
    requires fits { IsTreatable node.old.shape request.now }
    requires numbers { HasNumbersFor node.old.shape node.old.node.process request.now }
    ensures shape { node.new.shape ≡ node.old.shape }
    ensures step { IfOk result (λ out. treat_node node.old.shape request.now node.old.node ≡ made node.new.node out) }
    ensures early { IfOk result (λ out. is_early request.now out.answer ≡ true → node.new ≡ node.old) }
    ensures opened { IfOk result (λ out. IsTrue out.opened ↔ HasOpened node.old.node.process node.new.node.process) }
    ensures err { OnErr result (node.new ≡ node.old) }
{
    let (caller, number, wish) = request.parts();
    match wish {
        Wish::Ask(op) => node.ask(Call { caller, number }, op),
        Wish::Trace(partition) => Ok(NodeOut::only(alloc, node.trace(caller, number, *partition))),
    }
}

// A caller's call is asked at a node that lives. After want of memory it is as it was.
pub(crate) fn ask_at(node: &mut Node, caller: u32, state: &OwnCaller) -> Result<NodeOut, AllocError>
    requires caller { caller < callers }
    requires numbers { CanTreat node.old.shape node.old.node.process (ask_for caller state.now.next state.now.call) }
    ensures shape { node.new.shape ≡ node.old.shape }
    ensures step { IfOk result (λ out. (r : wire.Request) → ask_for caller state.now.next state.now.call ≡ Some r
        → treat_node node.old.shape r node.old.node ≡ made node.new.node out) }
    ensures err { OnErr result (node.new ≡ node.old) }
{
    let number = state.next();
    match state.call() {
        Some(call) => node.ask(Call { caller, number }, call.op()),
        None => unreachable!(),
    }
}

// Whether nothing was done by an answer, which may be another later.
pub(crate) fn is_early(request: &Request, answer: &Answer) -> bool
    ensures { result ≡ is_early request.now answer.now }
{
    match (request.parts().2, answer) {
        (_, Answer::Moved) => true,
        (Wish::Ask(_), Answer::Retry(Cause::Pending { .. })) => true,
        (Wish::Trace(_), Answer::NotYet) => true,
        _ => false,
    }
}

// What the gateway is told of the answer to a request.
pub(crate) fn told_to(request: Request, answer: Answer) -> Option<Told>
    ensures { result ≡ told_to request answer }
{
    let (caller, call, wish) = request.parts();
    match wish {
        Wish::Ask(_) => told_for(caller, call, false, answer),
        Wish::Trace(_) => told_for(caller, call, true, answer),
    }
}
