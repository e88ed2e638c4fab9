ghost use Rattle.std.specs.Prelude.{◌≡◌, ◌+◌, ◌<◌, suc, List, ◌∷◌, length, IfSome, IfNone, OnOk};
ghost use Rattle.group_run.specs.Applying as machine;
ghost use Rattle.group_types.specs.Names as names;
ghost use Rattle.group_types.specs.Names.{IsProcess};
ghost use Rattle.group_types.specs.Shape.{IsShape};
ghost use Rattle.law_answers.specs.Steps.{FewForEach};
ghost use Rattle.group_run.specs.World.{links_after};
ghost use Rattle.group_node.specs.Rooms.{HaveRoom, HaveRoomFor, IsLiving, messages};

use group_message::Message;
use group_types::{ProcessId, Shape};
use head_service::Sent;
use link_core::Links;
use membership::Members;
use std::alloc::AllocError;

/// Makes room for all that one step sends, and for the notice of a death behind it.
pub fn make_room(shape: Shape, links: &mut Links<Message>) -> Result<(), AllocError>
    ensures shape { IsShape shape }
    ensures many { length links.new ≡ length links.old }
    ensures messages { messages links.new ≡ messages links.old }
    ensures kept { HaveRoom 1 links.old → HaveRoom 1 links.new }
    ensures room { OnOk result (HaveRoom (suc (suc shape.k)) links.new) }
{
    links.reserve(shape.k() + 2)
}

/// The messages of a step go into the links, but those to processes that are known dead.
pub fn send_all(shape: Shape, known: Members, sent: Vec<Sent>, links: &mut Links<Message>)
    requires many { length links.old ≡ shape.k + shape.m }
    requires few { FewForEach shape sent.items }
    requires room { HaveRoom (suc (suc shape.k)) links.old }
    ensures many { length links.new ≡ length links.old }
    ensures messages { messages links.new ≡ links_after shape known sent.items (messages links.old) }
    ensures room { HaveRoom 1 links.new }
{
    'messages: for one in sent {
        send(shape, known, one, links);
    }
}

// One message goes into its link.
fn send(shape: Shape, known: Members, one: Sent, links: &mut Links<Message>)
    requires many { length links.old ≡ shape.k + shape.m }
    requires room { HaveRoom 1 links.old }
    ensures many { length links.new ≡ length links.old }
    ensures messages { (rest : List machine.Sent) → links_after shape known rest (messages links.new)
        ≡ links_after shape known (one ∷ rest) (messages links.old) }
    ensures room { (rest : List machine.Sent) → HaveRoomFor shape (one ∷ rest) links.old
        → HaveRoomFor shape rest links.new }
{
    match living_target(shape, known, one.to) {
        None => {}
        Some(to) => links.send(to, one.message),
    }
}

// The index of a process that messages are sent to: one of the group that isn't known dead.
fn living_target(shape: Shape, known: Members, name: ProcessId) -> Option<u32>
    ensures some { IfSome result (λ x. IsLiving shape known name × (x ≡ names.index_of shape name)) }
    ensures none { IfNone result (¬ (IsLiving shape known name)) }
{
    match name {
        _ if known.is_dead(name) => None,
        ProcessId::DataNode(d) if d < shape.k() => Some(d),
        ProcessId::ParityNode(i) if i < shape.m() => Some(shape.k() + i),
        _ => None,
    }
}

/// The index of a process of the group.
pub fn index_of(shape: Shape, name: ProcessId) -> u32
    requires { IsProcess shape name }
    ensures { result ≡ names.index_of shape name }
{
    match name {
        ProcessId::DataNode(d) => d,
        ProcessId::ParityNode(i) => shape.k() + i,
    }
}

/// The process of the group at an index.
pub fn process_at(shape: Shape, x: u32) -> ProcessId
    requires { x < shape.k + shape.m }
    ensures name { result ≡ names.process_at shape x }
    ensures process { IsProcess shape result }
{
    let k = shape.k();
    if x < k {
        ProcessId::DataNode(x)
    } else {
        ProcessId::ParityNode(x - k)
    }
}
