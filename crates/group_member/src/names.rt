ghost use Rattle.std.specs.Prelude.{◌≡◌, ◌↔◌, ◌≤◌, IsTrue, IfSome, IfNone};
ghost use Rattle.group_types.specs.Dimensions.{callers};
ghost use Rattle.group_types.specs.Names.{IsProcess};
ghost use Rattle.group_wire.specs.State as wire;
ghost use Rattle.group_member.specs.Callers as specs;

use group_node::process_at;
use group_types::{CALLERS, ProcessId, Shape};

// Whether a name is of a process of the group.
pub(crate) fn is_of(shape: Shape, name: ProcessId) -> bool
    ensures { IsTrue result ↔ IsProcess shape name }
{
    match name {
        ProcessId::DataNode(d) => d < shape.k(),
        ProcessId::ParityNode(i) => i < shape.m(),
    }
}

/// How many callers each process of a group is the gateway of.
pub fn callers_each(shape: Shape) -> u32
    ensures each { result ≡ specs.callers_each shape }
    ensures some { 1 ≤ result }
    ensures few { result ≤ callers }
{
    CALLERS / (shape.k() + shape.m())
}

/// The process that is the gateway of a caller, if it is one of the group.
pub fn gateway_of(shape: Shape, caller: u32) -> Option<ProcessId>
    ensures some { IfSome result (λ p. (p ≡ wire.gateway_of shape caller) × IsProcess shape p) }
    ensures none { IfNone result (¬ (IsProcess shape (wire.gateway_of shape caller))) }
{
    let x = caller / callers_each(shape);
    if shape.k() + shape.m() <= x {
        return None;
    }
    Some(process_at(shape, x))
}
