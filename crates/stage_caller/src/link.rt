ghost use Rattle.std.specs.Prelude.{◌≡◌, ◌≢◌, ◌<◌, ◌≤◌, ◌*◌, IfNone, IfSome};
ghost use Rattle.group_types.specs.Names as names;
ghost use Rattle.stage_caller.specs.Moving.{IsLink, links_of, receiver, sender};
ghost use Rattle.stage_caller.specs.Rounds.{IsNear};

use crate::route::Route;
use group_node::process_at;
use group_types::{ProcessId, Shape};

/// From one process to another.
#[derive(Clone, Copy, Debug, PartialEq, Eq)]
pub(crate) struct Link {
    pub from: ProcessId,
    pub to: ProcessId,
}

/// The links between the process that is asked and the others of its partition, to and fro, beginning at one by the
/// caller's number.
pub(crate) fn near_link(route: &Route, caller: u32, place: u32) -> Option<Link>
    ensures link { IfSome result (λ link. IsLink route.now.shape link.from link.to) }
    ensures near { IfSome result (λ link. IsNear route.now caller place link.from link.to) }
    ensures none { IfNone result (2 * route.now.shape.m ≤ place) }
{
    let others = route.shape.m();
    let i = place / 2;
    if others <= i {
        return None;
    }
    let head = route.server();
    let other = route.further(1 + caller.wrapping_add(i) % others).server();
    if place.is_multiple_of(2) {
        between(head, other)
    } else {
        between(other, head)
    }
}

/// All links of the group.
pub(crate) fn any_link(shape: Shape, place: u32) -> Option<Link>
    ensures link { IfSome result (λ link. IsLink shape link.from link.to) }
    ensures from { IfSome result (λ link. link.from ≡ names.process_at shape (sender shape place)) }
    ensures to { IfSome result (λ link. link.to ≡ names.process_at shape (receiver shape place)) }
    ensures none { IfNone result (links_of shape ≤ place) }
{
    let all = shape.k() + shape.m();
    let others = all - 1;
    if others == 0 {
        return None;
    }
    let from = place / others;
    if all <= from {
        return None;
    }
    let to = (from + 1 + place % others) % all;
    between(process_at(shape, from), process_at(shape, to))
}

// The link between two processes that differ.
fn between(from: ProcessId, to: ProcessId) -> Option<Link>
    ensures from { IfSome result (λ link. link.from ≡ from) }
    ensures to { IfSome result (λ link. link.to ≡ to) }
    ensures apart { IfSome result (λ link. link.from ≢ link.to) }
    ensures none { IfNone result (from ≡ to) }
{
    if from == to {
        None
    } else {
        Some(Link { from, to })
    }
}
