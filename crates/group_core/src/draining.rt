ghost use Rattle.std.specs.Prelude.{◌≡◌, ◌+◌, ◌<◌, ◌↔◌, None, IsTrue, IfSome, option_map};
ghost use Rattle.std.specs.List.{range_with_len};
ghost use Rattle.group_calls.specs.declared.event.Event.TheVariants as happens;
ghost use Rattle.group_run.specs.Draining.{is_waiting, next_delivery, next_target};
ghost use Rattle.group_run.specs.Meaning.{IsDrained};
ghost use Rattle.group_core.specs.Links.{delivery};

use crate::world::World;
use group_node::process_at;
use group_types::ProcessId;

impl World {
    /// The link that drains the group next, by its sender and its receiver: the lowest into a living process that has a
    /// message.
    pub fn next_link(&self) -> Option<(ProcessId, ProcessId)>
        ensures { option_map (λ link. happens.Deliver link.0 link.1) result ≡ next_delivery self.now }
    {
        let shape = self.shape();
        match self.next_indices() {
            None => None,
            Some((from, to)) => Some((process_at(shape, from), process_at(shape, to))),
        }
    }

    /// Whether no message is on its way to a living process.
    pub fn is_drained(&self) -> bool
        ensures next { IsTrue result ↔ next_delivery self.now ≡ None }
        ensures drained { IsTrue result → IsDrained self.now }
    {
        self.next_indices().is_none()
    }

    // The indices of the next delivery's sender and receiver.
    fn next_indices(&self) -> Option<(u32, u32)>
        ensures delivery { option_map (delivery self.now.shape) result ≡ next_delivery self.now }
        ensures from { IfSome result (λ p. p.0 < self.now.shape.k + self.now.shape.m) }
        ensures to { IfSome result (λ p. p.1 < self.now.shape.k + self.now.shape.m) }
    {
        let shape = self.shape();
        'senders: for from in 0..shape.k() + shape.m() {
            match self.next_target(from) {
                None => {}
                Some(to) => return Some((from, to)),
            }
        }
        None
    }

    // The lowest index that a message is on its way to.
    fn next_target(&self, from: u32) -> Option<u32>
        requires { from < self.now.shape.k + self.now.shape.m }
        ensures target { result ≡ next_target self.now from (range_with_len 0 (self.now.shape.k + self.now.shape.m)) }
        ensures within { IfSome result (λ to. to < self.now.shape.k + self.now.shape.m) }
    {
        let shape = self.shape();
        if self.nodes.node(process_at(shape, from)).is_idle() {
            return None;
        }
        'targets: for to in 0..shape.k() + shape.m() {
            if self.is_waiting(from, to) {
                return Some(to);
            }
        }
        None
    }

    fn is_waiting(&self, from: u32, to: u32) -> bool
        requires from { from < self.now.shape.k + self.now.shape.m }
        requires to { to < self.now.shape.k + self.now.shape.m }
        ensures { result ≡ is_waiting self.now from to }
    {
        let shape = self.shape();
        let target = process_at(shape, to);
        if self.nodes.node(process_at(shape, from)).is_empty(target) {
            return false;
        }
        !self.is_dead(target)
    }
}
