// What all groups are told, one after the other.
ghost use Rattle.std.specs.Prelude.{◌≡◌, ◌≢◌, ℕ, IfSome};
ghost use Rattle.group_gateways.specs.Rules.{GoesOnQuietly, gateway_in, group_rules};

use crate::gateway::GroupGateways;
use front_end::Gateway;
use ready_worker::{Closing, Exchange};

impl<G: Gateway> GroupGateways<G> {
    /// The connection of this key has its turn in a group.
    pub(crate) fn turn_in(&mut self, group: usize, key: usize)
        ensures { GoesOnQuietly (group_rules G.rules) self.old self.new }
    {
        if let Some(gateway) = self.gateways.get_mut(group) {
            gateway.turn_of(key);
        }
    }

    /// A group takes what came from the others of it.
    pub(crate) fn receive_in<L>(&mut self, group: usize, links: &mut L)
    where
        G: Exchange<L>,
        ensures { GoesOnQuietly (group_rules G.rules) self.old self.new }
    {
        if let Some(gateway) = self.gateways.get_mut(group) {
            gateway.receive(links);
        }
    }

    /// A group sends what is to go to the others of it.
    pub(crate) fn send_in<L>(&mut self, group: usize, links: &mut L)
    where
        G: Exchange<L>,
        ensures { GoesOnQuietly (group_rules G.rules) self.old self.new }
    {
        if let Some(gateway) = self.gateways.get_mut(group) {
            gateway.send(links);
        }
    }

    /// The next connection that is to be served again by a group.
    pub(crate) fn woken_in<L>(&mut self, group: usize) -> Option<usize>
    where
        G: Exchange<L>,
        ensures { GoesOnQuietly (group_rules G.rules) self.old self.new }
    {
        match self.gateways.get_mut(group) {
            Some(gateway) => Exchange::<L>::next_woken(gateway),
            None => None,
        }
    }
}

impl<G: Closing> GroupGateways<G> {
    /// A group is closed from now on, or open.
    pub(crate) fn close_in(&mut self, group: usize, is_closed: bool)
        ensures quiet { GoesOnQuietly (group_rules G.rules) self.old self.new }
        ensures closed { IfSome (gateway_in self.new group) (λ now. G.closed now ≡ is_closed) }
        ensures others { (j : ℕ) → j ≢ group → gateway_in self.new j ≡ gateway_in self.old j }
    {
        if let Some(gateway) = self.gateways.get_mut(group) {
            gateway.set_closed(is_closed);
        }
    }
}
