use crate::gateway::GroupGateways;
use ready_worker::{Closing, Exchange};

impl<L, G: Exchange<L>> Exchange<Vec<L>> for GroupGateways<G> {
    fn receive(&mut self, links: &mut Vec<L>) {
        'groups: for group in 0..self.gateways.len() {
            if let Some(links) = links.get_mut(group) {
                self.receive_in(group, links);
            }
        }
    }

    fn send(&mut self, links: &mut Vec<L>) {
        'groups: for group in 0..self.gateways.len() {
            if let Some(links) = links.get_mut(group) {
                self.send_in(group, links);
            }
        }
    }

    fn next_woken(&mut self) -> Option<usize> {
        'groups: for group in 0..self.gateways.len() {
            if let Some(key) = self.woken_in::<L>(group) {
                return Some(key);
            }
        }
        None
    }
}

impl<G: Closing> Closing for GroupGateways<G> {
    ghost use Rattle.std.specs.List.{list_all};

    ghost closed = { λ now. list_all G.closed now.gateways.items };

    fn set_closed(&mut self, is_closed: bool) {
        'groups: for group in 0..self.gateways.len() {
            self.close_in(group, is_closed);
        }
    }
}
