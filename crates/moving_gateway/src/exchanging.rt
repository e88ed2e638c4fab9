use crate::gateway::MovingGateway;
use crate::keyed::Keyed;
use ready_worker::{Closing, Exchange};

impl<L, G: Keyed + Exchange<L>> Exchange<L> for MovingGateway<G> {
    fn receive(&mut self, links: &mut L) {
        self.inner.receive(links);
    }

    fn send(&mut self, links: &mut L) {
        self.inner.send(links);
    }

    fn next_woken(&mut self) -> Option<usize> {
        Exchange::<L>::next_woken(&mut self.inner)
    }
}

impl<G: Keyed> Closing for MovingGateway<G> {
    ghost closed = { λ now. now.is_closed };

    fn set_closed(&mut self, is_closed: bool) {
        self.is_closed = is_closed;
    }
}
