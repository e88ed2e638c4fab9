// A group that comes to rest.
use crate::crowd::Fault;
use crate::gateway::TestGateway;
use crate::group::Group;
use crate::seat::Life;

/// The most rounds that a group takes to come to rest.
const MOST: u32 = 600;

impl<G: TestGateway> Group<'_, G> {
    // All frames that go to a member come.
    fn carry_to(&mut self, to: usize) {
        'others: for from in 0..self.many() {
            self.carry(from, to, u32::MAX);
        }
    }

    /// All members make so many turns, and nothing is late.
    pub(crate) fn rounds(&mut self, count: u32) {
        'rounds: for _ in 0..count {
            self.now = self.now.saturating_add(1);
            'seats: for seat in 0..self.many() {
                self.carry_to(seat);
                self.turn(seat);
            }
        }
    }

    /// Members and clients go on until nothing is to be heard, and each member that lives is at rest.
    pub(crate) fn settle(&mut self) {
        'rounds: for _ in 0..MOST {
            self.rounds(1);
            if self.unsettled().is_none() {
                return;
            }
        }
        if let Some(fault) = self.unsettled() {
            self.crowd.fail(fault);
        }
    }

    // A client at a member that lives which waits to hear something, or such a member that isn't at rest.
    fn unsettled(&self) -> Option<Fault> {
        for (number, client) in self.crowd.clients.iter().enumerate() {
            if client.waits() && self.life(client.seat) == Life::Lives {
                return Some(Fault::Waits { client: number });
            }
        }
        for (number, seat) in self.seats.iter().enumerate() {
            if seat.is_busy() {
                return Some(Fault::Busy { seat: number });
            }
        }
        None
    }
}
