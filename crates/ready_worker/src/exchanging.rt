ghost use Rattle.std.specs.Prelude.{◌≡◌};

use crate::exchange::Exchange;
use crate::readiness::Readiness;
use crate::worker::Worker;
use edge_io::Clock;
use front_end::Gateway;

/// The most connections that are woken at a time, far more than are open.
const MOST_WOKEN: u32 = 65_536;

impl<'t, Y: Readiness, G: Gateway, T: Clock> Worker<'t, Y, G, T> {
    /// Its gateway takes what came from the others. The connections that can go on by it are to be served.
    pub fn receive<L>(&mut self, links: &mut L)
    where
        G: Exchange<L>,
        ensures clock { self.new.clock ≡ self.old.clock }
        ensures overlap { self.new.overlap ≡ self.old.overlap }
        ensures values { self.new.places.values ≡ self.old.places.values }
    {
        self.gateway.receive(links);
        self.wake_those::<L>();
    }

    /// Its gateway sends what is to go to the others. The connections that can go on by it are to be served.
    pub fn send<L>(&mut self, links: &mut L)
    where
        G: Exchange<L>,
        ensures clock { self.new.clock ≡ self.old.clock }
        ensures overlap { self.new.overlap ≡ self.old.overlap }
        ensures values { self.new.places.values ≡ self.old.places.values }
    {
        self.gateway.send(links);
        self.wake_those::<L>();
    }

    // Wakes the connections that the gateway gives.
    fn wake_those<L>(&mut self)
    where
        G: Exchange<L>,
        ensures clock { self.new.clock ≡ self.old.clock }
        ensures overlap { self.new.overlap ≡ self.old.overlap }
        ensures values { self.new.places.values ≡ self.old.places.values }
    {
        'woken: for _ in 0..MOST_WOKEN {
            let Some(key) = self.next_woken::<L>() else {
                return;
            };
            self.wake(key);
        }
    }

    // The next connection that the gateway gives to be woken.
    fn next_woken<L>(&mut self) -> Option<usize>
    where
        G: Exchange<L>,
        ensures clock { self.new.clock ≡ self.old.clock }
        ensures overlap { self.new.overlap ≡ self.old.overlap }
        ensures places { self.new.places ≡ self.old.places }
    {
        Exchange::<L>::next_woken(&mut self.gateway)
    }
}
