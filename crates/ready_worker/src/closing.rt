ghost use Rattle.std.specs.Prelude.{◌≡◌, Bool};
ghost use Rattle.front_end.specs.Gateway.{KeepsOpen, LendsNone};

use crate::readiness::Readiness;
use crate::worker::Worker;
use edge_io::Clock;
use front_end::Gateway;

/// A gateway that can be closed: calls that may change an item are refused from then on.
pub trait Closing: Gateway {
    // Whether it is closed.
    ghost closed: { Self → Bool };

    /// It is closed from now on, or open.
    fn set_closed(&mut self, is_closed: bool)
        ensures closed { Self.closed self.new ≡ is_closed }
        ensures open { KeepsOpen Self.rules self.old self.new }
        ensures lends { LendsNone Self.rules self.old self.new }
        ensures later { Self.rules.later self.old self.new };
}

impl<'t, Y: Readiness, G: Closing, T: Clock> Worker<'t, Y, G, T> {
    /// Its gateway is closed from now on, or open. The calls that are open go on.
    pub fn set_closed(&mut self, is_closed: bool)
        ensures closed { G.closed self.new.gateway ≡ is_closed }
        ensures clock { self.new.clock ≡ self.old.clock }
        ensures overlap { self.new.overlap ≡ self.old.overlap }
        ensures places { self.new.places ≡ self.old.places }
    {
        self.gateway.set_closed(is_closed);
    }
}
