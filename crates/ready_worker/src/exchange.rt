ghost use Rattle.front_end.specs.Gateway.{KeepsOpen, LendsNone};

use front_end::Gateway;

/// A gateway that speaks with others, over `L`, between the turns of its connections.
pub trait Exchange<L>: Gateway {
    /// Takes what came from the others.
    fn receive(&mut self, links: &mut L)
        ensures open { KeepsOpen Self.rules self.old self.new }
        ensures lends { LendsNone Self.rules self.old self.new }
        ensures later { Self.rules.later self.old self.new };

    /// Sends what is to go to them.
    fn send(&mut self, links: &mut L)
        ensures open { KeepsOpen Self.rules self.old self.new }
        ensures lends { LendsNone Self.rules self.old self.new }
        ensures later { Self.rules.later self.old self.new };

    /// The next connection that is to be served again: its call ended, or a caller is free for it.
    fn next_woken(&mut self) -> Option<usize>
        ensures open { KeepsOpen Self.rules self.old self.new }
        ensures lends { LendsNone Self.rules self.old self.new }
        ensures later { Self.rules.later self.old self.new };
}
