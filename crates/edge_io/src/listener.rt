ghost use Rattle.std.specs.Prelude.{◌≡◌, ℕ, ◌+◌, ◌^◌, ◌≤◌, Bool, false, List, [], Option, Some, IfOk, IfSome, OnErr, OnOk};
ghost use Rattle.edge_io.specs.Faults.{HasCause};
ghost use Rattle.edge_io.specs.Connections.{count_handed_out, IsOverAfter, TakesNext, StaysToCome};

use crate::fault::Failed;
use crate::sink::Sink;
use crate::source::Source;

/// Connections that arrive one after another, each with a source and a sink of its own.
pub trait Listener {
    /// Where a connection's bytes come from.
    type Incoming: Source + Send;

    /// Where a connection's answers go.
    type Outgoing: Sink + Send;

    // The faults counted so far, a `u64`.
    ghost faults: { Self → ℕ };

    // The connections handed out so far.
    ghost accepted: { Self → ℕ };

    // Whether it has said that no further connection comes.
    ghost over: { Self → Bool };

    // The connections to come, where they are told, each by the bytes that its source will give.
    ghost to_come: { Self → Option (List (List ℕ)) };

    // The address at which it listens, as it was asked for, where it does.
    ghost at: { Self → Option (List ℕ) };

    // What listening at an address made of a listener: before, the address, after.
    ghost listened: { Self → List ℕ → Self → Type 0 };

    /// Listens at `address`, and no more where it did before.
    fn listen(&mut self, address: &str) -> Result<(), Failed>
        ensures begun { OnOk result (listened self.old address.now self.new) }
        ensures at { OnOk result (at self.new ≡ Some address.now) }
        ensures at_before { OnErr result (at self.new ≡ at self.old) }
        ensures limit { accepted self.new ≤ 2 ^ 62 }
        ensures none_accepted { accepted self.new ≡ accepted self.old }
        ensures same_end { over self.new ≡ over self.old }
        ensures same_to_come { StaysToCome (to_come self.old) (to_come self.new) }
        ensures cause { HasCause (faults self.old) (faults self.new) result };

    /// Hands out the next connection, of which nothing is read or written yet. `Ok(None)` says
    /// that no further connection comes, and `Failed` leaves those to come.
    fn accept(&mut self) -> Result<Option<(Self::Incoming, Self::Outgoing)>, Failed>
        ensures limit { accepted self.new ≤ 2 ^ 62 }
        ensures same_at { at self.new ≡ at self.old }
        ensures count { accepted self.new ≡ accepted self.old + count_handed_out result }
        ensures end { IsOverAfter (over self.old) (over self.new) result }
        ensures next { TakesNext (to_come self.old) (to_come self.new) (λ c. (Self.Incoming.input c.0).left) result }
        ensures unread { IfOk result (λ o. IfSome o (λ c. ((Self.Incoming.input c.0).taken ≡ []) × ((Self.Incoming.input c.0).ended ≡ false))) }
        ensures fresh { IfOk result (λ o. IfSome o (λ c. Self.Outgoing.held c.1 ≡ [])) }
        ensures cause { HasCause (faults self.old) (faults self.new) result };
}
