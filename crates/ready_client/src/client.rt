ghost use Rattle.std.specs.Prelude.{◌≡◌, ◌≢◌, ◌≤◌, ◌^◌, ◌⊎◌, ◌++◌, ℕ, List, [], None, length, true};
ghost use Rattle.edge_io.specs.Faults.{Rose};
ghost use Rattle.edge_io.specs.Moving.{Input};
ghost use Rattle.memc_proto.specs.Reader.{HasRead};
ghost use Rattle.ready_client.specs.Asking.{connection_at, AsksFrom};
ghost use Rattle.ready_client.specs.Calling.{KeepsApart, LendsApart};
ghost use Rattle.ready_client.specs.Coming.{end_by, ComesAtGateway, HasTakenLess};

use crate::calls::Calls;
use crate::step::{MOST_UNSENT, Step, advance};
use crate::turning::Turning;
use edge_io::{Clock, Failed};
use front_end::{Connection, ConnectionFault, End, Gateway, Overlap};
use outbox::{Outbox, Sending, TryStream};
use std::alloc::Global;

/// How many steps a turn has: so many requests are answered or pieces read before others are served.
const STEPS: u32 = 32;

/// The most bytes that a turn sends, so that a large item holds up no other connection for long.
const MOST_SENT: usize = 65_536;

/// What a turn came to.
#[derive(Clone, Copy, Debug, PartialEq, Eq)]
pub enum Turn {
    /// There is more to do at once.
    More,
    /// The stream is to be waited for.
    Waits,
    /// The end of a call of it is to be waited for.
    AwaitsCall,
    /// A free caller is to be waited for.
    AwaitsCaller,
    /// The connection is over.
    Over,
}

/// A connection that is served when its stream is ready: what was read of it, its calls that are under way, what is not sent
/// yet, how it ended, and what its last turn came to.
#[derive(Drop)]
pub struct Client<S, K> {
    stream: S,
    connection: Connection,
    calls: Calls<K>,
    outbox: Outbox,
    end: Option<Result<End, ConnectionFault>>,
    last: Turn,
    ghost within: { connection.count ≤ 2 ^ 62 },
}

impl<S: TryStream, K: Drop> Client<S, K> {
    /// A stream of which nothing was read and to which nothing was written.
    pub fn new(alloc: Global, stream: S) -> Client<S, K>
        ensures stream { result.stream ≡ stream }
        ensures kept { HasRead result.connection.kept [] [] }
        ensures waiting { result.connection.waiting ≡ [] }
        ensures count { result.connection.count ≡ 0 }
        ensures calls { result.calls.list ≡ [] }
        ensures unwanted { result.calls.unwanted ≡ 0 }
        ensures outbox { result.outbox ≡ [] }
        ensures end { result.end ≡ None }
        ensures last { result.last ≡ Turn.Waits }
    {
        Client {
            stream,
            connection: Connection::new(alloc),
            calls: Calls::new(alloc),
            outbox: Outbox::new(alloc),
            end: None,
            last: Turn::Waits,
        }
    }

    /// One turn: steps until the stream, a call of it or a free caller would have to be waited for, the connection is over, or
    /// others are to be served. Nothing is read while a call is under way. It is over once it ended, all of its text was sent
    /// and none of its calls is under way, or the stream counted a fault.
    pub fn turn<G: Gateway<Call = K>, T: Clock>(
        &mut self,
        alloc: Global,
        overlap: Overlap,
        gateway: &mut G,
        clock: &T,
        room: &mut [u8],
    ) -> Turn
        requires room { length room.old ≡ 65536 }
        ensures comes { (input : Input) (first : G) (before : List ℕ)
            → ComesAtGateway G.rules overlap (T.moment clock.now) input (S.input self.old.stream) first before gateway.old
            (S.held self.old.stream ++ self.old.outbox) self.old.connection self.old.calls.list self.old.calls.unwanted self.old.end
            → ComesAtGateway G.rules overlap (T.moment clock.now) input (S.input self.new.stream) first before gateway.new
            (S.held self.new.stream ++ self.new.outbox) self.new.connection self.new.calls.list self.new.calls.unwanted self.new.end }
        ensures asks { AsksFrom G.rules (T.moment clock.now) (S.held self.old.stream) overlap (S.input self.old.stream)
            (connection_at gateway.old self.old.connection self.old.calls.list self.old.calls.unwanted self.old.end
            (S.held self.old.stream ++ self.old.outbox))
            (connection_at gateway.new self.new.connection self.new.calls.list self.new.calls.unwanted self.new.end
            (S.held self.new.stream ++ self.new.outbox)) }
        ensures apart { KeepsApart G.rules self.old.calls.list self.new.calls.list gateway.old gateway.new }
        ensures lends { LendsApart G.rules self.old.calls.list self.new.calls.list gateway.old gateway.new }
        ensures onward { G.rules.later gateway.old gateway.new }
        ensures call { result ≡ Turn.AwaitsCall → self.new.calls.list ≢ [] }
        ensures caller { result ≡ Turn.AwaitsCaller → (self.new.calls.list ≡ []) × (self.new.connection.waiting ≢ []) }
        ensures over { result ≡ Turn.Over → ((self.new.end ≢ None) × (self.new.outbox ≡ []) × (self.new.calls.list ≡ []))
            ⊎ Rose (S.faults self.old.stream) (S.faults self.new.stream) }
        ensures waits { result ≡ Turn.Waits
            → (self.new.outbox ≡ []) ⊎ HasTakenLess (S.held self.old.stream) (S.held self.new.stream) }
        ensures sent { (result ≡ Turn.AwaitsCall) ⊎ (result ≡ Turn.AwaitsCaller) → self.new.outbox ≡ [] }
        ensures later { S.faults self.old.stream ≤ S.faults self.new.stream }
        ensures room { length room.new ≡ 65536 }
        ensures last { self.new.last ≡ result }
    {
        let came = self.run(alloc, overlap, gateway, clock, room);
        self.last = came;
        came
    }

    /// Its stream became ready, and its peer may have closed it.
    pub fn woken(&self, ends: bool) {
        self.stream.woken(ends);
    }

    // A turn, of which it isn't noted what it came to.
    fn run<G: Gateway<Call = K>, T: Clock>(
        &mut self,
        alloc: Global,
        overlap: Overlap,
        gateway: &mut G,
        clock: &T,
        room: &mut [u8],
    ) -> Turn
        requires room { length room.old ≡ 65536 }
        ensures comes { (input : Input) (first : G) (before : List ℕ)
            → ComesAtGateway G.rules overlap (T.moment clock.now) input (S.input self.old.stream) first before gateway.old
            (S.held self.old.stream ++ self.old.outbox) self.old.connection self.old.calls.list self.old.calls.unwanted self.old.end
            → ComesAtGateway G.rules overlap (T.moment clock.now) input (S.input self.new.stream) first before gateway.new
            (S.held self.new.stream ++ self.new.outbox) self.new.connection self.new.calls.list self.new.calls.unwanted self.new.end }
        ensures asks { AsksFrom G.rules (T.moment clock.now) (S.held self.old.stream) overlap (S.input self.old.stream)
            (connection_at gateway.old self.old.connection self.old.calls.list self.old.calls.unwanted self.old.end
            (S.held self.old.stream ++ self.old.outbox))
            (connection_at gateway.new self.new.connection self.new.calls.list self.new.calls.unwanted self.new.end
            (S.held self.new.stream ++ self.new.outbox)) }
        ensures apart { KeepsApart G.rules self.old.calls.list self.new.calls.list gateway.old gateway.new }
        ensures lends { LendsApart G.rules self.old.calls.list self.new.calls.list gateway.old gateway.new }
        ensures onward { G.rules.later gateway.old gateway.new }
        ensures call { result ≡ Turn.AwaitsCall → self.new.calls.list ≢ [] }
        ensures caller { result ≡ Turn.AwaitsCaller → (self.new.calls.list ≡ []) × (self.new.connection.waiting ≢ []) }
        ensures over { result ≡ Turn.Over → ((self.new.end ≢ None) × (self.new.outbox ≡ []) × (self.new.calls.list ≡ []))
            ⊎ Rose (S.faults self.old.stream) (S.faults self.new.stream) }
        ensures waits { result ≡ Turn.Waits
            → (self.new.outbox ≡ []) ⊎ HasTakenLess (S.held self.old.stream) (S.held self.new.stream) }
        ensures sent { (result ≡ Turn.AwaitsCall) ⊎ (result ≡ Turn.AwaitsCaller) → self.new.outbox ≡ [] }
        ensures later { S.faults self.old.stream ≤ S.faults self.new.stream }
        ensures room { length room.new ≡ 65536 }
    {
        'steps: for _ in 0..STEPS {
            if self.end.is_some() && self.calls.list.is_empty() {
                return self.send(Turn::Over);
            }
            if self.step(alloc, overlap, gateway, clock, room) {
                return self.send(self.awaited());
            }
        }
        self.send(Turn::More)
    }

    // Sends what waits, as far as the stream takes it and a turn sends it. Where all of it went out it comes to `all`.
    fn send(&mut self, all: Turn) -> Turn
        ensures text { S.held self.new.stream ++ self.new.outbox ≡ S.held self.old.stream ++ self.old.outbox }
        ensures input { S.input self.new.stream ≡ S.input self.old.stream }
        ensures connection { self.new.connection ≡ self.old.connection }
        ensures calls { self.new.calls ≡ self.old.calls }
        ensures end { self.new.end ≡ self.old.end }
        ensures call { result ≡ Turn.AwaitsCall → all ≡ Turn.AwaitsCall }
        ensures caller { result ≡ Turn.AwaitsCaller → all ≡ Turn.AwaitsCaller }
        ensures over { result ≡ Turn.Over
            → ((all ≡ Turn.Over) × (self.new.outbox ≡ [])) ⊎ Rose (S.faults self.old.stream) (S.faults self.new.stream) }
        ensures waits { result ≡ Turn.Waits
            → (self.new.outbox ≡ []) ⊎ HasTakenLess (S.held self.old.stream) (S.held self.new.stream) }
        ensures sent { (result ≡ Turn.AwaitsCall) ⊎ (result ≡ Turn.AwaitsCaller) → self.new.outbox ≡ [] }
        ensures later { S.faults self.old.stream ≤ S.faults self.new.stream }
    {
        match self.outbox.write_out(&mut self.stream, MOST_SENT) {
            Ok(Sending::All) => all,
            Ok(Sending::Part) => Turn::More,
            Ok(Sending::Waits) => Turn::Waits,
            Err(Failed) => Turn::Over,
        }
    }

    // What is to be waited for: that what waits is sent, the end of a call, a free caller for the call that is due, or the stream.
    fn awaited(&self) -> Turn
        ensures call { result ≡ Turn.AwaitsCall → self.now.calls.list ≢ [] }
        ensures caller { result ≡ Turn.AwaitsCaller → (self.now.calls.list ≡ []) × (self.now.connection.waiting ≢ []) }
        ensures over { result ≢ Turn.Over }
    {
        if self.outbox.len() > MOST_UNSENT {
            Turn::More
        } else if !self.calls.list.is_empty() {
            Turn::AwaitsCall
        } else if self.connection.has_waiting() {
            Turn::AwaitsCaller
        } else {
            Turn::Waits
        }
    }

    // One step, which may be the last, or of a connection that ended: it lets its calls go. Says whether something is to be
    // waited for.
    fn step<G: Gateway<Call = K>, T: Clock>(
        &mut self,
        alloc: Global,
        overlap: Overlap,
        gateway: &mut G,
        clock: &T,
        room: &mut [u8],
    ) -> bool
        requires room { length room.old ≡ 65536 }
        ensures comes { (input : Input) (first : G) (before : List ℕ)
            → ComesAtGateway G.rules overlap (T.moment clock.now) input (S.input self.old.stream) first before gateway.old
            (S.held self.old.stream ++ self.old.outbox) self.old.connection self.old.calls.list self.old.calls.unwanted self.old.end
            → ComesAtGateway G.rules overlap (T.moment clock.now) input (S.input self.new.stream) first before gateway.new
            (S.held self.new.stream ++ self.new.outbox) self.new.connection self.new.calls.list self.new.calls.unwanted self.new.end }
        ensures asks { AsksFrom G.rules (T.moment clock.now) (S.held self.old.stream) overlap (S.input self.old.stream)
            (connection_at gateway.old self.old.connection self.old.calls.list self.old.calls.unwanted self.old.end
            (S.held self.old.stream ++ self.old.outbox))
            (connection_at gateway.new self.new.connection self.new.calls.list self.new.calls.unwanted self.new.end
            (S.held self.new.stream ++ self.new.outbox)) }
        ensures apart { KeepsApart G.rules self.old.calls.list self.new.calls.list gateway.old gateway.new }
        ensures lends { LendsApart G.rules self.old.calls.list self.new.calls.list gateway.old gateway.new }
        ensures onward { G.rules.later gateway.old gateway.new }
        ensures held { S.held self.new.stream ≡ S.held self.old.stream }
        ensures later { S.faults self.old.stream ≤ S.faults self.new.stream }
        ensures room { length room.new ≡ 65536 }
    {
        if self.end.is_some() || self.calls.has_unwanted() {
            return !self.calls.let_go(gateway);
        }
        let turning = Turning {
            alloc,
            overlap,
            clock,
        };
        let result = advance(
            &turning,
            gateway,
            &mut self.stream,
            &mut self.connection,
            &mut self.calls,
            &mut self.outbox,
            room,
        );
        self.end = end_by(&result);
        matches!(result, Ok(Step::Waits))
    }
}

impl<S: Drop, K: Drop> Client<S, K> {
    ghost use Rattle.std.specs.Prelude.{◌≡◌, ◌↔◌, ◌≢◌, [], IsTrue};

    /// Whether a call of it is under way.
    pub fn has_calls(&self) -> bool
        ensures { IsTrue result ↔ (self.now.calls.list ≢ []) }
    {
        !self.calls.list.is_empty()
    }
}

/// How a connection ended by what a step came to, if it did.
fn end_by(came: &Result<Step, ConnectionFault>) -> Option<Result<End, ConnectionFault>>
    ensures { result ≡ end_by came.now }
{
    match came {
        Ok(Step::Ends(end)) => Some(Ok(*end)),
        Ok(_) => None,
        Err(fault) => Some(Err(*fault)),
    }
}
