ghost use Rattle.std.specs.Prelude.{◌≡◌, ◌≢◌, ◌+◌, ◌==◌, [], length, not, vec_len, if◌then◌else◌, Some, None, true, IfSome, OnSome, IfNone};
ghost use Rattle.std.specs.Duration.{as_nanos};
ghost use Rattle.std.specs.Option.{option_map};
ghost use Rattle.slab.specs.Slab.{slab_len};
ghost use Rattle.ready_places.specs.Placed.{HasPlace, placed_at};
ghost use Rattle.ready_places.specs.Queue.{is_queued};
ghost use Rattle.ready_worker.specs.Come.{ShareNoCall, ClientComes, ClientsCome, ClientIsOver};
ghost use Rattle.ready_worker.specs.Queued.{MoreAreQueued, StayQueued};

use crate::inbox::Inbox;
use crate::readiness::{Readiness, Wake};
use crate::settling::{queue_all, settle, with_call};
use crate::share::Share;
use crate::station::Station;
use edge_io::Clock;
use front_end::{Gateway, Overlap};
use outbox::TryEdge;
use ready_client::laws::begins;
use ready_client::{Client, Turn};
use ready_places::Places;
use std::alloc::Global;
use std::sync::Wait;
use std::time::Duration;

/// A worker: its connections, and those of them that are to be served, over one gateway. Each has come from its own
/// beginning to the gateway as it is, at the moment of the clock that the worker was given, with as many calls under way
/// together as it says, and no call is open for two. Each whose last turn left more to do stands in the queue. One that awaits a
/// call or a free caller is served again once it is woken by its key.
#[derive(Drop)]
pub struct Worker<'t, Y: Readiness, G: Gateway, T: Clock> {
    alloc: Global,
    readiness: Y,
    pub(crate) gateway: G,
    clock: &'t T,
    overlap: Overlap,
    places: Places<Client<TryEdge<Y::Stream>, G::Call>>,
    room: Vec<u8>,
    ghost full: { vec_len room ≡ 65536 },
    ghost come: { ClientsCome G.rules overlap (T.moment clock.now) gateway places },
    ghost apart: { ShareNoCall places },
    ghost more: { MoreAreQueued places },
}

impl<'t, Y: Readiness, G: Gateway, T: Clock> Worker<'t, Y, G, T> {
    /// A worker with no connection, of each of which such calls may be under way together.
    pub fn new(
        station: Station<Y>,
        gateway: G,
        clock: &'t T,
        overlap: Overlap,
    ) -> Worker<'t, Y, G, T>
        ensures gateway { result.gateway ≡ gateway }
        ensures overlap { result.overlap ≡ overlap }
        ensures clock { result.clock.now ≡ clock.now }
        ensures none { slab_len result.places.values ≡ 0 }
    {
        let Station {
            alloc,
            readiness,
            room,
        } = station;
        Worker {
            alloc,
            readiness,
            gateway,
            clock,
            overlap,
            places: Places::new(alloc),
            room,
        }
    }

    /// Its gateway.
    pub fn into_gateway(self) -> G
        ensures { result ≡ self.entry.gateway }
    {
        let Worker { gateway, .. } = self;
        gateway
    }

    /// Serves the connections of a inbox until no further one comes and all are over.
    pub fn run<R: Wait, W: Wake>(&mut self, rt: &R, inbox: &Inbox<Y::Stream, W>)
        ensures clock { self.new.clock ≡ self.old.clock }
        ensures overlap { self.new.overlap ≡ self.old.overlap }
    {
        let mut share = Share::none();
        'rounds: for _ in rt.forever() {
            let is_over = inbox.is_over();
            self.take_in(rt, inbox, &mut share);
            if is_over && self.places.is_empty() {
                return;
            }
            self.round_of(inbox, &mut share);
        }
    }

    // Takes the connections that were handed over. Of those that get no place the inbox is told.
    fn take_in<R: Wait, W: Wake>(&mut self, rt: &R, inbox: &Inbox<Y::Stream, W>, share: &mut Share)
        ensures clock { self.new.clock ≡ self.old.clock }
        ensures overlap { self.new.overlap ≡ self.old.overlap }
        ensures owed { share.old ≡ slab_len self.old.places.values → share.new ≡ slab_len self.new.places.values }
    {
        'streams: for _ in rt.forever() {
            let Some(stream) = inbox.next(rt, share) else {
                return;
            };
            if !self.admit(stream) {
                inbox.leave(share, 1);
            }
        }
    }

    // A round. Of the connections that were over and let go the inbox is told.
    fn round_of<W: Wake>(&mut self, inbox: &Inbox<Y::Stream, W>, share: &mut Share)
        ensures clock { self.new.clock ≡ self.old.clock }
        ensures overlap { self.new.overlap ≡ self.old.overlap }
        ensures owed { share.old ≡ slab_len self.old.places.values → share.new ≡ slab_len self.new.places.values }
    {
        let left = self.round();
        inbox.leave(share, left);
    }

    /// Gives a connection a place. Says whether there was memory for it, and it could be watched.
    pub fn admit(&mut self, stream: Y::Stream) -> bool
        ensures clock { self.new.clock ≡ self.old.clock }
        ensures overlap { self.new.overlap ≡ self.old.overlap }
        ensures len { slab_len self.new.places.values ≡ slab_len self.old.places.values + (if result then 1 else 0) }
    {
        let mut stream = stream;
        let watched = self
            .readiness
            .register(&mut stream, self.places.vacant_key());
        let client = Client::new(self.alloc, TryEdge::told(stream));
        begins::<G>();
        watched && self.places.insert(client)
    }

    /// What tells it of ready streams.
    pub fn readiness(&self) -> &Y
        ensures { result.now ≡ self.now.readiness }
    {
        &self.readiness
    }

    /// Its gateway, as it is.
    pub fn gateway(&self) -> &G
        ensures { result.now ≡ self.now.gateway }
    {
        &self.gateway
    }

    /// How many connections it has.
    pub fn len(&self) -> usize
        ensures { result ≡ slab_len self.now.places.values }
    {
        self.places.len()
    }

    /// Whether a connection is to be served at once.
    pub fn has_queued(&self) -> bool
        ensures { result ≡ not (length self.now.places.queue == 0) }
    {
        self.places.has_queued()
    }

    /// Waits until a connection is ready, unless there are some to serve, and gives each that is ready one turn, and then
    /// one of those that have more to do. It says how many connections were over and let go.
    pub fn round(&mut self) -> usize
        ensures clock { self.new.clock ≡ self.old.clock }
        ensures overlap { self.new.overlap ≡ self.old.overlap }
        ensures left { slab_len self.old.places.values ≡ slab_len self.new.places.values + result }
    {
        let ready = self.await_ready(None);
        self.serve(ready)
    }

    /// Waits until a connection is ready, something ends the wait, or so much time went by, and not at all where there are
    /// some to serve. Those that are ready come before those that have more to do: it says how many they are.
    pub fn await_ready(&mut self, limit: Option<Duration>) -> usize
        ensures clock { self.new.clock ≡ self.old.clock }
        ensures overlap { self.new.overlap ≡ self.old.overlap }
        ensures gateway { self.new.gateway ≡ self.old.gateway }
        ensures values { self.new.places.values ≡ self.old.places.values }
        ensures at_once { self.old.places.queue ≢ [] → Y.waited self.new.readiness ≡ Some 0 }
        ensures limit { self.old.places.queue ≡ [] → Y.waited self.new.readiness ≡ option_map as_nanos limit }
        ensures stay { StayQueued self.old.places.queue self.new.places.queue }
    {
        if self.places.has_queued() {
            self.readiness.wait(Some(Duration::from_secs(0)));
        } else {
            self.readiness.wait(limit);
        }
        self.tell_ready();
        queue_all(&mut self.places, self.readiness.ready())
    }

    // Tells the connections whose streams are ready, so that these are read again.
    fn tell_ready(&self) {
        'notices: for notice in self.readiness.ready() {
            if let Some(client) = self.places.get(notice.key) {
                client.woken(notice.ends);
            }
        }
    }

    /// Gives so many of the connections that are to be served one turn, and one more. It says how many were over and let go.
    pub fn serve(&mut self, ready: usize) -> usize
        ensures clock { self.new.clock ≡ self.old.clock }
        ensures overlap { self.new.overlap ≡ self.old.overlap }
        ensures left { slab_len self.old.places.values ≡ slab_len self.new.places.values + result }
    {
        let before = self.places.len();
        'queue: for _ in 0..=ready {
            if self.places.is_empty() {
                break 'queue;
            }
            drop(self.serve_first());
        }
        before - self.places.len()
    }

    /// A connection is to be served once more: its call ended, or a caller is free.
    pub fn wake(&mut self, key: usize)
        ensures clock { self.new.clock ≡ self.old.clock }
        ensures overlap { self.new.overlap ≡ self.old.overlap }
        ensures values { self.new.places.values ≡ self.old.places.values }
        ensures queued { HasPlace self.old.places key → is_queued self.new.places.queue key ≡ true }
        ensures stay { StayQueued self.old.places.queue self.new.places.queue }
    {
        let _ = self.places.put_first(key);
    }

    // Gives the first connection of the queue one turn. Where that was its last, it is let go.
    fn serve_first(&mut self) -> Option<Client<TryEdge<Y::Stream>, G::Call>>
        ensures clock { self.new.clock ≡ self.old.clock }
        ensures overlap { self.new.overlap ≡ self.old.overlap }
        ensures come { IfSome result (ClientComes G.rules self.old.overlap (T.moment self.old.clock.now) self.new.gateway) }
        ensures over { IfSome result ClientIsOver }
        ensures left { OnSome result (slab_len self.new.places.values + 1 ≡ slab_len self.old.places.values) }
        ensures stays { IfNone result (slab_len self.new.places.values ≡ slab_len self.old.places.values) }
    {
        let key = self.places.first()?;
        let turn = self.serve_one(key);
        settle(&mut self.places, key, turn)
    }

    // A call that begins now is that of this connection.
    fn begin_turn(&mut self, key: usize)
        ensures clock { self.new.clock ≡ self.old.clock }
        ensures overlap { self.new.overlap ≡ self.old.overlap }
        ensures places { self.new.places ≡ self.old.places }
    {
        self.gateway.turn_of(key);
    }

    // Gives a connection one turn. One whose stream broke while calls of it are under way is over only once these have ended.
    fn serve_one(&mut self, key: usize) -> Turn
        requires place { HasPlace self.old.places key }
        requires queued { is_queued self.old.places.queue key ≡ true }
        ensures clock { self.new.clock ≡ self.old.clock }
        ensures overlap { self.new.overlap ≡ self.old.overlap }
        ensures place { HasPlace self.new.places key }
        ensures queue { self.new.places.queue ≡ self.old.places.queue }
        ensures len { slab_len self.new.places.values ≡ slab_len self.old.places.values }
        ensures over { result ≡ Turn.Over → IfSome (placed_at self.new.places key) ClientIsOver }
        ensures more { IfSome (placed_at self.new.places key) (λ client. client.last ≡ Turn.More → result ≡ Turn.More) }
    {
        self.begin_turn(key);
        match self.places.get_mut(key) {
            Some(client) => {
                let turn = client.turn(
                    self.alloc,
                    self.overlap,
                    &mut self.gateway,
                    self.clock,
                    &mut self.room,
                );
                with_call(turn, client.has_calls())
            }
            None => Turn::Waits,
        }
    }
}
