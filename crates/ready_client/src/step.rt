ghost use Rattle.std.specs.Prelude.{◌≡◌, ◌≢◌, ◌+◌, ◌≤◌, ◌^◌, ◌++◌, ℕ, List, Option, [], None, false, length};
ghost use Rattle.edge_io.specs.Moving.{Input, Takes};
ghost use Rattle.front_end.specs.Answers.{stand};
ghost use Rattle.front_end.specs.Going.{ConnectionGoesOn};
ghost use Rattle.front_end.specs.declared.overlap.Overlap.{Overlap};
ghost use Rattle.ready_client.specs.Asking.{connection_at, AsksFrom, Closes, HasReadSo};
ghost use Rattle.ready_client.specs.Calling.{KeepsApart, LendsApart};
ghost use Rattle.ready_client.specs.Coming.{by_close, end_by, ways_of, ComesAtGateway, HasComeTo, IsUnderWay};

use crate::answer::answer;
use crate::calls::Calls;
use crate::ending::take_begun;
use crate::turning::Turning;
use edge_io::{Clock, Failed};
use front_end::{Connection, ConnectionFault, End, Gateway};
use outbox::{Outbox, Reading, TryStream};

/// The most bytes that one step reads: a value of 4 KiB with its line, and no more requests than hold up another
/// connection shortly.
const PIECE: usize = 4_608;

/// The most bytes that may wait to be sent while calls are begun and pieces read: where more wait the ends of those that are
/// under way are taken, and nothing else, so that no client holds callers by reading slowly, or by going away.
pub(crate) const MOST_UNSENT: usize = 262_144;

/// What one step of a connection came to.
#[derive(Clone, Copy, Debug, PartialEq, Eq)]
pub enum Step {
    /// A request was answered, or a piece was read.
    Goes,
    /// The end of the first call hasn't come yet and no further one may be begun, or no caller is free for the call that is
    /// due, or where no request waits there is nothing to read yet, or much waits to be sent.
    Waits,
    /// The connection ends so.
    Ends(End),
}

/// One step of a connection: the end of its first call is taken, or a further one is begun, or the next request that waits is
/// answered into its outbox as far as that goes without waiting, or else a piece is read. Where much waits to be sent the end of
/// its first call is taken, and else nothing.
pub(crate) fn advance<G: Gateway, S: TryStream, T: Clock>(
    turning: &Turning<'_, T>,
    gateway: &mut G,
    stream: &mut S,
    connection: &mut Connection,
    calls: &mut Calls<G::Call>,
    outbox: &mut Outbox,
    room: &mut [u8],
) -> Result<Step, ConnectionFault>
    requires room { length room.old ≡ 65536 }
    requires within { connection.old.count ≤ 2 ^ 62 }
    requires wanted { calls.old.unwanted ≡ 0 }
    ensures comes { (input : Input) (first : G) (before : List ℕ)
        → ComesAtGateway G.rules turning.now.overlap (T.moment turning.now.clock.now) input (S.input stream.old) first
        before gateway.old (S.held stream.old ++ outbox.old) connection.old calls.old.list 0 None
        → ComesAtGateway G.rules turning.now.overlap (T.moment turning.now.clock.now) input (S.input stream.new) first
        before gateway.new (S.held stream.new ++ outbox.new) connection.new calls.new.list calls.new.unwanted
        (end_by result) }
    ensures asks { AsksFrom G.rules (T.moment turning.now.clock.now) (S.held stream.old) turning.now.overlap
        (S.input stream.old)
        (connection_at gateway.old connection.old calls.old.list 0 None (S.held stream.old ++ outbox.old))
        (connection_at gateway.new connection.new calls.new.list calls.new.unwanted (end_by result) (S.held stream.new ++ outbox.new)) }
    ensures apart { KeepsApart G.rules calls.old.list calls.new.list gateway.old gateway.new }
    ensures lends { LendsApart G.rules calls.old.list calls.new.list gateway.old gateway.new }
    ensures onward { G.rules.later gateway.old gateway.new }
    ensures within { connection.new.count ≤ 2 ^ 62 }
    ensures held { S.held stream.new ≡ S.held stream.old }
    ensures later { S.faults stream.old ≤ S.faults stream.new }
    ensures room { length room.new ≡ 65536 }
{
    if outbox.len() > MOST_UNSENT {
        return take_begun(turning.alloc, gateway, connection, calls, outbox);
    }
    if connection.has_waiting() {
        answer(turning, gateway, connection, calls, outbox)
    } else {
        read::<G, S>(stream, connection, outbox, room)
    }
}

/// Reads the next piece, as far as it is there.
fn read<G: Gateway, S: TryStream>(
    stream: &mut S,
    connection: &mut Connection,
    outbox: &mut Outbox,
    room: &mut [u8],
) -> Result<Step, ConnectionFault>
    requires idle { connection.old.waiting ≡ [] }
    requires within { connection.old.count ≤ 2 ^ 62 }
    requires room { length room.old ≡ 65536 }
    ensures comes { (overlap : Overlap) (told : Option ℕ) (input : Input) (first : G) (ends : List ℕ → G) (before : List ℕ)
        → ConnectionGoesOn (ways_of G.rules overlap) told input (S.input stream.old) (stand (λ _. first) before)
        (stand ends (S.held stream.old ++ outbox.old)) connection.old.kept connection.old.count
        → HasComeTo (ways_of G.rules overlap) told input (S.input stream.new) (stand (λ _. first) before)
        (stand ends (S.held stream.new ++ outbox.new)) connection.new (end_by result) }
    ensures closes { HasReadSo connection.old.kept false
        → Closes connection.new.waiting (S.held stream.old ++ outbox.old) (S.held stream.new ++ outbox.new) }
    ensures within { connection.new.count ≤ 2 ^ 62 }
    ensures held { S.held stream.new ≡ S.held stream.old }
    ensures later { S.faults stream.old ≤ S.faults stream.new }
    ensures room { length room.new ≡ 65536 }
{
    let most = connection.most();
    if most == 0 {
        return Ok(Step::Ends(End::Worn));
    }
    let into = &mut room[..most.min(PIECE)];
    match stream.try_read(into) {
        Ok(Reading::Came(n)) => take::<G>(connection, outbox, &into[..n]),
        Ok(Reading::Ended) => Ok(Step::Ends(connection.end())),
        Ok(Reading::Waits) => Ok(Step::Waits),
        Err(Failed) => Err(ConnectionFault::ReadFault),
    }
}

/// Takes a piece that was read.
fn take<G: Gateway>(
    connection: &mut Connection,
    outbox: &mut Outbox,
    piece: &[u8],
) -> Result<Step, ConnectionFault>
    requires idle { connection.old.waiting ≡ [] }
    requires room { connection.old.count + length piece.now ≤ 2 ^ 62 }
    requires short { length piece.now ≤ 65536 }
    ensures comes { (overlap : Overlap) (told : Option ℕ) (input input_then input_now : Input) (first : G) (ends : List ℕ → G) (before sent : List ℕ)
        → ConnectionGoesOn (ways_of G.rules overlap) told input input_then (stand (λ _. first) before)
        (stand ends (sent ++ outbox.old)) connection.old.kept connection.old.count
        → Takes input_then input_now piece.now
        → HasComeTo (ways_of G.rules overlap) told input input_now (stand (λ _. first) before)
        (stand ends (sent ++ outbox.new)) connection.new (end_by result) }
    ensures closes { HasReadSo connection.old.kept false → Closes connection.new.waiting outbox.old outbox.new }
    ensures within { connection.new.count ≤ 2 ^ 62 }
{
    match connection.take(piece) {
        Ok(()) => go_on::<G>(connection, outbox),
        Err(_) => Err(ConnectionFault::Want),
    }
}

/// Closes a connection that has nothing to answer any more, if what was read ends it.
pub(crate) fn go_on<G: Gateway>(
    connection: &Connection,
    outbox: &mut Outbox,
) -> Result<Step, ConnectionFault>
    ensures comes { (overlap : Overlap) (told : Option ℕ) (input input_now : Input) (first : G) (ends : List ℕ → G) (before sent : List ℕ)
        → IsUnderWay (ways_of G.rules overlap) told input input_now (stand (λ _. first) before)
        (stand ends (sent ++ outbox.old)) connection.now
        → HasComeTo (ways_of G.rules overlap) told input input_now (stand (λ _. first) before)
        (stand ends (sent ++ outbox.new)) connection.now (end_by result) }
    ensures closes { HasReadSo connection.now.kept connection.now.quits → Closes connection.now.waiting outbox.old outbox.new }
{
    if connection.has_waiting() {
        return Ok(Step::Goes);
    }
    step_of(connection.close(outbox))
}

fn step_of(closed: Result<Option<End>, ConnectionFault>) -> Result<Step, ConnectionFault>
    ensures { end_by result ≡ by_close closed }
{
    match closed {
        Ok(Some(end)) => Ok(Step::Ends(end)),
        Ok(None) => Ok(Step::Goes),
        Err(fault) => Err(fault),
    }
}
