ghost use Rattle.std.specs.Prelude.{◌≡◌, ◌≢◌, ◌++◌, ◌∷◌, ◌≤◌, ℕ, List, Option, [], None, length};
ghost use Rattle.edge_io.specs.Moving.{Input};
ghost use Rattle.front_end.specs.Settling.{CallIsDue};
ghost use Rattle.front_end.specs.declared.overlap.Overlap.{Overlap};
ghost use Rattle.ready_client.specs.Asking.{connection_at, most_unsent, AsksFrom};
ghost use Rattle.ready_client.specs.Calling.{StandOnce, HasEndOf, KeepsApart, KeepsCalls, LendsApart};
ghost use Rattle.ready_client.specs.Coming.{ComesAtGateway, end_by};
ghost use Rattle.ready_client.specs.declared.open_call.OpenCall.{OpenCall};

use crate::ahead::go_ahead;
use crate::answer::awaits_end;
use crate::calls::Calls;
use crate::step::{Step, go_on};
use crate::turning::Turning;
use edge_io::Clock;
use front_end::{Connection, ConnectionFault, Gateway};
use memc_proto::CallEnd;
use outbox::Outbox;
use std::alloc::Global;

/// Takes the end of the first call, if it has come, and writes its text. Else a further call is begun, if one may be.
pub(crate) fn finish<G: Gateway, T: Clock>(
    turning: &Turning<'_, T>,
    gateway: &mut G,
    connection: &mut Connection,
    calls: &mut Calls<G::Call>,
    outbox: &mut Outbox,
) -> Result<Step, ConnectionFault>
    requires due { CallIsDue connection.old.waiting }
    requires some { calls.old.list ≢ [] }
    requires wanted { calls.old.unwanted ≡ 0 }
    requires short { length outbox.old ≤ most_unsent }
    ensures comes { (input input_now : Input) (first : G) (before sent : List ℕ)
        → ComesAtGateway G.rules turning.now.overlap (T.moment turning.now.clock.now) input input_now first before
        gateway.old (sent ++ outbox.old) connection.old calls.old.list 0 None
        → ComesAtGateway G.rules turning.now.overlap (T.moment turning.now.clock.now) input input_now first before
        gateway.new (sent ++ outbox.new) connection.new calls.new.list calls.new.unwanted (end_by result) }
    ensures asks { (input : Input) (sent : List ℕ)
        → AsksFrom G.rules (T.moment turning.now.clock.now) sent turning.now.overlap input
        (connection_at gateway.old connection.old calls.old.list 0 None (sent ++ outbox.old))
        (connection_at gateway.new connection.new calls.new.list calls.new.unwanted (end_by result) (sent ++ outbox.new)) }
    ensures apart { KeepsApart G.rules calls.old.list calls.new.list gateway.old gateway.new }
    ensures lends { LendsApart G.rules calls.old.list calls.new.list gateway.old gateway.new }
    ensures onward { G.rules.later gateway.old gateway.new }
    ensures count { connection.new.count ≡ connection.old.count }
{
    match calls.list.take_end(gateway) {
        Some(end) => settle::<G>(turning.alloc, connection, calls, outbox, end),
        None => go_ahead(
            turning.overlap,
            gateway,
            turning.clock,
            connection,
            &mut calls.list,
        ),
    }
}

/// Takes the end of the first call, if it has come, and writes its text. Nothing is begun.
pub(crate) fn take_begun<G: Gateway>(
    alloc: Global,
    gateway: &mut G,
    connection: &mut Connection,
    calls: &mut Calls<G::Call>,
    outbox: &mut Outbox,
) -> Result<Step, ConnectionFault>
    requires wanted { calls.old.unwanted ≡ 0 }
    ensures comes { (overlap : Overlap) (told : Option ℕ) (input input_now : Input) (first : G) (before sent : List ℕ)
        → ComesAtGateway G.rules overlap told input input_now first before
        gateway.old (sent ++ outbox.old) connection.old calls.old.list 0 None
        → ComesAtGateway G.rules overlap told input input_now first before
        gateway.new (sent ++ outbox.new) connection.new calls.new.list calls.new.unwanted (end_by result) }
    ensures asks { (overlap : Overlap) (told : Option ℕ) (input : Input) (sent : List ℕ) → AsksFrom G.rules told sent overlap input
        (connection_at gateway.old connection.old calls.old.list 0 None (sent ++ outbox.old))
        (connection_at gateway.new connection.new calls.new.list calls.new.unwanted (end_by result) (sent ++ outbox.new)) }
    ensures apart { KeepsApart G.rules calls.old.list calls.new.list gateway.old gateway.new }
    ensures lends { LendsApart G.rules calls.old.list calls.new.list gateway.old gateway.new }
    ensures onward { G.rules.later gateway.old gateway.new }
    ensures count { connection.new.count ≡ connection.old.count }
{
    if !connection.has_waiting() || !awaits_end(connection, &calls.list) {
        return Ok(Step::Waits);
    }
    match calls.list.take_end(gateway) {
        Some(end) => settle::<G>(alloc, connection, calls, outbox, end),
        None => Ok(Step::Waits),
    }
}

/// Writes the text of the first call, which ended so. Those behind it that aren't needed any more are wanted no more.
fn settle<G: Gateway>(
    alloc: Global,
    connection: &mut Connection,
    calls: &mut Calls<G::Call>,
    outbox: &mut Outbox,
    end: CallEnd,
) -> Result<Step, ConnectionFault>
    requires due { CallIsDue connection.old.waiting }
    ensures comes { (overlap : Overlap) (told : Option ℕ) (input input_now : Input) (first earlier now : G) (before sent : List ℕ)
        (call : OpenCall G.Call) → HasEndOf G.rules earlier call end now → KeepsCalls G.rules calls.old.list earlier now → G.rules.later earlier now
        → ComesAtGateway G.rules overlap told input input_now first before earlier (sent ++ outbox.old) connection.old (call ∷ calls.old.list) 0 None
        → ComesAtGateway G.rules overlap told input input_now first before now (sent ++ outbox.new) connection.new calls.new.list
        calls.new.unwanted (end_by result) }
    ensures asks { (overlap : Overlap) (told : Option ℕ) (input : Input) (earlier now : G) (sent : List ℕ) (call : OpenCall G.Call)
        → HasEndOf G.rules earlier call end now
        → AsksFrom G.rules told sent overlap input (connection_at earlier connection.old (call ∷ calls.old.list) 0 None (sent ++ outbox.old))
        (connection_at now connection.new calls.new.list calls.new.unwanted (end_by result) (sent ++ outbox.new)) }
    ensures list { calls.new.list ≡ calls.old.list }
    ensures count { connection.new.count ≡ connection.old.count }
{
    calls.leave(connection.unneeded(&end));
    match connection.settle(alloc, end, outbox) {
        Ok(()) => go_on::<G>(connection, outbox),
        Err(fault) => Err(fault),
    }
}
