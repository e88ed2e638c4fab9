ghost use Rattle.std.specs.Prelude.{◌≡◌, ◌≢◌, ◌++◌, ◌≤◌, ℕ, List, Option, [], None, length, true, false};
ghost use Rattle.edge_io.specs.Moving.{Input};
ghost use Rattle.front_end.specs.Settling.{CallIsDue, IsDue, OrderIsDue, TextIsDue};
ghost use Rattle.front_end.specs.declared.overlap.Overlap.{Overlap};
ghost use Rattle.front_end.specs.Gateway.{KeepsOpen, LendsNone};
ghost use Rattle.ready_client.specs.declared.open_call.OpenCall.{OpenCall};
ghost use Rattle.front_end.specs.declared.due.Due.TheVariants as due;
ghost use Rattle.ready_client.specs.Asking.{connection_at, most_unsent, AsksFrom};
ghost use Rattle.ready_client.specs.Calling.{KeepsApart, LendsApart};
ghost use Rattle.ready_client.specs.Coming.{ComesAtGateway, end_by};

use crate::call_list::CallList;
use crate::calls::Calls;
use crate::ending::finish;
use crate::step::{Step, go_on};
use crate::turning::Turning;
use edge_io::Clock;
use front_end::{Connection, ConnectionFault, Due, Gateway, Need};
use group_types::ProcessId;
use memc_table::Op;
use outbox::Outbox;
use std::alloc::Global;

/// Answers the first request that waits, or its first key, as far as that goes without waiting.
pub(crate) fn answer<G: Gateway, T: Clock>(
    turning: &Turning<'_, T>,
    gateway: &mut G,
    connection: &mut Connection,
    calls: &mut Calls<G::Call>,
    outbox: &mut Outbox,
) -> Result<Step, ConnectionFault>
    requires some { connection.old.waiting ≢ [] }
    requires wanted { calls.old.unwanted ≡ 0 }
    requires short { length outbox.old ≤ most_unsent }
    ensures comes { (input input_now : Input) (first : G) (before sent : List ℕ)
        → ComesAtGateway G.rules turning.now.overlap (T.moment turning.now.clock.now) input input_now first before
        gateway.old (sent ++ outbox.old) connection.old calls.old.list 0 None
        → ComesAtGateway G.rules turning.now.overlap (T.moment turning.now.clock.now) input input_now first before
        gateway.new (sent ++ outbox.new) connection.new calls.new.list calls.new.unwanted (end_by result) }
    ensures asks { (input : Input) (sent : List ℕ)
        → AsksFrom G.rules (T.moment turning.now.clock.now) sent turning.now.overlap input
        (connection_at gateway.old connection.old calls.old.list 0 None (sent ++ outbox.old))
        (connection_at gateway.new connection.new calls.new.list calls.new.unwanted (end_by result) (sent ++ outbox.new)) }
    ensures apart { KeepsApart G.rules calls.old.list calls.new.list gateway.old gateway.new }
    ensures lends { LendsApart G.rules calls.old.list calls.new.list gateway.old gateway.new }
    ensures onward { G.rules.later gateway.old gateway.new }
    ensures count { connection.new.count ≡ connection.old.count }
{
    if awaits_end(connection, &calls.list) {
        return finish(turning, gateway, connection, calls, outbox);
    }
    match connection.due(turning.clock) {
        Ok(Due::Call(op)) => begin(turning, gateway, connection, calls, outbox, op),
        Ok(Due::Fail { at, keep }) => order(turning.alloc, gateway, connection, outbox, at, keep),
        Ok(Due::Text) => tell::<G>(turning.alloc, connection, outbox),
        Err(_) => Err(ConnectionFault::Want),
    }
}

/// Whether the first request that waits needs the end of a call that is under way.
pub(crate) fn awaits_end<K: Drop>(connection: &Connection, calls: &CallList<K>) -> bool
    requires some { connection.now.waiting ≢ [] }
    ensures due { result ≡ true → (calls.now ≢ []) × CallIsDue connection.now.waiting }
    ensures none { result ≡ false → CallIsDue connection.now.waiting → calls.now ≡ [] }
{
    if calls.is_empty() {
        return false;
    }
    match connection.need() {
        Need::Call => true,
        Need::Order => false,
        Need::Text => false,
    }
}

/// Begins the call that is due, and takes its end at once if it has come.
fn begin<G: Gateway, T: Clock>(
    turning: &Turning<'_, T>,
    gateway: &mut G,
    connection: &mut Connection,
    calls: &mut Calls<G::Call>,
    outbox: &mut Outbox,
    op: Op,
) -> Result<Step, ConnectionFault>
    requires due { IsDue (T.moment turning.now.clock.now) connection.old.waiting (due.Call op) }
    requires none { calls.old.list ≡ [] }
    requires wanted { calls.old.unwanted ≡ 0 }
    requires short { length outbox.old ≤ most_unsent }
    ensures comes { (input input_now : Input) (first : G) (before sent : List ℕ)
        → ComesAtGateway G.rules turning.now.overlap (T.moment turning.now.clock.now) input input_now first before
        gateway.old (sent ++ outbox.old) connection.old calls.old.list 0 None
        → ComesAtGateway G.rules turning.now.overlap (T.moment turning.now.clock.now) input input_now first before
        gateway.new (sent ++ outbox.new) connection.new calls.new.list calls.new.unwanted (end_by result) }
    ensures asks { (input : Input) (sent : List ℕ)
        → AsksFrom G.rules (T.moment turning.now.clock.now) sent turning.now.overlap input
        (connection_at gateway.old connection.old calls.old.list 0 None (sent ++ outbox.old))
        (connection_at gateway.new connection.new calls.new.list calls.new.unwanted (end_by result) (sent ++ outbox.new)) }
    ensures apart { KeepsApart G.rules calls.old.list calls.new.list gateway.old gateway.new }
    ensures lends { LendsApart G.rules calls.old.list calls.new.list gateway.old gateway.new }
    ensures onward { G.rules.later gateway.old gateway.new }
    ensures count { connection.new.count ≡ connection.old.count }
{
    match gateway.begin(op) {
        Ok(Some(call)) => {
            calls.list.put_only(call);
            finish(turning, gateway, connection, calls, outbox)
        }
        Ok(None) => Ok(Step::Waits),
        Err(_) => Err(ConnectionFault::Want),
    }
}

/// Gives the order that is due, and writes the text of its end.
fn order<G: Gateway>(
    alloc: Global,
    gateway: &mut G,
    connection: &mut Connection,
    outbox: &mut Outbox,
    at: ProcessId,
    keep: u32,
) -> Result<Step, ConnectionFault>
    requires due { OrderIsDue connection.old.waiting }
    requires short { length outbox.old ≤ most_unsent }
    ensures comes { (overlap : Overlap) (told : Option ℕ) (input input_now : Input) (first : G) (before sent : List ℕ)
        (calls : List (OpenCall G.Call)) → IsDue told connection.old.waiting (due.Fail at keep)
        → ComesAtGateway G.rules overlap told input input_now first before
        gateway.old (sent ++ outbox.old) connection.old calls 0 None
        → ComesAtGateway G.rules overlap told input input_now first before
        gateway.new (sent ++ outbox.new) connection.new calls 0 (end_by result) }
    ensures asks { (overlap : Overlap) (told : Option ℕ) (input : Input) (sent : List ℕ) (calls : List (OpenCall G.Call))
        → IsDue told connection.old.waiting (due.Fail at keep)
        → AsksFrom G.rules told sent overlap input (connection_at gateway.old connection.old calls 0 None (sent ++ outbox.old))
        (connection_at gateway.new connection.new calls 0 (end_by result) (sent ++ outbox.new)) }
    ensures open { KeepsOpen G.rules gateway.old gateway.new }
    ensures lends { LendsNone G.rules gateway.old gateway.new }
    ensures onward { G.rules.later gateway.old gateway.new }
    ensures count { connection.new.count ≡ connection.old.count }
{
    match gateway.fail(at, keep) {
        Ok(end) => match connection.settle_fail(alloc, end, outbox) {
            Ok(()) => go_on::<G>(connection, outbox),
            Err(fault) => Err(fault),
        },
        Err(_) => Err(ConnectionFault::Want),
    }
}

/// Writes the text of the first request that waits, which needs no call.
fn tell<G: Gateway>(
    alloc: Global,
    connection: &mut Connection,
    outbox: &mut Outbox,
) -> Result<Step, ConnectionFault>
    requires due { TextIsDue connection.old.waiting }
    requires short { length outbox.old ≤ most_unsent }
    ensures comes { (overlap : Overlap) (told : Option ℕ) (input input_now : Input) (first now : G) (before sent : List ℕ)
        (calls : List (OpenCall G.Call)) → IsDue told connection.old.waiting due.Text
        → ComesAtGateway G.rules overlap told input input_now first before now (sent ++ outbox.old) connection.old calls 0 None
        → ComesAtGateway G.rules overlap told input input_now first before now (sent ++ outbox.new) connection.new calls 0 (end_by result) }
    ensures asks { (overlap : Overlap) (told : Option ℕ) (input : Input) (now : G) (sent : List ℕ) (calls : List (OpenCall G.Call))
        → IsDue told connection.old.waiting due.Text
        → AsksFrom G.rules told sent overlap input (connection_at now connection.old calls 0 None (sent ++ outbox.old))
        (connection_at now connection.new calls 0 (end_by result) (sent ++ outbox.new)) }
    ensures count { connection.new.count ≡ connection.old.count }
{
    match connection.settle_text(alloc, outbox) {
        Ok(()) => go_on::<G>(connection, outbox),
        Err(fault) => Err(fault),
    }
}
