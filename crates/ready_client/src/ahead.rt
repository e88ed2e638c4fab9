ghost use Rattle.std.specs.Prelude.{◌≡◌, ◌≢◌, ◌≤◌, ◌+◌, ℕ, List, Option, [], None, length};
ghost use Rattle.edge_io.specs.Moving.{Input};
ghost use Rattle.front_end.specs.Ahead.{IsDueAhead};
ghost use Rattle.front_end.specs.Progress.{Progress};
ghost use Rattle.front_end.specs.declared.overlap.Overlap.TheVariants.{OtherKeys};
ghost use Rattle.ready_client.specs.Asking.{connection_at, most_unsent, Asks};
ghost use Rattle.ready_client.specs.Calling.{KeepsApart, LendsApart};
ghost use Rattle.ready_client.specs.Coming.{ComesAtGateway, end_by};

use crate::call_list::CallList;
use crate::step::Step;
use edge_io::Clock;
use front_end::{Connection, ConnectionFault, Gateway, Overlap};
use memc_table::Op;

/// The most calls of a connection that are under way together.
const MOST_CALLS: usize = 16;

/// Begins a further call of the requests that wait, if one may be under way beside those that are.
pub(crate) fn go_ahead<G: Gateway, T: Clock>(
    overlap: Overlap,
    gateway: &mut G,
    clock: &T,
    connection: &Connection,
    calls: &mut CallList<G::Call>,
) -> Result<Step, ConnectionFault>
    requires waiting { connection.now.waiting ≢ [] }
    requires some { calls.old ≢ [] }
    ensures comes { (input input_now : Input) (first : G) (before held : List ℕ)
        → ComesAtGateway G.rules overlap (T.moment clock.now) input input_now first before gateway.old held connection.now calls.old 0 None
        → ComesAtGateway G.rules overlap (T.moment clock.now) input input_now first before gateway.new held connection.now calls.new 0
        (end_by result) }
    ensures asks { (sent held : List ℕ) → length held ≤ length sent + most_unsent
        → Asks G.rules (T.moment clock.now) sent (connection_at gateway.old connection.now calls.old 0 None held)
        (connection_at gateway.new connection.now calls.new 0 (end_by result) held) }
    ensures few { length calls.old ≤ 16 → length calls.new ≤ 16 }
    ensures apart { KeepsApart G.rules calls.old calls.new gateway.old gateway.new }
    ensures lends { LendsApart G.rules calls.old calls.new gateway.old gateway.new }
    ensures onward { G.rules.later gateway.old gateway.new }
{
    match overlap {
        Overlap::Never => Ok(Step::Waits),
        Overlap::OtherKeys => begin_further(gateway, clock, connection, calls),
    }
}

/// Begins a further call of the requests that wait, if it asks another key than those that are under way.
fn begin_further<G: Gateway, T: Clock>(
    gateway: &mut G,
    clock: &T,
    connection: &Connection,
    calls: &mut CallList<G::Call>,
) -> Result<Step, ConnectionFault>
    requires waiting { connection.now.waiting ≢ [] }
    requires some { calls.old ≢ [] }
    ensures comes { (input input_now : Input) (first : G) (before held : List ℕ)
        → ComesAtGateway G.rules OtherKeys (T.moment clock.now) input input_now first before gateway.old held connection.now calls.old 0 None
        → ComesAtGateway G.rules OtherKeys (T.moment clock.now) input input_now first before gateway.new held connection.now calls.new 0
        (end_by result) }
    ensures asks { (sent held : List ℕ) → length held ≤ length sent + most_unsent
        → Asks G.rules (T.moment clock.now) sent (connection_at gateway.old connection.now calls.old 0 None held)
        (connection_at gateway.new connection.now calls.new 0 (end_by result) held) }
    ensures few { length calls.old ≤ 16 → length calls.new ≤ 16 }
    ensures apart { KeepsApart G.rules calls.old calls.new gateway.old gateway.new }
    ensures lends { LendsApart G.rules calls.old calls.new gateway.old gateway.new }
    ensures onward { G.rules.later gateway.old gateway.new }
{
    let begun = calls.len();
    if begun >= MOST_CALLS {
        return Ok(Step::Waits);
    }
    match connection.ahead(begun, clock) {
        Ok(Some(op)) => begin_behind(gateway, calls, op),
        Ok(None) => Ok(Step::Waits),
        Err(_) => Err(ConnectionFault::Want),
    }
}

/// Begins this call behind the others.
fn begin_behind<G: Gateway>(
    gateway: &mut G,
    calls: &mut CallList<G::Call>,
    op: Op,
) -> Result<Step, ConnectionFault>
    requires some { calls.old ≢ [] }
    ensures comes { (told : Option ℕ) (input input_now : Input) (first : G) (before held : List ℕ) (progress : Progress)
        → IsDueAhead told progress.waiting (length calls.old) op → progress.waiting ≢ []
        → ComesAtGateway G.rules OtherKeys told input input_now first before gateway.old held progress calls.old 0 None
        → ComesAtGateway G.rules OtherKeys told input input_now first before gateway.new held progress calls.new 0 (end_by result) }
    ensures asks { (told : Option ℕ) (progress : Progress) (sent held : List ℕ) → length held ≤ length sent + most_unsent
        → IsDueAhead told progress.waiting (length calls.old) op
        → Asks G.rules told sent (connection_at gateway.old progress calls.old 0 None held)
        (connection_at gateway.new progress calls.new 0 (end_by result) held) }
    ensures more { length calls.new ≤ length calls.old + 1 }
    ensures apart { KeepsApart G.rules calls.old calls.new gateway.old gateway.new }
    ensures lends { LendsApart G.rules calls.old calls.new gateway.old gateway.new }
    ensures onward { G.rules.later gateway.old gateway.new }
{
    match calls.begin(gateway, op) {
        Ok(true) => Ok(Step::Goes),
        Ok(false) => Ok(Step::Waits),
        Err(_) => Err(ConnectionFault::Want),
    }
}
