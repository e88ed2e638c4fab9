ghost use Rattle.std.specs.Prelude.{◌≡◌, Ok, None, Some, IfOk, IfSome, OnErr};
ghost use Rattle.front_end.specs.Gateway.{IsNotOpen, KeepsOpen, KeepsOtherCalls, LendsNone, LendsOnly};
ghost use Rattle.memc_table.specs.Asked.{Asked};
ghost use Rattle.ready_client.specs.Calling.{IsBegunAs, LendsBegun};

use front_end::Gateway;
use memc_proto::CallEnd;
use memc_table::Op;
use std::alloc::AllocError;

/// A call that was begun.
#[derive(Drop)]
pub enum OpenCall<K> {
    /// Its end wasn't taken.
    Open(K),
    /// It ended so.
    Ended(CallEnd),
}

/// Begins a call, and takes its end at once if it has come. None: no caller is free.
pub(crate) fn begin_at<G: Gateway>(
    gateway: &mut G,
    op: Op,
) -> Result<Option<OpenCall<G::Call>>, AllocError>
    ensures begun { IfOk result (λ begun. IfSome begun (λ call. IsBegunAs G.rules gateway.old op call gateway.new)) }
    ensures full { result ≡ Ok None → gateway.new ≡ gateway.old }
    ensures want { OnErr result (G.rules.ways.kept gateway.old op gateway.new) }
    ensures open { KeepsOpen G.rules gateway.old gateway.new }
    ensures lends { IfOk result (λ begun. LendsBegun G.rules begun gateway.old gateway.new) }
    ensures lends_none { OnErr result (LendsNone G.rules gateway.old gateway.new) }
    ensures onward { G.rules.later gateway.old gateway.new }
{
    let Some(call) = gateway.begin(op)? else {
        return Ok(None);
    };
    Ok(Some(end_at_once(gateway, call)))
}

/// A call that was begun, with its end if it has come.
fn end_at_once<G: Gateway>(gateway: &mut G, call: G::Call) -> OpenCall<G::Call>
    ensures begun { (op : Asked) (before : G) → IsNotOpen G.rules before call → G.rules.opened gateway.old call op before
        → IsBegunAs G.rules before op result gateway.new }
    ensures others { KeepsOtherCalls G.rules call gateway.old gateway.new }
    ensures lends { (before : G) → LendsOnly G.rules (Some call) before gateway.old
        → LendsBegun G.rules (Some result) before gateway.new }
    ensures onward { G.rules.later gateway.old gateway.new }
{
    match gateway.take_end(&call) {
        Some(end) => OpenCall::Ended(end),
        None => OpenCall::Open(call),
    }
}
