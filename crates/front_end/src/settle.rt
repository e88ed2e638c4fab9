ghost use Rattle.std.specs.Prelude.{◌≡◌, ◌≢◌, ◌∷◌, ◌+◌, ◌<◌, ◌^◌, [], false, IfOk, OnOk, if◌then◌else◌};
ghost use Rattle.edge_io.specs.Moving.{Appends};
ghost use Rattle.edge_io.specs.Writing.{HasWritten};
ghost use Rattle.memc_table.specs.Act.{key_of};
ghost use Rattle.memc_proto.specs.Text.{end_text};
ghost use Rattle.memc_proto.specs.declared.request.Request.TheVariants as request;
ghost use Rattle.front_end.specs.Faults.{HasSinkCause};
ghost use Rattle.front_end.specs.Progress.{behind};
ghost use Rattle.front_end.specs.Settling.{CallIsDue, TextIsDue, is_last, settled_text};
ghost use Rattle.front_end.specs.Turns.{response_text};

use crate::end::ConnectionFault;
use crate::keys::keys_behind;
use crate::text::{is_reply, write_end, write_last, write_text};
use edge_io::Sink;
use group_types::Key;
use memc_proto::{CallEnd, Request, end_of_items, refusal_text, version_text};
use memc_table::Act;
use std::alloc::Global;

/// Writes the text of the end of the next call of a request of which so many keys are answered. Says whether the whole of
/// it is answered then.
pub(crate) fn settle_at<K: Sink>(
    alloc: Global,
    request: &Request,
    answered: usize,
    end: &CallEnd,
    sink: &mut K,
) -> Result<bool, ConnectionFault>
    requires due { CallIsDue (behind answered request.now ∷ []) }
    ensures last { IfOk result (λ last. last ≡ is_last end.now (behind answered request.now)) }
    ensures whole { OnOk result (Appends (K.held sink.old) (K.held sink.new)
        (settled_text end.now (behind answered request.now))) }
    ensures part { HasWritten (K.held sink.old) (K.held sink.new)
        (settled_text end.now (behind answered request.now)) }
    ensures fits { IfOk result (λ last. last ≡ false → answered + 1 < 2 ^ 64) }
    ensures cause { HasSinkCause (K.faults sink.old) (K.faults sink.new) result }
{
    match request {
        Request::Get { keys, with_cas } => {
            let left = keys_behind(keys.keys(), answered);
            settle_key(alloc, left, *with_cas, end, sink)
        }
        Request::Change { act, noreply } => {
            settle_change(alloc, act, *noreply, end, sink)?;
            Ok(true)
        }
        _ => unreachable!(),
    }
}

/// Writes the text of the end of the call on the first of these keys of a get, and `END` behind it where it is the last and
/// the end a reply. Says whether the get is answered then.
fn settle_key<K: Sink>(
    alloc: Global,
    keys: &[Key],
    with_cas: bool,
    end: &CallEnd,
    sink: &mut K,
) -> Result<bool, ConnectionFault>
    requires some { keys.now ≢ [] }
    ensures last { IfOk result (λ last. last ≡ is_last end.now (request.Get keys.now with_cas)) }
    ensures whole { OnOk result (Appends (K.held sink.old) (K.held sink.new)
        (settled_text end.now (request.Get keys.now with_cas))) }
    ensures part { HasWritten (K.held sink.old) (K.held sink.new)
        (settled_text end.now (request.Get keys.now with_cas)) }
    ensures cause { HasSinkCause (K.faults sink.old) (K.faults sink.new) result }
{
    let Some((key, others)) = keys.split_first() else {
        unreachable!()
    };
    if others.is_empty() {
        write_last(alloc, sink, key, with_cas, end)?;
        return Ok(true);
    }
    write_end(alloc, sink, key, with_cas, end)?;
    Ok(!is_reply(end))
}

/// Writes the text of the end of a call that may have changed an item.
fn settle_change<K: Sink>(
    alloc: Global,
    act: &Act,
    noreply: bool,
    end: &CallEnd,
    sink: &mut K,
) -> Result<(), ConnectionFault>
    ensures whole { OnOk result (Appends (K.held sink.old) (K.held sink.new)
        (if noreply then [] else end_text (key_of act.now) false end.now)) }
    ensures part { HasWritten (K.held sink.old) (K.held sink.new)
        (if noreply then [] else end_text (key_of act.now) false end.now) }
    ensures cause { HasSinkCause (K.faults sink.old) (K.faults sink.new) result }
{
    if noreply {
        return Ok(());
    }
    write_end(alloc, sink, act.key(), false, end)
}

/// Writes the text of a request that needs no call.
pub(crate) fn write_own<K: Sink>(
    sink: &mut K,
    request: &Request,
    answered: usize,
) -> Result<(), ConnectionFault>
    requires due { TextIsDue (behind answered request.now ∷ []) }
    ensures whole { OnOk result (Appends (K.held sink.old) (K.held sink.new) (response_text (behind answered request.now) [])) }
    ensures part { HasWritten (K.held sink.old) (K.held sink.new) (response_text (behind answered request.now) []) }
    ensures cause { HasSinkCause (K.faults sink.old) (K.faults sink.new) result }
{
    match request {
        Request::Get { .. } => write_text(sink, end_of_items()),
        Request::Version => write_text(sink, version_text()),
        Request::Quit => Ok(()),
        Request::Refused(refusal) => write_text(sink, refusal_text(*refusal)),
        _ => unreachable!(),
    }
}
