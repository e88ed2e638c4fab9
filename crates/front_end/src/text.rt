ghost use Rattle.std.specs.Prelude.{◌≡◌, OnOk};
ghost use Rattle.edge_io.specs.Moving.{Appends};
ghost use Rattle.edge_io.specs.Writing.{HasWritten};
ghost use Rattle.memc_proto.specs.Text.{end_text};
ghost use Rattle.front_end.specs.Faults.{HasSinkCause};
ghost use Rattle.front_end.specs.Turns.{is_reply, last_text};

use crate::end::ConnectionFault;
use edge_io::{Sink, write_all};
use group_types::Key;
use memc_proto::{CallEnd, end_of_items, plain_text, write_reply};
use std::alloc::Global;

/// Writes the text of the end of the call on the last key of a get, and then `END` where it is a reply.
pub(crate) fn write_last<K: Sink>(
    alloc: Global,
    sink: &mut K,
    key: &Key,
    with_cas: bool,
    end: &CallEnd,
) -> Result<(), ConnectionFault>
    ensures whole { OnOk result (Appends (K.held sink.old) (K.held sink.new) (last_text key.now with_cas end.now)) }
    ensures part { HasWritten (K.held sink.old) (K.held sink.new) (last_text key.now with_cas end.now) }
    ensures cause { HasSinkCause (K.faults sink.old) (K.faults sink.new) result }
{
    write_end(alloc, sink, key, with_cas, end)?;
    if is_reply(end) {
        write_text(sink, end_of_items())
    } else {
        Ok(())
    }
}

/// Whether a call ended by a reply.
pub(crate) fn is_reply(end: &CallEnd) -> bool
    ensures { result ≡ is_reply end.now }
{
    matches!(end, CallEnd::Reply(_))
}

/// Writes the text of the end of a call.
pub(crate) fn write_end<K: Sink>(
    alloc: Global,
    sink: &mut K,
    key: &Key,
    with_cas: bool,
    end: &CallEnd,
) -> Result<(), ConnectionFault>
    ensures whole { OnOk result (Appends (K.held sink.old) (K.held sink.new) (end_text key.now with_cas end.now)) }
    ensures part { HasWritten (K.held sink.old) (K.held sink.new) (end_text key.now with_cas end.now) }
    ensures cause { HasSinkCause (K.faults sink.old) (K.faults sink.new) result }
{
    if let Some(text) = plain_text(end) {
        return write_text(sink, text);
    }
    let text = write_reply(alloc, key, with_cas, end)?;
    write_text(sink, text.bytes())
}

/// Writes a whole text.
pub(crate) fn write_text<K: Sink>(sink: &mut K, text: &[u8]) -> Result<(), ConnectionFault>
    ensures whole { OnOk result (Appends (K.held sink.old) (K.held sink.new) text.now) }
    ensures part { HasWritten (K.held sink.old) (K.held sink.new) text.now }
    ensures cause { HasSinkCause (K.faults sink.old) (K.faults sink.new) result }
{
    Ok(write_all(sink, text)?)
}
