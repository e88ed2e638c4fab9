ghost use Rattle.std.specs.Prelude.{OnErr, OnOk};
ghost use Rattle.edge_io.specs.Faults.{HasCauseOf};
ghost use Rattle.edge_io.specs.Moving.{Appends};
ghost use Rattle.edge_io.specs.Writing.{HasWritten, HasWrittenPart};

use crate::fault::SinkFault;
use crate::sink::Sink;

/// Writes a whole text, in as many pieces as the sink takes it.
pub fn write_all<K: Sink>(sink: &mut K, text: &[u8]) -> Result<(), SinkFault>
    ensures whole { OnOk result (Appends (K.held sink.old) (K.held sink.new) text.now) }
    ensures short { OnErr result (HasWrittenPart (K.held sink.old) (K.held sink.new) text.now) }
    ensures part { HasWritten (K.held sink.old) (K.held sink.new) text.now }
    ensures cause { HasCauseOf (K.faults sink.old) (K.faults sink.new) result SinkFault.Failed }
{
    let mut done = 0;
    'pieces: while done < text.len() {
        done += sink.write(&text[done..])?;
    }
    Ok(())
}
