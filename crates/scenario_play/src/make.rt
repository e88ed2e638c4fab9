ghost use Rattle.std.specs.Prelude.{◌≡◌, ◌≤◌, ◌⊎◌, OnErr, OnOk, IfErr};
ghost use Rattle.edge_io.specs.Moving.{Appends};
ghost use Rattle.edge_io.specs.Faults.{Rose};
ghost use Rattle.edge_io.specs.Writing.{HasWritten, HasWrittenPart};
ghost use Rattle.scenario_make.specs.Script.{script_text};
ghost use Rattle.scenario_play.specs.Played.{IsTextWritten};

use crate::play::write_text;
use crate::status::Status;
use crate::tell::tell;
use edge_io::Sink;
use scenario_make::make_script;
use std::alloc::Global;

/// Writes the script that the number makes.
pub fn make<K: Sink>(alloc: Global, number: u64, sink: &mut K) -> Status
    ensures { IsTextWritten Status.Done (script_text number) (K.held sink.old) (K.held sink.new) (K.faults sink.old)
        (K.faults sink.new) result }
{
    match write_script(alloc, number, sink) {
        Ok(()) => Status::Done,
        Err(status) => tell(alloc, sink, status),
    }
}

fn write_script<K: Sink>(alloc: Global, number: u64, sink: &mut K) -> Result<(), Status>
    ensures whole { OnOk result (Appends (K.held sink.old) (K.held sink.new) (script_text number)) }
    ensures part { HasWritten (K.held sink.old) (K.held sink.new) (script_text number) }
    ensures short { OnErr result ((K.held sink.new ≡ K.held sink.old)
        ⊎ HasWrittenPart (K.held sink.old) (K.held sink.new) (script_text number)) }
    ensures later { K.faults sink.old ≤ K.faults sink.new }
    ensures fault { IfErr result (λ status. ((status ≡ Status.WriteFault)
        × Rose (K.faults sink.old) (K.faults sink.new)) ⊎ (status ≡ Status.Want)) }
{
    let script = make_script(alloc, number)?;
    write_text(sink, &script)
}
