ghost use Rattle.std.specs.Prelude.{◌≡◌, ◌≤◌, ◌⊎◌, IfOk, IfErr, OnErr, OnOk};
ghost use Rattle.edge_io.specs.Moving.{Appends};
ghost use Rattle.std.specs.String.{string_bytes};
ghost use Rattle.edge_io.specs.Faults.{Rose};
ghost use Rattle.edge_io.specs.Writing.{HasWritten, HasWrittenPart};
ghost use Rattle.scenario_make.specs.Script.{script_text};
ghost use Rattle.scenario_play.specs.Played.{IsTextWritten};
ghost use Rattle.scenario_play.specs.Status.{TellsOfScript, status_for};
ghost use Rattle.scenario_play.specs.Trial.{trial_of, trial_text};

use crate::group_subject::logged;
use crate::page::Page;
use crate::play::{play_lines, write_text};
use crate::playing::Play;
use crate::read_script::LONGEST_SCRIPT;
use crate::status::Status;
use crate::tell::tell;
use edge_io::Sink;
use scenario_make::make_script;
use scenario_run::count_lines;
use std::alloc::Global;

/// Plays the script that the number makes, and writes what came of it on a line: how many lines the script has, how
/// many entries its group logged, and how many bytes its transcript has.
pub fn trial<K: Sink>(alloc: Global, number: u64, sink: &mut K) -> Status
    ensures { IsTextWritten (status_for (script_text number)) (trial_text number) (K.held sink.old) (K.held sink.new)
        (K.faults sink.old) (K.faults sink.new) result }
{
    match write_trial(alloc, number, sink) {
        Ok(()) => Status::Done,
        Err(status) => tell(alloc, sink, status),
    }
}

fn write_trial<K: Sink>(alloc: Global, number: u64, sink: &mut K) -> Result<(), Status>
    ensures whole { OnOk result (Appends (K.held sink.old) (K.held sink.new) (trial_text number)) }
    ensures part { HasWritten (K.held sink.old) (K.held sink.new) (trial_text number) }
    ensures short { OnErr result ((K.held sink.new ≡ K.held sink.old)
        ⊎ HasWrittenPart (K.held sink.old) (K.held sink.new) (trial_text number)) }
    ensures told { OnOk result (status_for (script_text number) ≡ Status.Done) }
    ensures later { K.faults sink.old ≤ K.faults sink.new }
    ensures fault { IfErr result (λ status. ((status ≡ Status.WriteFault) × Rose (K.faults sink.old) (K.faults sink.new))
        ⊎ (status ≡ Status.Want) ⊎ (TellsOfScript status × (status ≡ status_for (script_text number)))) }
{
    let script = make_script(alloc, number)?;
    let line = trial_line(alloc, number, &script)?;
    write_text(sink, line.as_bytes())
}

/// Plays a script, and says what came of it.
fn trial_line(alloc: Global, number: u64, script: &[u8]) -> Result<String, Status>
    ensures ok { IfOk result (λ line. string_bytes line ≡ trial_of number script.now) }
    ensures told { OnOk result (status_for script.now ≡ Status.Done) }
    ensures fault { IfErr result (λ status. (status ≡ Status.Want)
        ⊎ (TellsOfScript status × (status ≡ status_for script.now))) }
{
    if LONGEST_SCRIPT < script.len() {
        return Err(Status::TooLong);
    }
    let (mut subject, mut page): (Option<Play>, Page) = (None, Page::new(alloc));
    play_lines(alloc, &mut subject, script, &mut page)?;
    let (lines, logged, bytes) = (count_lines(script), logged(&subject), page.len());
    Ok(format!(in alloc; "trial {number} lines {lines} logged {logged} bytes {bytes}\n")?)
}
