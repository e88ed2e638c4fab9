ghost use Rattle.std.specs.Prelude.{◌≡◌, ◌≢◌, ◌⊎◌, ◌≤◌, [], length, None, IfErr, OnErr, OnOk};
ghost use Rattle.edge_io.specs.Moving.{Appends};
ghost use Rattle.edge_io.specs.Faults.{Rose};
ghost use Rattle.edge_io.specs.Writing.{HasWritten, HasWrittenPart};
ghost use Rattle.scenario_run.specs.Lines.{lines_of};
ghost use Rattle.scenario_play.specs.Ends.{HasTreatedScript};
ghost use Rattle.scenario_play.specs.Language.{group_scripts, language_of};
ghost use Rattle.scenario_play.specs.Outside.{outside};
ghost use Rattle.scenario_play.specs.Played.{IsPlayed};
ghost use Rattle.scenario_play.specs.Player.{HasPlayed, telling};
ghost use Rattle.scenario_play.specs.Status.{HasFaultOf};

use crate::playing::Play;
use crate::read_script::{LONGEST_SCRIPT, read_script};
use crate::status::Status;
use crate::subject::{Subject, end_lines, treat_line};
use crate::tell::tell;
use edge_io::{Sink, SinkFault, Source, write_all};
use scenario_run::cut_line;
use std::alloc::Global;

/// Reads a script of one group from the source to its end, treats its lines in order, and writes their
/// transcript, and then the last line of the status.
pub fn play<S: Source, K: Sink>(alloc: Global, source: &mut S, sink: &mut K) -> Status
    ensures played { IsPlayed group_scripts (outside (S.input source.old) (S.faults source.old) (K.held sink.old) (K.faults sink.old))
        (outside (S.input source.new) (S.faults source.new) (K.held sink.new) (K.faults sink.new)) result }
    ensures named { result ≢ Status.BadWords }
    ensures read { result ≡ Status.ReadFault → Rose (S.faults source.old) (S.faults source.new) }
    ensures write { result ≡ Status.WriteFault → Rose (K.faults sink.old) (K.faults sink.new) }
{
    play_on::<Play, S, K>(alloc, source, sink)
}

/// The same of scripts of any kind.
pub fn play_on<P: Subject, S: Source, K: Sink>(
    alloc: Global,
    source: &mut S,
    sink: &mut K,
) -> Status
    requires ready { P.script.Ready 1 None }
    ensures played { IsPlayed (language_of P.script)
        (outside (S.input source.old) (S.faults source.old) (K.held sink.old) (K.faults sink.old))
        (outside (S.input source.new) (S.faults source.new) (K.held sink.new) (K.faults sink.new)) result }
    ensures named { result ≢ Status.BadWords }
    ensures read { result ≡ Status.ReadFault → Rose (S.faults source.old) (S.faults source.new) }
    ensures write { result ≡ Status.WriteFault → Rose (K.faults sink.old) (K.faults sink.new) }
{
    match play_script::<P, S, K>(alloc, source, sink) {
        Ok(()) => Status::Done,
        Err(status) => tell(alloc, sink, status),
    }
}

fn play_script<P: Subject, S: Source, K: Sink>(
    alloc: Global,
    source: &mut S,
    sink: &mut K,
) -> Result<(), Status>
    requires ready { P.script.Ready 1 None }
    ensures end { HasTreatedScript (language_of P.script)
        (outside (S.input source.old) (S.faults source.old) (K.held sink.old) (K.faults sink.old))
        (outside (S.input source.new) (S.faults source.new) (K.held sink.new) (K.faults sink.new)) result }
    ensures fault { IfErr result (λ status. HasFaultOf (S.faults source.old) (S.faults source.new) (K.faults sink.old)
        (K.faults sink.new) status) }
    ensures later { K.faults sink.old ≤ K.faults sink.new }
{
    let text = read_script(alloc, source)?;
    let mut subject: Option<P> = None;
    play_lines(alloc, &mut subject, &text, sink)
}

/// Treats the lines of a script up to its end, and writes what each line writes behind it.
pub(crate) fn play_lines<P: Subject, K: Sink>(
    alloc: Global,
    subject: &mut Option<P>,
    text: &[u8],
    sink: &mut K,
) -> Result<(), Status>
    requires short { length text.now ≤ LONGEST_SCRIPT }
    requires ready { P.script.Ready 1 subject.old }
    ensures end { HasPlayed (K.held sink.old) (K.held sink.new) (K.faults sink.old) (K.faults sink.new)
        (λ script. (telling P.script).text subject.old (lines_of script)) text.now
        ((telling P.script).verdict 1 subject.old (lines_of text.now)) result }
    ensures entries { OnOk result ((telling P.script).entries subject.new []
        ≡ (telling P.script).entries subject.old (lines_of text.now)) }
    ensures later { K.faults sink.old ≤ K.faults sink.new }
{
    let mut number: u64 = 1;
    let mut rest = text;
    'lines: while !rest.is_empty() {
        let (line, after) = cut_line(rest);
        match treat_line(subject, alloc, number, line)? {
            Some(text) => write_text(sink, &text)?,
            None => return Ok(()),
        }
        rest = after;
        number += 1;
    }
    end_lines(subject, number)
}

pub(crate) fn write_text<K: Sink>(sink: &mut K, text: &[u8]) -> Result<(), Status>
    ensures whole { OnOk result (Appends (K.held sink.old) (K.held sink.new) text.now) }
    ensures part { HasWritten (K.held sink.old) (K.held sink.new) text.now }
    ensures short { OnErr result (HasWrittenPart (K.held sink.old) (K.held sink.new) text.now) }
    ensures later { K.faults sink.old ≤ K.faults sink.new }
    ensures fault { IfErr result (λ status. ((status ≡ Status.WriteFault)
        × Rose (K.faults sink.old) (K.faults sink.new)) ⊎ (status ≡ Status.Want)) }
{
    match write_all(sink, text) {
        Ok(()) => Ok(()),
        Err(SinkFault::Failed) => Err(Status::WriteFault),
        Err(SinkFault::Want) => Err(Status::Want),
    }
}
