ghost use Rattle.std.specs.Prelude.{◌≡◌, ◌<◌, Some, None, IfSome, IfOk};
ghost use Rattle.group_eras.specs.Eras.{MayMake, carrier};
ghost use Rattle.group_eras.specs.Promise.{IsLed};
ghost use Rattle.scenario_text.specs.Meaning.{IsLineOf};
ghost use Rattle.scenario_text.specs.Words as text;
ghost use Rattle.scenario_text.specs.declared.line.Line.TheVariants as line;
ghost use Rattle.scenario_run.specs.Playing.{draining_unless_down};
ghost use Rattle.scenario_play.specs.Player.{bytes_in_text};
ghost use Rattle.scenario_play.specs.Script.{HasBegun, HasDone};
ghost use Rattle.regroup_run.specs.Meaning.{IsLowLine, regroup_line};
ghost use Rattle.regroup_run.specs.Playing.{by_call, by_drain, by_event, first_by, next_of, regroup_by, regroups, then_by};

use crate::carrying::follow_regroup;
use crate::deliveries::{drain, make};
use crate::placing::write_placed;
use crate::playing::EraPlay;
use crate::reading::{is_regroup, read_regroup};
use crate::showing::write_look_line;
use crate::writing::write_since;
use group_calls::Event;
use group_types::{Partition, ProcessId};
use scenario_play::entries::write_count;
use scenario_play::making::answer_line;
use scenario_play::words::{is_skipped, words_of};
use scenario_text::read_line::read_line;
use scenario_text::{Line, LineFault};
use std::alloc::{AllocError, Global};

// The caller that carries: no other line may name it.
const CARRIER: u32 = 255;

/// Treats a line: the text that it writes, or none where the script ends.
pub(crate) fn treat(
    alloc: Global,
    play: &mut Option<EraPlay>,
    line: &[u8],
) -> Result<Option<Vec<u8>>, LineFault>
    requires { IfSome play.old (λ p. IsLed p.eras) }
    ensures { HasDone LineFault.Want play.old (next_of play.old line.now) play.new (bytes_in_text result) }
{
    match play {
        None => {
            *play = begin(alloc, read_line(alloc, None, line)?)?;
            Ok(Some(Vec::new(alloc)))
        }
        Some(play) => follow(alloc, play, line),
    }
}

/// The group after a line before which it was not named.
fn begin(alloc: Global, line: Line) -> Result<Option<EraPlay>, LineFault>
    requires { IsLineOf None line }
    ensures { HasBegun LineFault.Want (first_by line) result }
{
    match line {
        Line::Skipped => Ok(None),
        Line::Group { shape } => Ok(Some(EraPlay::new(alloc, shape)?)),
        _ => Err(LineFault::BadLine),
    }
}

/// Treats a line behind the group line.
fn follow(alloc: Global, play: &mut EraPlay, line: &[u8]) -> Result<Option<Vec<u8>>, LineFault>
    requires { IsLed play.old.eras }
    ensures { HasDone LineFault.Want (Some play.old) (next_of (Some play.old) line.now) (Some play.new)
        (bytes_in_text result) }
{
    if regroups(alloc, line)? {
        follow_words(alloc, play, line)
    } else {
        let line = read_line(alloc, Some(play.shape()), line)?;
        follow_line(alloc, play, line)
    }
}

/// Whether a line is `regroup`.
fn regroups(alloc: Global, line: &[u8]) -> Result<bool, AllocError>
    ensures { IfOk result (λ is. is ≡ regroups line.now) }
{
    if is_skipped(line) {
        return Ok(false);
    }
    Ok(is_regroup(&words_of(alloc, line)?))
}

/// Treats a line `regroup`.
fn follow_words(
    alloc: Global,
    play: &mut EraPlay,
    line: &[u8],
) -> Result<Option<Vec<u8>>, LineFault>
    requires { IsLed play.old.eras }
    ensures { HasDone LineFault.Want (Some play.old) (regroup_by play.old
        (regroup_line play.old.eras.world.shape.k (text.split_words line.now))) (Some play.new) (bytes_in_text result) }
{
    let shape = read_regroup(play.shape().k(), &words_of(alloc, line)?)?;
    follow_regroup(alloc, play, shape)
}

/// Treats a line as in a script of one group.
fn follow_line(alloc: Global, play: &mut EraPlay, line: Line) -> Result<Option<Vec<u8>>, LineFault>
    requires line { IsLineOf (Some play.old.eras.world.shape) line }
    requires low { IsLowLine line }
    requires led { IsLed play.old.eras }
    ensures { HasDone LineFault.Want (Some play.old) (then_by play.old line) (Some play.new) (bytes_in_text result) }
{
    match line {
        Line::Skipped => Ok(Some(Vec::new(alloc))),
        Line::Group { .. } => Err(LineFault::BadLine),
        Line::Ask { caller, at, act } => {
            let op = play.op(act);
            follow_call(alloc, play, caller, Event::Ask { caller, op, at })
        }
        Line::Collect { caller, call, at } => {
            follow_call(alloc, play, caller, Event::Collect { caller, call, at })
        }
        Line::Deliver { from, to } => follow_event(alloc, play, Event::Deliver { from, to }),
        Line::Fail { at, keep } => follow_event(alloc, play, Event::Fail { at, keep }),
        Line::Flush { at } => follow_event(alloc, play, Event::Flush { at }),
        Line::Trace {
            caller,
            call,
            partition,
            at,
        } => follow_trace(alloc, play, caller, call, partition, at),
        Line::Drain => follow_drain(alloc, play),
        Line::Show { at, run } => Ok(Some(write_look_line(alloc, &play.regroup, at, run)?)),
        Line::Places => Ok(Some(write_placed(alloc, &play.regroup)?)),
        Line::Time { moment } => {
            play.set_moment(moment);
            Ok(Some(Vec::new(alloc)))
        }
        Line::Stop => Ok(None),
    }
}

fn follow_trace(
    alloc: Global,
    play: &mut EraPlay,
    caller: u32,
    call: u64,
    partition: Partition,
    at: ProcessId,
) -> Result<Option<Vec<u8>>, LineFault>
    requires line { IsLineOf (Some play.old.eras.world.shape) (line.Trace caller call partition at) }
    requires led { IsLed play.old.eras }
    ensures { HasDone LineFault.Want (Some play.old) (then_by play.old (line.Trace caller call partition at))
        (Some play.new) (bytes_in_text result) }
{
    if play.regroup.world().asks(caller) <= call {
        return Err(LineFault::BadLine);
    }
    let event = Event::Trace {
        caller,
        call,
        partition,
        at,
    };
    follow_call(alloc, play, caller, event)
}

/// Treats a call of a caller, which is refused of the one that carries.
fn follow_call(
    alloc: Global,
    play: &mut EraPlay,
    caller: u32,
    event: Event,
) -> Result<Option<Vec<u8>>, LineFault>
    requires led { IsLed play.old.eras }
    requires may { caller < carrier → MayMake play.old.eras event }
    ensures { HasDone LineFault.Want (Some play.old) (by_call play.old caller event) (Some play.new)
        (bytes_in_text result) }
{
    if CARRIER <= caller {
        drop(event);
        return Err(LineFault::BadLine);
    }
    follow_event(alloc, play, event)
}

/// Makes an event: its answer on a line, and what it logged.
fn follow_event(
    alloc: Global,
    play: &mut EraPlay,
    event: Event,
) -> Result<Option<Vec<u8>>, LineFault>
    requires led { IsLed play.old.eras }
    requires may { MayMake play.old.eras event }
    ensures { HasDone LineFault.Want (Some play.old) (by_event play.old event) (Some play.new) (bytes_in_text result) }
{
    let from = play.regroup.world().log().len();
    let out = make(&mut play.regroup, event)?;
    let mut text = answer_line(alloc, out)?;
    write_since(alloc, &play.regroup, play.regroup.era(), from, &mut text)?;
    Ok(Some(text))
}

/// Delivers messages until none is left: what that logged, and how many there were.
fn follow_drain(alloc: Global, play: &mut EraPlay) -> Result<Option<Vec<u8>>, LineFault>
    requires led { IsLed play.old.eras }
    ensures { HasDone LineFault.Want (Some play.old) (by_drain play.old (draining_unless_down play.old.eras.world))
        (Some play.new) (bytes_in_text result) }
{
    let from = play.regroup.world().log().len();
    let count = drain(&mut play.regroup)?;
    let mut text = Vec::new(alloc);
    write_since(alloc, &play.regroup, play.regroup.era(), from, &mut text)?;
    write_count(alloc, count, &mut text)?;
    Ok(Some(text))
}
