ghost use Rattle.std.specs.Prelude.{◌≡◌, ◌^◌, ◌<◌, ◌≤◌, [], IfSome, IfOk};
ghost use Rattle.scenario_text.specs.Meaning.{IsLineOf};
ghost use Rattle.scenario_run.specs.Playing.{first_by, next_of, then_by};
ghost use Rattle.scenario_play.specs.Group.{IsLightPlay};
ghost use Rattle.scenario_play.specs.Player.{bytes_in_text};
ghost use Rattle.scenario_play.specs.Script.{HasBegun, HasDone};

use crate::playing::Play;
use group_calls::Event;
use scenario_text::read_line::read_line;
use scenario_text::{Line, LineFault};
use std::alloc::Global;

/// Treats a line: the text that it writes, or none where the script ends.
pub(crate) fn treat(
    alloc: Global,
    play: &mut Option<Play>,
    line: &[u8],
) -> Result<Option<Vec<u8>>, LineFault>
    requires { IfSome play.old (IsLightPlay (2 ^ 61)) }
    ensures { HasDone LineFault.Want play.old (next_of play.old line.now) play.new (bytes_in_text result) }
{
    match play {
        None => {
            *play = begin(alloc, read_line(alloc, None, line)?)?;
            Ok(Some(Vec::new(alloc)))
        }
        Some(play) => {
            let line = read_line(alloc, Some(play.shape()), line)?;
            follow(alloc, play, line)
        }
    }
}

/// The group after a line before which it was not named.
fn begin(alloc: Global, line: Line) -> Result<Option<Play>, LineFault>
    requires { IsLineOf None line }
    ensures { HasBegun LineFault.Want (first_by line) result }
{
    match line {
        Line::Skipped => Ok(None),
        Line::Group { shape } => Ok(Some(Play::new(alloc, shape)?)),
        _ => Err(LineFault::BadLine),
    }
}

/// Treats a line behind the group line.
fn follow(alloc: Global, play: &mut Play, line: Line) -> Result<Option<Vec<u8>>, LineFault>
    requires line { IsLineOf (Some play.old.world.shape) line }
    requires light { IsLightPlay (2 ^ 61) play.old }
    ensures { HasDone LineFault.Want (Some play.old) (then_by play.old line) (Some play.new) (bytes_in_text result) }
{
    let text = match line {
        Line::Skipped => Vec::new(alloc),
        Line::Group { .. } => return Err(LineFault::BadLine),
        Line::Ask { caller, at, act } => {
            let op = play.op(act);
            play.make(alloc, Event::Ask { caller, op, at })?
        }
        Line::Collect { caller, call, at } => {
            play.make(alloc, Event::Collect { caller, call, at })?
        }
        Line::Deliver { from, to } => play.make(alloc, Event::Deliver { from, to })?,
        Line::Fail { at, keep } => play.make(alloc, Event::Fail { at, keep })?,
        Line::Flush { at } => play.make(alloc, Event::Flush { at })?,
        Line::Trace {
            caller,
            call,
            partition,
            at,
        } => {
            if play.world.asks(caller) <= call {
                return Err(LineFault::BadLine);
            }
            play.make(
                alloc,
                Event::Trace {
                    caller,
                    call,
                    partition,
                    at,
                },
            )?
        }
        Line::Drain => play.drain(alloc)?,
        Line::Show { at, run } => play.show(alloc, at, run)?,
        Line::Places => play.places(alloc)?,
        Line::Time { moment } => {
            play.set_moment(moment);
            Vec::new(alloc)
        }
        Line::Stop => return Ok(None),
    };
    Ok(Some(text))
}
