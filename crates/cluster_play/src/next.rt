ghost use Rattle.std.specs.Prelude.{◌≡◌, ◌^◌, ◌<◌, None, Some, length, IfSome};
ghost use Rattle.scenario_text.specs.Meaning.{IsLineOf};
ghost use Rattle.scenario_text.specs.Words as text;
ghost use Rattle.scenario_play.specs.Player.{bytes_in_text};
ghost use Rattle.scenario_play.specs.Script.{HasBegun, HasDone};
ghost use Rattle.cluster_run.specs.Meaning.{failure_line};
ghost use Rattle.cluster_run.specs.Playing.{by_words, next_of, then_by, then_in};
ghost use Rattle.cluster_play.specs.Doing.{IsReadyCluster};

use crate::playing::ClusterPlay;
use crate::reading::{read_failure, read_group, read_groups};
use cluster_run::ClusterFault;
use group_calls::Event;
use scenario_play::words::{is_skipped, words_of};
use scenario_text::read_line::read_line;
use scenario_text::{Line, LineFault};
use std::alloc::Global;

/// Treats a line: the text that it writes, or none where the script ends.
pub(crate) fn treat(
    alloc: Global,
    play: &mut Option<ClusterPlay>,
    line: &[u8],
) -> Result<Option<Vec<u8>>, ClusterFault>
    requires { IfSome play.old (λ p. IsReadyCluster (2 ^ 59) p.cluster) }
    ensures { HasDone ClusterFault.Want play.old (next_of play.old line.now) play.new (bytes_in_text result) }
{
    match play {
        None => {
            *play = begin(alloc, line)?;
            Ok(Some(Vec::new(alloc)))
        }
        Some(play) => follow(alloc, play, line),
    }
}

/// The groups after a line before which they were not named.
fn begin(alloc: Global, line: &[u8]) -> Result<Option<ClusterPlay>, ClusterFault>
    ensures { HasBegun ClusterFault.Want (next_of None line.now) result }
{
    if is_skipped(line) {
        return Ok(None);
    }
    let layout = read_groups(&words_of(alloc, line)?)?;
    Ok(Some(ClusterPlay::new(alloc, layout)?))
}

/// Treats a line behind the one that names the groups.
fn follow(
    alloc: Global,
    play: &mut ClusterPlay,
    line: &[u8],
) -> Result<Option<Vec<u8>>, ClusterFault>
    requires ready { IsReadyCluster (2 ^ 59) play.old.cluster }
    ensures { HasDone ClusterFault.Want (Some play.old) (next_of (Some play.old) line.now) (Some play.new)
        (bytes_in_text result) }
{
    match read_group(play.cluster.groups(), line) {
        Ok((group, rest)) => {
            let line = read_line(alloc, Some(play.shape()), rest)?;
            follow_in(alloc, play, group, line)
        }
        Err(LineFault::Want) => Err(ClusterFault::Want),
        Err(_) => follow_all(alloc, play, line),
    }
}

/// Treats a line that names no group: the failure of a node, or one as in scripts of one group.
fn follow_all(
    alloc: Global,
    play: &mut ClusterPlay,
    line: &[u8],
) -> Result<Option<Vec<u8>>, ClusterFault>
    requires ready { IsReadyCluster (2 ^ 59) play.old.cluster }
    ensures { HasDone ClusterFault.Want (Some play.old) (by_words play.old line.now None
        (failure_line (length play.old.cluster.failed) (text.split_words line.now))) (Some play.new) (bytes_in_text result) }
{
    match read_failure(play.cluster.nodes(), &words_of(alloc, line)?) {
        Ok((node, keep)) => Ok(Some(play.fail(alloc, node, keep)?)),
        Err(LineFault::Want) => Err(ClusterFault::Want),
        Err(_) => {
            let line = read_line(alloc, Some(play.shape()), line)?;
            follow_plain(alloc, play, line)
        }
    }
}

/// Treats a line of a group.
fn follow_in(
    alloc: Global,
    play: &mut ClusterPlay,
    group: u32,
    line: Line,
) -> Result<Option<Vec<u8>>, ClusterFault>
    requires group { group < length play.old.cluster.groups.worlds }
    requires line { IsLineOf (Some play.old.cluster.groups.shape) line }
    requires ready { IsReadyCluster (2 ^ 59) play.old.cluster }
    ensures { HasDone ClusterFault.Want (Some play.old) (then_in play.old group line) (Some play.new)
        (bytes_in_text result) }
{
    let text = match line {
        Line::Ask { caller, at, act } => {
            let op = play.op(act);
            play.make(alloc, group, Event::Ask { caller, op, at })?
        }
        Line::Collect { caller, call, at } => {
            play.make(alloc, group, Event::Collect { caller, call, at })?
        }
        Line::Deliver { from, to } => play.make(alloc, group, Event::Deliver { from, to })?,
        Line::Flush { at } => play.make(alloc, group, Event::Flush { at })?,
        Line::Trace {
            caller,
            call,
            partition,
            at,
        } => {
            if play.cluster.world(group).asks(caller) <= call {
                return Err(ClusterFault::BadLine);
            }
            play.make(
                alloc,
                group,
                Event::Trace {
                    caller,
                    call,
                    partition,
                    at,
                },
            )?
        }
        Line::Show { at, run } => play.show(alloc, group, at, run)?,
        _ => return Err(ClusterFault::BadLine),
    };
    Ok(Some(text))
}

/// Treats a line that is about all groups.
fn follow_plain(
    alloc: Global,
    play: &mut ClusterPlay,
    line: Line,
) -> Result<Option<Vec<u8>>, ClusterFault>
    requires line { IsLineOf (Some play.old.cluster.groups.shape) line }
    requires ready { IsReadyCluster (2 ^ 59) play.old.cluster }
    ensures { HasDone ClusterFault.Want (Some play.old) (then_by play.old line) (Some play.new) (bytes_in_text result) }
{
    match line {
        Line::Skipped => Ok(Some(Vec::new(alloc))),
        Line::Drain => Ok(Some(play.drain(alloc)?)),
        Line::Time { moment } => {
            play.set_moment(moment);
            Ok(Some(Vec::new(alloc)))
        }
        Line::Stop => Ok(None),
        _ => Err(ClusterFault::BadLine),
    }
}
