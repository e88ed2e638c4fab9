ghost use Rattle.std.specs.Prelude.{◌≡◌, ◌<◌, map, IfOk};
ghost use Rattle.group_types.specs.Dimensions.{Dimensions, callers};
ghost use Rattle.group_types.specs.Names.{IsProcess};
ghost use Rattle.scenario_text.specs.Meaning.{event_line, line_by, delivery, look_within, IsWithin};
ghost use Rattle.scenario_text.specs.Reads.{IsReadAs};
ghost use Rattle.scenario_text.specs.Words.{number_below, partition_of_word, run_of_words};

use crate::keyword::{Keyword, keyword_named};
use crate::line::{Line, LineFault};
use crate::read_act::read_act;
use crate::read_word::{read_keep, read_number, read_process, read_u32, read_u64};
use group_types::{CALLERS, Partition, ProcessId, Run, Shape};
use std::alloc::Global;

/// The last moment.
const LAST_MOMENT: u64 = 1 << 62;

/// Reads the words of a line behind the group line.
pub(crate) fn read_event(alloc: Global, shape: Shape, words: &[&[u8]]) -> Result<Line, LineFault>
    ensures meaning { IsReadAs result (event_line shape (map (λ word. word.now) words.now)) }
    ensures within { IfOk result (IsWithin shape) }
{
    match words {
        [name, words @ ..] => match keyword_named(name) {
            Some(keyword) => read_named(alloc, shape, keyword, words),
            None => Err(LineFault::BadLine),
        },
        [] => Err(LineFault::BadLine),
    }
}

fn read_named(
    alloc: Global,
    shape: Shape,
    keyword: Keyword,
    words: &[&[u8]],
) -> Result<Line, LineFault>
    ensures meaning { IsReadAs result (line_by shape keyword (map (λ word. word.now) words.now)) }
    ensures within { IfOk result (IsWithin shape) }
{
    match keyword {
        Keyword::Ask => ask(alloc, shape, words),
        Keyword::Collect => collect(shape, words),
        Keyword::Deliver => deliver(shape, words),
        Keyword::Fail => fail(shape, words),
        Keyword::Flush => flush(shape, words),
        Keyword::Trace => trace(shape, words),
        Keyword::Drain => drain(shape, words),
        Keyword::Show => show(shape, words),
        Keyword::Places => places(shape, words),
        Keyword::Time => time(shape, words),
        Keyword::Stop => stop(shape, words),
    }
}

#[tactic(auto, unfolding(crate::specs::Meaning::line_by))]
fn ask(alloc: Global, shape: Shape, words: &[&[u8]]) -> Result<Line, LineFault>
    ensures meaning { IsReadAs result (line_by shape Keyword.Ask (map (λ word. word.now) words.now)) }
    ensures within { IfOk result (IsWithin shape) }
{
    let [caller, at, act @ ..] = words else {
        return Err(LineFault::BadLine);
    };
    let caller = read_caller(caller)?;
    let at = read_process(shape, at)?;
    let act = read_act(alloc, act)?;
    Ok(Line::Ask { caller, at, act })
}

#[tactic(auto, unfolding(crate::specs::Meaning::line_by))]
fn collect(shape: Shape, words: &[&[u8]]) -> Result<Line, LineFault>
    ensures meaning { IsReadAs result (line_by shape Keyword.Collect (map (λ word. word.now) words.now)) }
    ensures within { IfOk result (IsWithin shape) }
{
    let [caller, call, at] = words else {
        return Err(LineFault::BadLine);
    };
    let caller = read_caller(caller)?;
    let call = read_u64(call)?;
    let at = read_process(shape, at)?;
    Ok(Line::Collect { caller, call, at })
}

#[tactic(auto, unfolding(crate::specs::Meaning::line_by))]
fn deliver(shape: Shape, words: &[&[u8]]) -> Result<Line, LineFault>
    ensures meaning { IsReadAs result (line_by shape Keyword.Deliver (map (λ word. word.now) words.now)) }
    ensures within { IfOk result (IsWithin shape) }
{
    let [from, to] = words else {
        return Err(LineFault::BadLine);
    };
    let from = read_process(shape, from)?;
    delivery(from, read_process(shape, to)?)
}

#[tactic(auto, unfolding(crate::specs::Meaning::line_by))]
fn fail(shape: Shape, words: &[&[u8]]) -> Result<Line, LineFault>
    ensures meaning { IsReadAs result (line_by shape Keyword.Fail (map (λ word. word.now) words.now)) }
    ensures within { IfOk result (IsWithin shape) }
{
    let [at, keep] = words else {
        return Err(LineFault::BadLine);
    };
    let at = read_process(shape, at)?;
    let keep = read_keep(keep)?;
    Ok(Line::Fail { at, keep })
}

#[tactic(auto, unfolding(crate::specs::Meaning::line_by))]
fn flush(shape: Shape, words: &[&[u8]]) -> Result<Line, LineFault>
    ensures meaning { IsReadAs result (line_by shape Keyword.Flush (map (λ word. word.now) words.now)) }
    ensures within { IfOk result (IsWithin shape) }
{
    let [at] = words else {
        return Err(LineFault::BadLine);
    };
    let at = read_process(shape, at)?;
    Ok(Line::Flush { at })
}

#[tactic(auto, unfolding(crate::specs::Meaning::line_by))]
fn trace(shape: Shape, words: &[&[u8]]) -> Result<Line, LineFault>
    ensures meaning { IsReadAs result (line_by shape Keyword.Trace (map (λ word. word.now) words.now)) }
    ensures within { IfOk result (IsWithin shape) }
{
    let [caller, call, partition, at] = words else {
        return Err(LineFault::BadLine);
    };
    let caller = read_caller(caller)?;
    let call = read_u64(call)?;
    let partition = read_partition(shape, partition)?;
    let at = read_process(shape, at)?;
    Ok(Line::Trace {
        caller,
        call,
        partition,
        at,
    })
}

#[tactic(auto, unfolding(crate::specs::Meaning::line_by))]
fn drain(shape: Shape, words: &[&[u8]]) -> Result<Line, LineFault>
    ensures meaning { IsReadAs result (line_by shape Keyword.Drain (map (λ word. word.now) words.now)) }
    ensures within { IfOk result (IsWithin shape) }
{
    let [] = words else {
        return Err(LineFault::BadLine);
    };
    Ok(Line::Drain)
}

#[tactic(auto, unfolding(crate::specs::Meaning::line_by))]
fn show(shape: Shape, words: &[&[u8]]) -> Result<Line, LineFault>
    ensures meaning { IsReadAs result (line_by shape Keyword.Show (map (λ word. word.now) words.now)) }
    ensures within { IfOk result (IsWithin shape) }
{
    let [at, from, len] = words else {
        return Err(LineFault::BadLine);
    };
    let at = read_process(shape, at)?;
    look(shape, at, read_run(from, len)?)
}

#[tactic(auto, unfolding(crate::specs::Meaning::line_by))]
fn places(shape: Shape, words: &[&[u8]]) -> Result<Line, LineFault>
    ensures meaning { IsReadAs result (line_by shape Keyword.Places (map (λ word. word.now) words.now)) }
    ensures within { IfOk result (IsWithin shape) }
{
    let [] = words else {
        return Err(LineFault::BadLine);
    };
    Ok(Line::Places)
}

#[tactic(auto, unfolding(crate::specs::Meaning::line_by))]
fn time(shape: Shape, words: &[&[u8]]) -> Result<Line, LineFault>
    ensures meaning { IsReadAs result (line_by shape Keyword.Time (map (λ word. word.now) words.now)) }
    ensures within { IfOk result (IsWithin shape) }
{
    let [moment] = words else {
        return Err(LineFault::BadLine);
    };
    let moment = read_number(moment, LAST_MOMENT + 1)?;
    Ok(Line::Time { moment })
}

#[tactic(auto, unfolding(crate::specs::Meaning::line_by))]
fn stop(shape: Shape, words: &[&[u8]]) -> Result<Line, LineFault>
    ensures meaning { IsReadAs result (line_by shape Keyword.Stop (map (λ word. word.now) words.now)) }
    ensures within { IfOk result (IsWithin shape) }
{
    let [] = words else {
        return Err(LineFault::BadLine);
    };
    Ok(Line::Stop)
}

fn read_caller(word: &[u8]) -> Result<u32, LineFault>
    ensures value { IsReadAs result (number_below callers word.now) }
    ensures within { IfOk result (λ caller. caller < callers) }
{
    Ok(read_number(word, u64::from(CALLERS))? as u32)
}

fn read_partition(shape: Shape, word: &[u8]) -> Result<Partition, LineFault>
    ensures value { IsReadAs result (partition_of_word shape word.now) }
    ensures within { IfOk result (λ partition. partition.0 < shape.k) }
{
    Ok(Partition(read_number(word, u64::from(shape.k()))? as u32))
}

fn read_run(from: &[u8], len: &[u8]) -> Result<Run, LineFault>
    ensures { IsReadAs result (run_of_words from.now len.now) }
{
    Ok(Run {
        at: read_u32(from)?,
        len: read_u32(len)?,
    })
}

fn delivery(from: ProcessId, to: ProcessId) -> Result<Line, LineFault>
    ensures meaning { IsReadAs result (delivery from to) }
    ensures within { (shape : Dimensions) → IsProcess shape from → IsProcess shape to → IfOk result (IsWithin shape) }
{
    if from == to {
        return Err(LineFault::BadLine);
    }
    Ok(Line::Deliver { from, to })
}

fn look(shape: Shape, at: ProcessId, run: Run) -> Result<Line, LineFault>
    ensures meaning { IsReadAs result (look_within shape at run) }
    ensures within { IsProcess shape at → IfOk result (IsWithin shape) }
{
    if u64::from(shape.space()) < u64::from(run.at) + u64::from(run.len) {
        return Err(LineFault::BadLine);
    }
    Ok(Line::Show { at, run })
}
