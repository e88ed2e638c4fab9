ghost use Rattle.std.specs.Prelude.{◌≡◌, ◌↔◌, ◌<◌, ◌+◌, ◌^◌, length, IfOk, IsTrue};
ghost use Rattle.scenario_run.specs.Lines.{lines_of};
ghost use Rattle.run_verify.specs.Accounts.{lists_of};
ghost use Rattle.run_verify.specs.Dues.{HasCountedPlaces, HasToldPart, dues_left, dues_on};
ghost use Rattle.run_verify.specs.Placings.{ArePlacedFrom};
ghost use Rattle.run_verify.specs.Told.{placed_line};

use crate::change::Change;
use crate::items::Items;
use crate::judging::{Passed, Spot};
use crate::keep::changes_of;
use group_types::Shape;
use scenario_run::cut_line;
use std::alloc::{AllocError, Global};

/// What is found for the changes of a partition: all their lines pass, which makes so many in all, and this is behind them; or
/// the line of this number, from 1, fails.
#[derive(Clone, Copy)]
pub(crate) enum Told<'a> {
    All(u64, &'a [u8]),
    Fails(u64),
}

/// Judges all lines for the places: the number of the first that fails, from 1, if one does.
pub(crate) fn judge_places(
    alloc: Global,
    shape: Shape,
    changes: &[Vec<Change>],
    text: &[u8],
) -> Result<Option<u64>, AllocError>
    requires partitions { length changes.now ≡ shape.k }
    ensures { IfOk result (ArePlacedFrom shape (lists_of changes.now) 0 (lines_of text.now)) }
{
    let mut passed: u64 = 0;
    let mut rest = text;
    let mut partition: u32 = 0;
    let many = shape.k();
    'partitions: while partition < many {
        match judge_part(alloc, shape, changes, partition, passed, rest)? {
            Told::All(now, more) => {
                passed = now;
                rest = more;
                partition += 1;
            }
            Told::Fails(number) => return Ok(Some(number)),
        }
    }
    judge_end(alloc, passed, rest)
}

/// Judges the lines for the changes of a partition, behind so many places.
fn judge_part<'a>(
    alloc: Global,
    shape: Shape,
    changes: &[Vec<Change>],
    partition: u32,
    passed: u64,
    text: &'a [u8],
) -> Result<Told<'a>, AllocError>
    requires partition { partition < length changes.now }
    requires partitions { length changes.now ≡ shape.k }
    requires few { passed + length text.now < 2 ^ 63 }
    requires due { dues_left (lists_of changes.now) passed ≡ dues_on (lists_of changes.now) partition }
    ensures { IfOk result (HasToldPart shape (lists_of changes.now) partition passed text.now) }
{
    let changes = changes_of(changes, partition);
    let mut items = Items::new(alloc, shape)?;
    let mut passed = passed;
    let mut rest = text;
    let mut place: usize = 0;
    'changes: while place < changes.len() {
        match items.pass(Spot { partition, place }, &changes[place], rest)? {
            Passed::Silent => place += 1,
            Passed::Line(more) => {
                rest = more;
                passed += 1;
                place += 1;
            }
            Passed::Fails => return Ok(Told::Fails(passed + 1)),
        }
    }
    Ok(Told::All(passed, rest))
}

/// Judges the lines behind all places: they tell how many there were, and no more.
fn judge_end(alloc: Global, passed: u64, text: &[u8]) -> Result<Option<u64>, AllocError>
    requires { passed < 2 ^ 63 }
    ensures { IfOk result (HasCountedPlaces passed (lines_of text.now)) }
{
    if text.is_empty() {
        return Ok(Some(passed + 1));
    }
    let (line, rest) = cut_line(text);
    if !is_count(alloc, passed, line)? {
        return Ok(Some(passed + 1));
    }
    if rest.is_empty() {
        return Ok(None);
    }
    Ok(Some(passed + 2))
}

/// Whether a line tells that there were so many places.
fn is_count(alloc: Global, passed: u64, line: &[u8]) -> Result<bool, AllocError>
    ensures { IfOk result (λ told. IsTrue told ↔ (line.now ≡ placed_line passed)) }
{
    Ok(format!(in alloc; "placed {passed}")?.as_bytes() == line)
}
