ghost use Rattle.std.specs.Prelude.{List, ◌≡◌, ◌↔◌, ◌<◌, ◌+◌, ◌^◌, length, IfOk, IsTrue};
ghost use Rattle.run_verify.specs.declared.change.Change.{Change};
ghost use Rattle.scenario_text.specs.Texts.{place_text};
ghost use Rattle.run_verify.specs.Dues.{HasPassed, HasToldAt, TellsAt};
ghost use Rattle.run_verify.specs.Items.{IsMarked, StandBehind, item_runs_of};

use crate::change::{Change, Effect};
use crate::items::Items;
use crate::places::is_fit;
use group_types::{Key, Run};
use scenario_run::cut_line;
use std::alloc::{AllocError, Global};

/// A change: its partition, and its place there.
#[derive(Clone, Copy)]
pub(crate) struct Spot {
    pub(crate) partition: u32,
    pub(crate) place: usize,
}

/// What is found for a change: no line is due; the first line tells its run, and this is behind it; or it doesn't.
#[derive(Clone, Copy)]
pub(crate) enum Passed<'a> {
    Silent,
    Line(&'a [u8]),
    Fails,
}

impl Items {
    /// Takes the next change of a partition, with the line that is due for it.
    pub(crate) fn pass<'a>(
        &mut self,
        spot: Spot,
        change: &Change,
        text: &'a [u8],
    ) -> Result<Passed<'a>, AllocError>
        requires marked { IsMarked self.old }
        requires few { spot.place < 2 ^ 63 }
        ensures passed { (before : List Change) → length before ≡ spot.place → StandBehind before self.old
            → IfOk result (HasPassed self.old.shape spot.partition before change.now text.now self.new) }
        ensures shape { self.new.shape ≡ self.old.shape }
    {
        match &change.effect {
            Effect::Keeps => Ok(Passed::Silent),
            Effect::Removes => {
                self.remove(&change.key);
                Ok(Passed::Silent)
            }
            Effect::Writes(_, None) => Ok(Passed::Fails),
            Effect::Writes(value, Some(run)) => {
                self.take(spot, &change.key, *run, value.len(), text)
            }
        }
    }

    /// Gives the item on a key this run, if the first line tells it of a value of this length.
    fn take<'a>(
        &mut self,
        spot: Spot,
        key: &Key,
        run: Run,
        len: usize,
        text: &'a [u8],
    ) -> Result<Passed<'a>, AllocError>
        requires marked { IsMarked self.old }
        requires few { spot.place < 2 ^ 63 }
        ensures told { IfOk result (HasToldAt self.old spot key.now run len text.now self.new) }
        ensures shape { self.new.shape ≡ self.old.shape }
    {
        if text.is_empty() {
            return Ok(Passed::Fails);
        }
        let (line, rest) = cut_line(text);
        if !self.tells(spot, run, len, line)? {
            return Ok(Passed::Fails);
        }
        self.put(key, run)?;
        Ok(Passed::Line(rest))
    }

    /// Whether a line tells this run of a value of this length, and no item has an address of it.
    fn tells(&self, spot: Spot, run: Run, len: usize, line: &[u8]) -> Result<bool, AllocError>
        requires marked { IsMarked self.now }
        requires few { spot.place < 2 ^ 63 }
        ensures { IfOk result (λ told. IsTrue told ↔ TellsAt self.now.shape spot run len (item_runs_of self.now) line.now) }
    {
        if !is_fit(self.shape, run, len) || !self.is_off(run) {
            return Ok(false);
        }
        is_place(self.alloc, spot, run, line)
    }
}

/// Whether a line is the text of a place.
fn is_place(alloc: Global, spot: Spot, run: Run, line: &[u8]) -> Result<bool, AllocError>
    requires { spot.place < 2 ^ 63 }
    ensures { IfOk result (λ told. IsTrue told ↔ (line.now ≡ place_text spot.partition (spot.place + 1) run)) }
{
    Ok(place_text(alloc, spot, run)?.as_slice() == line)
}

/// The text of a place.
fn place_text(alloc: Global, spot: Spot, run: Run) -> Result<Vec<u8>, AllocError>
    requires { spot.place < 2 ^ 63 }
    ensures { IfOk result (λ text. text.items ≡ place_text spot.partition (spot.place + 1) run) }
{
    let number = spot.place + 1;
    let text = format!(in alloc; "place {} {number} {} {}", spot.partition, run.at, run.len)?;
    Ok(text.into_bytes())
}
