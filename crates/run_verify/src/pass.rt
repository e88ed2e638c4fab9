ghost use Rattle.std.specs.Prelude.{◌≡◌, ◌<◌, ◌^◌, All, IfOk, length};
ghost use Rattle.scenario_run.specs.Lines.{lines_of};
ghost use Rattle.run_verify.specs.Accounts.{account_of, lists_of};
ghost use Rattle.run_verify.specs.Courses.{HasLogged, HasFound, HasFoundOn, IsMet, may_log, met_by};
ghost use Rattle.run_verify.specs.Judging.{IsStepOf, Judges};
ghost use Rattle.run_verify.specs.Showing.{IsFitChange};

use crate::account::Account;
use crate::ahead::begins_entry;
use crate::places::Places;
use crate::step::Step;
use group_types::Shape;
use std::alloc::AllocError;
use transcript_text::count::drained;

/// What a line is found to be.
#[derive(Clone, Copy)]
pub(crate) enum Found {
    /// It tells an entry of the log.
    Entry,
    /// It tells the answer of the event in turn, whose entries may follow.
    Answer,
    /// It tells the last of the step in turn.
    Over,
    /// It is one for the places, which are in turn.
    Places,
    Fails,
}

impl Account {
    ghost use Rattle.std.specs.Prelude.{true, false};

    /// Takes a line with this step in turn, unless it is one for the places.
    pub(crate) fn pass(
        &mut self,
        shape: Shape,
        places: &Places,
        logging: bool,
        step: &Step,
        line: &[u8],
        ahead: &[u8],
    ) -> Result<Found, AllocError>
        requires step { IsStepOf shape step.now }
        requires partitions { length self.old.changes.items ≡ shape.k }
        requires fit { All (All (IsFitChange shape)) (lists_of self.old.changes.items) }
        requires few { All (λ changes. length changes < 2 ^ 62) (lists_of self.old.changes.items) }
        requires low { All (λ count. count < 2 ^ 62) (account_of self.old).table.counts }
        requires entries { self.old.entries < 2 ^ 62 }
        requires shown { self.old.shown < 2 ^ 62 }
        ensures { IfOk result (HasFound shape places.now (account_of self.old) step.now logging line.now
            (lines_of ahead.now) (account_of self.new)) }
    {
        if begins_entry(line) {
            return self.pass_log(shape, places, logging, step, line, ahead);
        }
        self.pass_step(shape, places, logging, step, line, ahead)
    }

    /// Takes a line of the log.
    fn pass_log(
        &mut self,
        shape: Shape,
        places: &Places,
        logging: bool,
        step: &Step,
        line: &[u8],
        ahead: &[u8],
    ) -> Result<Found, AllocError>
        requires partitions { length self.old.changes.items ≡ shape.k }
        requires few { All (λ changes. length changes < 2 ^ 62) (lists_of self.old.changes.items) }
        requires low { All (λ count. count < 2 ^ 62) (account_of self.old).table.counts }
        requires entries { self.old.entries < 2 ^ 62 }
        ensures { IfOk result (HasFoundOn true shape places.now (account_of self.old) step.now logging line.now
            (lines_of ahead.now) (account_of self.new)) }
    {
        if !may_log(logging, step) {
            return Ok(Found::Fails);
        }
        if !self.log(shape, places, line)? {
            return Ok(Found::Fails);
        }
        Ok(Found::Entry)
    }

    /// Takes a line for the step in turn.
    fn pass_step(
        &mut self,
        shape: Shape,
        places: &Places,
        logging: bool,
        step: &Step,
        line: &[u8],
        ahead: &[u8],
    ) -> Result<Found, AllocError>
        requires step { IsStepOf shape step.now }
        requires partitions { length self.old.changes.items ≡ shape.k }
        requires fit { All (All (IsFitChange shape)) (lists_of self.old.changes.items) }
        requires shown { self.old.shown < 2 ^ 62 }
        ensures { IfOk result (HasFoundOn false shape places.now (account_of self.old) step.now logging line.now
            (lines_of ahead.now) (account_of self.new)) }
    {
        if let Step::Placing = step {
            return Ok(Found::Places);
        }
        if !self.meet(shape, step, line, ahead)? {
            return Ok(Found::Fails);
        }
        Ok(met(step))
    }

    /// Takes a line of the log, if it tells the next entry.
    fn log(&mut self, shape: Shape, places: &Places, line: &[u8]) -> Result<bool, AllocError>
        requires partitions { length self.old.changes.items ≡ shape.k }
        requires few { All (λ changes. length changes < 2 ^ 62) (lists_of self.old.changes.items) }
        requires low { All (λ count. count < 2 ^ 62) (account_of self.old).table.counts }
        requires entries { self.old.entries < 2 ^ 62 }
        ensures { HasLogged shape places.now (account_of self.old) line.now (account_of self.new) result }
    {
        let _partitions = shape.k();
        match self.read_entry(line)? {
            None => Ok(false),
            Some(entry) => {
                self.keep(shape, places, entry)?;
                Ok(true)
            }
        }
    }

    /// Takes a line for a step, if it tells what the step asks for and isn't one for the places.
    fn meet(
        &mut self,
        shape: Shape,
        step: &Step,
        line: &[u8],
        ahead: &[u8],
    ) -> Result<bool, AllocError>
        requires step { IsStepOf shape step.now }
        requires partitions { length self.old.changes.items ≡ shape.k }
        requires fit { All (All (IsFitChange shape)) (lists_of self.old.changes.items) }
        requires shown { self.old.shown < 2 ^ 62 }
        ensures { Judges (IsMet shape (account_of self.old) step.now line.now (lines_of ahead.now))
            (account_of self.new) result }
    {
        match step {
            Step::Make(event) => self.answer(event, line, ahead),
            Step::Deliveries => Ok(drained(line).is_some()),
            Step::Look(at, run) => self.look(shape, *at, *run, line),
            Step::Placing => Ok(false),
        }
    }
}

/// Whether lines of the log may come: behind an event's answer, and for deliveries.
fn may_log(logging: bool, step: &Step) -> bool
    ensures { result ≡ may_log logging step.now }
{
    logging || matches!(step, Step::Deliveries)
}

/// What a line is that tells what a step asks for.
fn met(step: &Step) -> Found
    ensures { result ≡ met_by step.now }
{
    match step {
        Step::Make(_) => Found::Answer,
        _ => Found::Over,
    }
}
