ghost use Rattle.std.specs.Prelude.{◌≡◌, ◌≤◌, ◌<◌, ◌+◌, ◌^◌, [], All, IfOk, length, replicate};
ghost use Rattle.scenario_run.specs.Lines.{lines_of};
ghost use Rattle.run_verify.specs.Accounts.{account_of, lists_of};
ghost use Rattle.run_verify.specs.Courses.{IsAccountWithin, IsJudged, IsPlacedBehind, logging_by, sheet_on, turn_by};
ghost use Rattle.run_verify.specs.Judging.{IsStepOf};
ghost use Rattle.run_verify.specs.Passing.{first_account};
ghost use Rattle.run_verify.specs.Plain.{EndsPlacing};
ghost use Rattle.run_verify.specs.Runs.{ArePlacesOf};

use crate::account::Account;
use crate::pass::Found;
use crate::places::Places;
use crate::placing::judge_places;
use crate::script::LONGEST_SHEET;
use crate::step::Step;
use crate::verdict::Verdict;
use group_types::{CALLERS, Shape};
use memc_table::Table;
use scenario_run::cut_line;
use std::alloc::{AllocError, Global};

/// Judges the lines of a transcript, one after the other.
pub(crate) fn judge(
    alloc: Global,
    shape: Shape,
    steps: &[Step],
    places: &Places,
    text: &[u8],
) -> Result<Verdict, AllocError>
    requires short { length text.now ≤ LONGEST_SHEET }
    requires steps { All (IsStepOf shape) steps.now }
    requires ends { EndsPlacing steps.now }
    requires places { ArePlacesOf (lines_of text.now) places.now }
    ensures { IfOk result (IsJudged (sheet_on shape steps.now (lines_of text.now))) }
{
    let _partitions = shape.k();
    let mut account = Account::new(alloc, shape)?;
    let mut turn = steps;
    let mut logging = false;
    let mut done: u64 = 0;
    let mut rest = text;
    'lines: while !rest.is_empty() {
        let (line, ahead) = cut_line(rest);
        let [step, more @ ..] = turn else {
            unreachable!()
        };
        match account.pass(shape, places, logging, step, line, ahead)? {
            Found::Places => return place(shape, &account, done, rest),
            Found::Fails => return Ok(Verdict::Refused { line: done + 1 }),
            found => (turn, logging) = go_on(found, turn, more, logging),
        }
        done += 1;
        rest = ahead;
    }
    Ok(Verdict::Refused { line: done + 1 })
}

/// The steps in turn and to come behind such a line, and whether lines of the log may come.
fn go_on<'a>(found: Found, turn: &'a [Step], more: &'a [Step], logging: bool) -> (&'a [Step], bool)
    ensures turn { result.0.now ≡ turn_by found turn.now more.now }
    ensures logging { result.1 ≡ logging_by found logging }
{
    match found {
        Found::Answer => (more, true),
        Found::Over => (more, false),
        _ => (turn, logging),
    }
}

/// Judges the lines for the places, which stand behind so many.
fn place(shape: Shape, account: &Account, done: u64, rest: &[u8]) -> Result<Verdict, AllocError>
    requires within { IsAccountWithin shape done (account_of account.now) }
    requires few { done + length rest.now < 2 ^ 62 }
    ensures { IfOk result (IsPlacedBehind done shape (account_of account.now) (lines_of rest.now)) }
{
    match judge_places(account.alloc, shape, &account.changes, rest)? {
        None => Ok(Verdict::Verified {
            entries: account.entries,
            shown: account.shown,
        }),
        Some(n) => Ok(Verdict::Refused { line: done + n }),
    }
}

impl Account {
    ghost use Rattle.std.specs.Prelude.{IfOk};

    /// Before the first line.
    fn new(alloc: Global, shape: Shape) -> Result<Account, AllocError>
        ensures { IfOk result (λ account. account_of account ≡ first_account shape.k) }
    {
        Ok(Account {
            alloc,
            calls: nothing(alloc, CALLERS)?,
            table: Table::new(alloc, shape.k())?,
            changes: nothing(alloc, shape.k())?,
            entries: 0,
            shown: 0,
            shadows: Vec::new(alloc),
        })
    }
}

/// So many lists without an item.
fn nothing<T: Drop>(alloc: Global, n: u32) -> Result<Vec<Vec<T>>, AllocError>
    ensures { IfOk result (λ lists. lists_of lists.items ≡ replicate n []) }
{
    let mut lists = Vec::with_capacity(alloc, n as usize)?;
    'lists: for _ in 0..n {
        lists.push(Vec::new(alloc))?;
    }
    Ok(lists)
}
