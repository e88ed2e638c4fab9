ghost use Rattle.std.specs.Prelude.{◌≡◌, ◌+◌, ◌≤◌, ◌<◌, ◌^◌, ◌∷◌, [], length, true, false, None, IfSome, IfOk, IfErr, OnOk, All, Some};
ghost use Rattle.scenario_run.specs.Lines.{lines_of};
ghost use Rattle.scenario_text.specs.Meaning.{is_skipped};
ghost use Rattle.run_verify.specs.Judging.{AreStepsOf, IsStepOf};
ghost use Rattle.run_verify.specs.Scripts.{HasKept, HasReadScript, HasTakenLine, IsAtLine, IsToldOf};
ghost use Rattle.run_verify.specs.Sheet.{before_separator, behind_separator, separator};
ghost use Rattle.run_verify.specs.Steps.{behind, ended, is_over, script_in, stands_well};

use crate::setting::{Setting, Treated, treat};
use crate::step::Step;
use crate::verdict::VerifyFault;
use group_types::Shape;
use scenario_run::cut_line;
use scenario_text::LineFault;
use std::alloc::Global;
use std::marker::Model;

/// The most bytes that a script and its transcript have together.
pub const LONGEST_SHEET: usize = 67_108_864;

/// The line between a script and its transcript.
const SEPARATOR: &[u8] = b"====";

/// What a script asks of its transcript.
#[derive(Drop)]
pub(crate) struct Script {
    pub(crate) shape: Shape,
    pub(crate) steps: Vec<Step>,
}

impl Model for Script {
    ghost use Rattle.run_verify.specs.Steps as script;

    ghost Value = { script.Script };

    ghost view = { λ s. record { shape = s.shape; steps = s.steps.items } };
}

/// The first line of a script, and what follows it; none at the separator, and at the end.
fn script_line(text: &[u8]) -> Option<(&[u8], &[u8])>
    ensures none { result ≡ None → before_separator (lines_of text.now) ≡ [] }
    ensures some { IfSome result (λ cut. before_separator (lines_of text.now)
        ≡ cut.0.now ∷ before_separator (lines_of cut.1.now)) }
    ensures shorter { IfSome result (λ cut. length cut.1.now < length text.now) }
{
    if text.is_empty() {
        return None;
    }
    let (line, rest) = cut_line(text);
    if line == SEPARATOR {
        return None;
    }
    Some((line, rest))
}

/// The transcript: what follows the separator, if there is one.
pub(crate) fn transcript_in(text: &[u8]) -> Option<&[u8]>
    ensures none { result ≡ None → behind_separator (lines_of text.now) ≡ None }
    ensures some { IfSome result (λ rest. behind_separator (lines_of text.now) ≡ Some (lines_of rest.now)) }
    ensures shorter { IfSome result (λ rest. length rest.now ≤ length text.now) }
{
    let mut rest = text;
    'lines: while !rest.is_empty() {
        let (line, after) = cut_line(rest);
        if line == SEPARATOR {
            return Some(after);
        }
        rest = after;
    }
    None
}

fn is_skipped(line: &[u8]) -> bool
    ensures { result ≡ is_skipped line.now }
{
    match line {
        [] => true,
        [first, ..] => *first == b'#',
    }
}

/// Whether a script holds nothing more before `stop` or its end.
fn is_over(text: &[u8]) -> bool
    ensures { result ≡ is_over (before_separator (lines_of text.now)) }
{
    let mut rest = text;
    'lines: while let Some((line, after)) = script_line(rest) {
        if !is_skipped(line) {
            return line == b"stop".as_slice();
        }
        rest = after;
    }
    true
}

/// Whether a line stands where it may: the last line, and no other, is `places`.
fn stands_well(line: &[u8], rest: &[u8]) -> bool
    ensures { result ≡ stands_well line.now (before_separator (lines_of rest.now)) }
{
    (line == b"places".as_slice()) == is_over(rest)
}

/// What is told of a line of this number that is refused.
fn told(number: u64, fault: LineFault) -> VerifyFault
    ensures { IsToldOf number fault result }
{
    match fault {
        LineFault::BadLine => VerifyFault::BadLine(number),
        LineFault::BadShape(field) => VerifyFault::BadShape(field),
        LineFault::Want => VerifyFault::Want,
    }
}

/// Takes the line of this number: its step is kept, unless the script ends there.
fn take_line(
    alloc: Global,
    number: u64,
    setting: &mut Option<Setting>,
    steps: &mut Vec<Step>,
    line: &[u8],
    rest: &[u8],
) -> Result<bool, VerifyFault>
    requires number { number < 2 ^ 62 }
    requires low { IsAtLine number setting.old }
    ensures taken { HasTakenLine number setting.old setting.new steps.old.items steps.new.items line.now
        (before_separator (lines_of rest.now)) result }
    ensures low { IsAtLine (number + 1) setting.new }
    ensures steps { AreStepsOf setting.old steps.old.items → OnOk result (AreStepsOf setting.new steps.new.items) }
{
    if is_skipped(line) {
        return Ok(true);
    }
    let well = stands_well(line, rest);
    match treat(alloc, number, setting, line) {
        Ok(treated) => keep(steps, treated, well, number),
        Err(fault) => Err(told(number, fault)),
    }
}

/// Keeps the step of a line of this number, which stands where it may or doesn't.
fn keep(
    steps: &mut Vec<Step>,
    treated: Treated,
    well: bool,
    number: u64,
) -> Result<bool, VerifyFault>
    ensures { HasKept steps.old.items steps.new.items treated well number result }
{
    match treated {
        Treated::Ends => Ok(false),
        Treated::Sets => placed(well, number),
        Treated::Asks(step) => match steps.push(step) {
            Ok(()) => placed(well, number),
            Err(_) => Err(VerifyFault::Want),
        },
    }
}

fn placed(well: bool, number: u64) -> Result<bool, VerifyFault>
    ensures ok { IfOk result (λ goes. (goes ≡ true) × (well ≡ true)) }
    ensures err { IfErr result (λ fault. (fault ≡ VerifyFault.BadLine number) × (well ≡ false)) }
{
    if well {
        return Ok(true);
    }
    Err(VerifyFault::BadLine(number))
}

/// Reads the script at the front of a text.
pub(crate) fn read_script(alloc: Global, text: &[u8]) -> Result<Script, VerifyFault>
    requires short { length text.now ≤ LONGEST_SHEET }
    ensures read { HasReadScript (script_in 1 None (before_separator (lines_of text.now))) result }
    ensures steps { IfOk result (λ script. All (IsStepOf script.shape) script.steps) }
{
    let mut setting = None;
    let mut steps = Vec::new(alloc);
    let mut number: u64 = 1;
    let mut rest = text;
    'lines: while let Some((line, after)) = script_line(rest) {
        if !take_line(alloc, number, &mut setting, &mut steps, line, after)? {
            break;
        }
        rest = after;
        number += 1;
    }
    end_script(number, setting, steps)
}

/// The script of these steps, which ends before the line of this number.
fn end_script(
    number: u64,
    setting: Option<Setting>,
    steps: Vec<Step>,
) -> Result<Script, VerifyFault>
    requires steps { AreStepsOf setting steps.items }
    ensures read { HasReadScript (behind steps.items (ended number setting)) result }
    ensures steps { IfOk result (λ script. All (IsStepOf script.shape) script.steps) }
{
    match setting {
        Some(setting) => Ok(Script {
            shape: setting.shape(),
            steps,
        }),
        None => Err(VerifyFault::BadLine(number)),
    }
}
