ghost use Rattle.std.specs.Prelude.{◌≡◌, ◌<◌, ◌≤◌, ◌+◌, ◌^◌, IfOk, IfErr, Some};
ghost use Rattle.group_types.specs.Dimensions.{callers};
ghost use Rattle.scenario_text.specs.Meaning.{IsLineOf};
ghost use Rattle.run_verify.specs.Scripts.{HasTreatedFirst, IsAtLine, IsLineTreated, IsTreatedOf};
ghost use Rattle.run_verify.specs.Steps.{first_setting, first_steps, later_steps, steps_of_line, with_ask};

use crate::step::Step;
use group_calls::Event;
use group_types::{CALLERS, Shape};
use memc_table::{Act, Op};
use scenario_text::read_line::read_line;
use scenario_text::{Line, LineFault};
use std::alloc::{AllocError, Global};
use std::marker::Model;

/// What the lines of a script before one set: the group's shape, the moment of the asks that follow, and how often each
/// caller has asked.
#[derive(Drop)]
pub(crate) struct Setting {
    shape: Shape,
    moment: u64,
    asked: Vec<u64>,
}

impl Model for Setting {
    ghost use Rattle.std.specs.Prelude.{◌≡◌, ◌≤◌, ◌^◌, All, length};
    ghost use Rattle.run_verify.specs.Steps as script;

    ghost Value = { script.Setting };

    ghost view = { λ s. record { shape = s.shape; moment = s.moment; asked = s.asked.items } };

    ghost invariant = { λ s. (s.moment ≤ 2 ^ 62) × (length s.asked.items ≡ 256) };
}

impl Setting {
    fn new(alloc: Global, shape: Shape) -> Result<Setting, AllocError>
        ensures { IfOk result (λ setting. setting ≡ first_setting shape) }
    {
        Ok(Setting {
            shape,
            moment: 0,
            asked: vec![in alloc; 0; CALLERS as usize]?,
        })
    }

    /// The group's shape.
    pub(crate) fn shape(&self) -> Shape
        ensures { result ≡ self.now.shape }
    {
        self.shape
    }

    /// One more ask of a caller.
    fn count(&mut self, caller: u32, number: u64)
        requires caller { caller < callers }
        requires number { number < 2 ^ 62 }
        requires low { IsAtLine number (Some self.old) }
        ensures asked { self.new ≡ with_ask self.old caller }
        ensures low { IsAtLine (number + 1) (Some self.new) }
    {
        self.asked[caller as usize] += 1;
    }
}

/// What a line of a script was found to be: it sets something, it asks a step, or it ends the script.
#[derive(Drop)]
pub(crate) enum Treated {
    Sets,
    Asks(Step),
    Ends,
}

/// Treats the line of this number.
pub(crate) fn treat(
    alloc: Global,
    number: u64,
    setting: &mut Option<Setting>,
    line: &[u8],
) -> Result<Treated, LineFault>
    requires number { number < 2 ^ 62 }
    requires low { IsAtLine number setting.old }
    ensures treated { IsLineTreated setting.old (steps_of_line setting.old line.now) setting.new result }
    ensures low { IsAtLine (number + 1) setting.new }
    ensures step { IsTreatedOf setting.old setting.new result }
{
    match setting {
        None => {
            *setting = begin(alloc, read_line(alloc, None, line)?)?;
            Ok(Treated::Sets)
        }
        Some(setting) => {
            let line = read_line(alloc, Some(setting.shape), line)?;
            follow(number, setting, line)
        }
    }
}

/// The setting after a line before which there was none.
fn begin(alloc: Global, line: Line) -> Result<Option<Setting>, LineFault>
    requires { IsLineOf None line }
    ensures { HasTreatedFirst (first_steps line) result }
{
    match line {
        Line::Skipped => Ok(None),
        Line::Group { shape } => start(alloc, shape),
        _ => Err(LineFault::BadLine),
    }
}

/// The setting at a group line.
fn start(alloc: Global, shape: Shape) -> Result<Option<Setting>, LineFault>
    ensures ok { IfOk result (λ setting. setting ≡ Some (first_setting shape)) }
    ensures want { IfErr result (λ fault. fault ≡ LineFault.Want) }
{
    match Setting::new(alloc, shape) {
        Ok(setting) => Ok(Some(setting)),
        Err(_) => Err(LineFault::Want),
    }
}

/// Treats a line behind the group line.
fn follow(number: u64, setting: &mut Setting, line: Line) -> Result<Treated, LineFault>
    requires line { IsLineOf (Some setting.old.shape) line }
    requires number { number < 2 ^ 62 }
    requires low { IsAtLine number (Some setting.old) }
    ensures treated { IsLineTreated (Some setting.old) (later_steps setting.old line) (Some setting.new) result }
    ensures low { IsAtLine (number + 1) (Some setting.new) }
    ensures step { IsTreatedOf (Some setting.old) (Some setting.new) result }
{
    match line {
        Line::Skipped => Ok(Treated::Sets),
        Line::Group { .. } => Err(LineFault::BadLine),
        Line::Ask { caller, at, act } => {
            setting.count(caller, number);
            let op = Op::new(setting.moment, act);
            Ok(asks(Event::Ask { caller, op, at }))
        }
        Line::Collect { caller, call, at } => Ok(asks(Event::Collect { caller, call, at })),
        Line::Deliver { from, to } => Ok(asks(Event::Deliver { from, to })),
        Line::Fail { at, keep } => Ok(asks(Event::Fail { at, keep })),
        Line::Flush { at } => Ok(asks(Event::Flush { at })),
        Line::Trace {
            caller,
            call,
            partition,
            at,
        } => {
            if setting.asked[caller as usize] <= call {
                return Err(LineFault::BadLine);
            }
            Ok(asks(Event::Trace {
                caller,
                call,
                partition,
                at,
            }))
        }
        Line::Drain => Ok(Treated::Asks(Step::Deliveries)),
        Line::Show { at, run } => Ok(Treated::Asks(Step::Look(at, run))),
        Line::Places => Ok(Treated::Asks(Step::Placing)),
        Line::Time { moment } => {
            setting.moment = moment;
            Ok(Treated::Sets)
        }
        Line::Stop => Ok(Treated::Ends),
    }
}

fn asks(event: Event) -> Treated
    ensures { result ≡ Treated.Asks (Step.Make event) }
{
    Treated::Asks(Step::Make(event))
}
