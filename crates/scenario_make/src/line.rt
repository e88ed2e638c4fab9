//! The line that tells a round.

ghost use Rattle.std.specs.Prelude.{◌≡◌, ◌-◌, ◌≤◌, IfOk, string_bytes};
ghost use Rattle.group_types.specs.Hash.{home_of};
ghost use Rattle.scenario_make.specs.Rounds.{asked_process, key_name, line, lines_before, process_name, process_numbered, round_words, value_word};

use crate::round::Round;
use group_types::ProcessId;
use group_types::hash::fnv1a_of;
use std::alloc::{AllocError, Global};

const FIRST_LOSS: u32 = 2001;

const SECOND_LOSS: u32 = 3001;

const DATA_PROCESSES: u32 = 3;

/// The line of a round of this number, with its line end.
pub fn write_line(alloc: Global, number: u32, round: Round) -> Result<String, AllocError>
    ensures { IfOk result (λ text. string_bytes text ≡ line (round_words number round)) }
{
    match round {
        Round::Set { caller, key, len } => {
            let process = write_asked(alloc, number, key)?;
            let value = write_value(alloc, len)?;
            format!(in alloc; "ask {caller} {process} set k{key} 0 {value}\n")
        }
        Round::Get { caller, key } => {
            let process = write_asked(alloc, number, key)?;
            format!(in alloc; "ask {caller} {process} get k{key}\n")
        }
        Round::Delete { caller, key } => {
            let process = write_asked(alloc, number, key)?;
            format!(in alloc; "ask {caller} {process} delete k{key}\n")
        }
        Round::Deliver { from, to } if from == to => format!(in alloc; "drain\n"),
        Round::Deliver { from, to } => {
            let from = write_process(alloc, nth_process(from))?;
            let to = write_process(alloc, nth_process(to))?;
            format!(in alloc; "deliver {from} {to}\n")
        }
        Round::Drain => format!(in alloc; "drain\n"),
        Round::Flush { data } => {
            let process = write_process(alloc, ProcessId::DataNode(data))?;
            format!(in alloc; "flush {process}\n")
        }
    }
}

/// The lines that stand before a round's own.
pub fn losses_before(number: u32) -> &'static [u8]
    ensures { result.now ≡ lines_before number }
{
    match number {
        FIRST_LOSS => b"fail d0 1\ndrain\n",
        SECOND_LOSS => b"fail p0 1\ndrain\n",
        _ => b"",
    }
}

fn write_asked(alloc: Global, number: u32, key: u32) -> Result<String, AllocError>
    ensures { IfOk result (λ text. string_bytes text ≡ process_name (asked_process number (home_of (key_name key) 3))) }
{
    let word = format!(in alloc; "k{key}")?;
    let home = fnv1a_of(word.as_bytes()) % DATA_PROCESSES;
    write_process(alloc, process_asked(number, home))
}

fn write_value(alloc: Global, len: u32) -> Result<String, AllocError>
    ensures { IfOk result (λ text. string_bytes text ≡ value_word len) }
{
    format!(in alloc; "*{len}*61")
}

#[tactic(auto, unfolding(crate::specs::Rounds::process_name))]
fn write_process(alloc: Global, process: ProcessId) -> Result<String, AllocError>
    ensures { IfOk result (λ text. string_bytes text ≡ process_name process) }
{
    match process {
        ProcessId::DataNode(d) => format!(in alloc; "d{d}"),
        ProcessId::ParityNode(i) => format!(in alloc; "p{i}"),
    }
}

#[tactic(auto, unfolding(crate::specs::Rounds::asked_process))]
fn process_asked(number: u32, home: u32) -> ProcessId
    ensures { result ≡ asked_process number home }
{
    match home {
        0 if number >= SECOND_LOSS => ProcessId::ParityNode(1),
        0 if number >= FIRST_LOSS => ProcessId::ParityNode(0),
        _ => ProcessId::DataNode(home),
    }
}

#[tactic(auto, unfolding(crate::specs::Rounds::process_numbered))]
fn nth_process(n: u32) -> ProcessId
    ensures { result ≡ process_numbered n }
{
    if n < DATA_PROCESSES {
        ProcessId::DataNode(n)
    } else {
        ProcessId::ParityNode(n - DATA_PROCESSES)
    }
}
