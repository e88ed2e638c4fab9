ghost use Rattle.std.specs.Prelude.{◌≡◌, map};
ghost use Rattle.std.specs.Process.{exit_status};
ghost use Rattle.std.specs.String.{string_bytes};
ghost use Rattle.command_line.specs.Words.{command_of_words};
ghost use Rattle.group_server.specs.Service.{tally_with};
ghost use Rattle.scenario_play.specs.Outside.{outside};
ghost use Rattle.scenario_play.specs.Status.{number_of_status};
ghost use Rattle.group_program.specs.Arguments.{lacks_memory, words_behind};
ghost use Rattle.group_program.specs.Program.{HasNoMemoryForWords};
ghost use Rattle.group_program.specs.Run.{HasExited, HasRunCommand};

use crate::arguments::words_behind;
use crate::edges::Edges;
use crate::ending::exit_of;
use crate::explain::Explain;
use crate::program::run_program;
use edge_io::{Clock, Sink, Source};
use group_server::ReadyListener;
use member_machine::{Carrier, Machine, Watcher};
use scenario_play::Status;
use scenario_play::tell::tell;
use std::alloc::{AllocError, Global};
use std::env::Args;
use std::io;
use std::process::ExitCode;
use std::sync::Wait;
use std::thread::Threads;

/// Runs the command that the words behind the program's name ask for, has a person told how it ended, and gives what the
/// program is to end with: the number of its status. Arguments that are no text count as no words.
pub fn run_words<
    R: Threads + Wait + Sync,
    S: Source,
    K: Sink,
    L: ReadyListener,
    M: Machine + Watcher + Carrier,
    T: Clock,
    P: Explain<S, L>,
>(
    rt: &R,
    alloc: Global,
    args: io::Result<Args>,
    edges: &mut Edges<S, K, L, M, T>,
    person: &P,
) -> ExitCode
where
    L::Incoming: Drop,
    L::Outgoing: Drop,
    ensures ran { HasExited (λ s k. outside (S.input s) (S.faults s) (K.held k) (K.faults k)) L.listened
        (λ l. tally_with (L.at l) (L.accepted l) (L.over l)) L.faults M.ran M.watched M.carried T.moment edges.old edges.new
        (command_of_words (words_behind args)) (exit_status result) }
    ensures want { lacks_memory args → exit_status result ≡ number_of_status Status.Want }
{
    match words_behind(alloc, args) {
        Ok(words) => exit_of(run_explained(rt, alloc, &words, edges, person)),
        Err(AllocError) => exit_of(stop(alloc, edges, person)),
    }
}

/// Runs the command that these words ask for, and has a person told how it ended.
fn run_explained<
    R: Threads + Wait + Sync,
    S: Source,
    K: Sink,
    L: ReadyListener,
    M: Machine + Watcher + Carrier,
    T: Clock,
    P: Explain<S, L>,
>(rt: &R, alloc: Global, words: &[String], edges: &mut Edges<S, K, L, M, T>, person: &P) -> Status
where
    L::Incoming: Drop,
    L::Outgoing: Drop,
    ensures { HasRunCommand (λ s k. outside (S.input s) (S.faults s) (K.held k) (K.faults k)) L.listened
        (λ l. tally_with (L.at l) (L.accepted l) (L.over l)) L.faults M.ran M.watched M.carried T.moment edges.old edges.new
        (command_of_words (map string_bytes words.now)) result }
{
    let status = run_program(
        rt,
        alloc,
        words,
        &mut edges.source,
        &mut edges.sink,
        &mut edges.port,
        &mut edges.machine,
        person,
        &edges.clock,
    );
    person.explain(words, status, &edges.source, &edges.port);
    status
}

/// Tells that there was no memory to hold the words.
fn stop<S, K: Sink, L, M, T, P: Explain<S, L>>(
    alloc: Global,
    edges: &mut Edges<S, K, L, M, T>,
    person: &P,
) -> Status
    ensures stopped { HasNoMemoryForWords (K.held edges.old.sink) (K.held edges.new.sink) result }
    ensures source { edges.new.source ≡ edges.old.source }
    ensures port { edges.new.port ≡ edges.old.port }
    ensures machine { edges.new.machine ≡ edges.old.machine }
    ensures clock { edges.new.clock ≡ edges.old.clock }
{
    let status = tell(alloc, &mut edges.sink, Status::Want);
    person.explain(&[], status, &edges.source, &edges.port);
    status
}
