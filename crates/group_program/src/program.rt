ghost use Rattle.std.specs.Prelude.{◌≡◌, ◌≢◌, ◌⊎◌, ℕ, List, Option, map, option_copied, Some, None};
ghost use Rattle.std.specs.String.{string_bytes};
ghost use Rattle.cluster_play.specs.Language.{cluster_scripts};
ghost use Rattle.command_line.specs.Words.{command_of_words};
ghost use Rattle.edge_io.specs.Faults.{Rose};
ghost use Rattle.regroup_play.specs.Language.{era_scripts};
ghost use Rattle.group_server.specs.Service.{tally_with};
ghost use Rattle.group_types.specs.Dimensions.{Dimensions};
ghost use Rattle.group_types.specs.Shape.{IsShape};
ghost use Rattle.scenario_play.specs.Language.{group_scripts};
ghost use Rattle.scenario_play.specs.Outside.{outside};
ghost use Rattle.scenario_play.specs.Played.{HasPlayedWhole};
ghost use Rattle.group_program.specs.Carrying.{IsCarry};
ghost use Rattle.group_program.specs.Member.{IsMember};
ghost use Rattle.group_program.specs.Program.{HasCarriedOut, HasNoMemoryForWords};
ghost use Rattle.group_program.specs.Serving.{HasServedWhole};
ghost use Rattle.group_program.specs.Watching.{IsWatched};
ghost use Rattle.group_program.specs.Words.{ReadsNothing, RunsNoMember};

use crate::carrying::carry_group;
use crate::listing::list_frames;
use crate::running::run_member;
use crate::serving::serve_session;
use crate::serving_group::serve_by_settings;
use crate::verifying::judge;
use crate::watching::watch_member;
use cluster_play::play_groups;
use command_line::{Command, Name, WordsFault, read_words};
use edge_io::{Clock, Sink, Source};
use group_server::{Notice, ReadyListener};
use member_machine::{Carrier, Machine, Watcher};
use regroup_play::play_regroup;
use scenario_play::Status;
use scenario_play::make::make;
use scenario_play::play::play;
use scenario_play::tell::tell;
use scenario_play::trial::trial;
use std::alloc::Global;
use std::sync::Wait;
use std::thread::Threads;

/// Runs the command that the words after the program's name ask for: `play`, `play_groups`, `play_regroup`, `verify`,
/// `session`, `serve`, `member`, `watch`, `carry`, `make`, `trial` or `frames`. Before the first connection of `serve` the notice tells what
/// is served, and of settings that are refused what is wrong with them. `member`, `watch` and `carry` run on the machine.
pub fn run_program<
    R: Threads + Wait + Sync,
    S: Source,
    K: Sink,
    L: ReadyListener,
    M: Machine + Watcher + Carrier,
    N: Notice,
    T: Clock,
>(
    rt: &R,
    alloc: Global,
    words: &[String],
    source: &mut S,
    sink: &mut K,
    listener: &mut L,
    machine: &mut M,
    notice: &N,
    clock: &T,
) -> Status
where
    L::Incoming: Drop,
    L::Outgoing: Drop,
    ensures ran { HasCarriedOut L.listened (λ l. tally_with (L.at l) (L.accepted l) (L.over l)) listener.old listener.new
        (command_of_words (map string_bytes words.now)) (T.moment clock.now)
        (outside (S.input source.old) (S.faults source.old) (K.held sink.old) (K.faults sink.old))
        (outside (S.input source.new) (S.faults source.new) (K.held sink.new) (K.faults sink.new)) result
        ⊎ (HasNoMemoryForWords (K.held sink.old) (K.held sink.new) result × (source.new ≡ source.old)) }
    ensures promises { command_of_words (map string_bytes words.now) ≡ Some Command.Play → result ≡ Status.Done
        → HasPlayedWhole group_scripts (S.input source.old) (S.input source.new) (K.held sink.old) (K.held sink.new) }
    ensures cluster_promises { command_of_words (map string_bytes words.now) ≡ Some Command.PlayGroups → result ≡ Status.Done
        → HasPlayedWhole cluster_scripts (S.input source.old) (S.input source.new) (K.held sink.old) (K.held sink.new) }
    ensures era_promises { command_of_words (map string_bytes words.now) ≡ Some Command.PlayRegroup → result ≡ Status.Done
        → HasPlayedWhole era_scripts (S.input source.old) (S.input source.new) (K.held sink.old) (K.held sink.new) }
    ensures serves { command_of_words (map string_bytes words.now) ≡ Some Command.Serve → result ≡ Status.Done
        → HasServedWhole L.listened (λ l. tally_with (L.at l) (L.accepted l) (L.over l)) listener.old listener.new
        (outside (S.input source.old) (S.faults source.old) (K.held sink.old) (K.faults sink.old))
        (outside (S.input source.new) (S.faults source.new) (K.held sink.new) (K.faults sink.new)) }
    ensures member { (name : Option (List ℕ)) → command_of_words (map string_bytes words.now) ≡ Some (Command.Member name)
        → IsMember M.ran machine.old machine.new name
        (outside (S.input source.old) (S.faults source.old) (K.held sink.old) (K.faults sink.old))
        (outside (S.input source.new) (S.faults source.new) (K.held sink.new) (K.faults sink.new)) result
        ⊎ (HasNoMemoryForWords (K.held sink.old) (K.held sink.new) result × (source.new ≡ source.old) × (machine.new ≡ machine.old)) }
    ensures watch { (name : Option (List ℕ)) → command_of_words (map string_bytes words.now) ≡ Some (Command.Watch name)
        → IsWatched M.watched machine.old machine.new name
        (outside (S.input source.old) (S.faults source.old) (K.held sink.old) (K.faults sink.old))
        (outside (S.input source.new) (S.faults source.new) (K.held sink.new) (K.faults sink.new)) result
        ⊎ (HasNoMemoryForWords (K.held sink.old) (K.held sink.new) result × (source.new ≡ source.old) × (machine.new ≡ machine.old)) }
    ensures carry { command_of_words (map string_bytes words.now) ≡ Some Command.Carry
        → IsCarry M.carried machine.old machine.new
        (outside (S.input source.old) (S.faults source.old) (K.held sink.old) (K.faults sink.old))
        (outside (S.input source.new) (S.faults source.new) (K.held sink.new) (K.faults sink.new)) result
        ⊎ (HasNoMemoryForWords (K.held sink.old) (K.held sink.new) result × (source.new ≡ source.old) × (machine.new ≡ machine.old)) }
    ensures bad_words { result ≡ Status.BadWords → command_of_words (map string_bytes words.now) ≡ None }
    ensures read { result ≡ Status.ReadFault → Rose (S.faults source.old) (S.faults source.new) }
    ensures write { result ≡ Status.WriteFault → Rose (K.faults sink.old) (K.faults sink.new) }
    ensures accept { result ≡ Status.AcceptFault → Rose (L.faults listener.old) (L.faults listener.new) }
    ensures unread { ReadsNothing (command_of_words (map string_bytes words.now)) → source.new ≡ source.old }
    ensures unshaped { (d : Dimensions) → command_of_words (map string_bytes words.now)
        ≡ Some (Command.Session d.k d.m d.blocks d.block) → ¬ (IsShape d) → source.new ≡ source.old }
    ensures listener { command_of_words (map string_bytes words.now) ≢ Some Command.Serve → listener.new ≡ listener.old }
    ensures machine { RunsNoMember (command_of_words (map string_bytes words.now)) → machine.new ≡ machine.old }
{
    match read_words(alloc, words) {
        Ok(command) => run_command(
            rt, alloc, command, source, sink, listener, machine, notice, clock,
        ),
        Err(WordsFault::BadWords) => tell(alloc, sink, Status::BadWords),
        Err(WordsFault::Want) => tell(alloc, sink, Status::Want),
    }
}

/// Runs a command.
fn run_command<
    R: Threads + Wait + Sync,
    S: Source,
    K: Sink,
    L: ReadyListener,
    M: Machine + Watcher + Carrier,
    N: Notice,
    T: Clock,
>(
    rt: &R,
    alloc: Global,
    command: Command,
    source: &mut S,
    sink: &mut K,
    listener: &mut L,
    machine: &mut M,
    notice: &N,
    clock: &T,
) -> Status
where
    L::Incoming: Drop,
    L::Outgoing: Drop,
    ensures ran { HasCarriedOut L.listened (λ l. tally_with (L.at l) (L.accepted l) (L.over l)) listener.old listener.new
        (Some command) (T.moment clock.now)
        (outside (S.input source.old) (S.faults source.old) (K.held sink.old) (K.faults sink.old))
        (outside (S.input source.new) (S.faults source.new) (K.held sink.new) (K.faults sink.new)) result }
    ensures named { result ≢ Status.BadWords }
    ensures read { result ≡ Status.ReadFault → Rose (S.faults source.old) (S.faults source.new) }
    ensures write { result ≡ Status.WriteFault → Rose (K.faults sink.old) (K.faults sink.new) }
    ensures accept { result ≡ Status.AcceptFault → Rose (L.faults listener.old) (L.faults listener.new) }
    ensures unread { ReadsNothing (Some command) → source.new ≡ source.old }
    ensures unshaped { (d : Dimensions) → command ≡ Command.Session d.k d.m d.blocks d.block → ¬ (IsShape d)
        → source.new ≡ source.old }
    ensures listener { command ≢ Command.Serve → listener.new ≡ listener.old }
    ensures member { (name : Option (List ℕ)) → command ≡ Command.Member name
        → IsMember M.ran machine.old machine.new name
        (outside (S.input source.old) (S.faults source.old) (K.held sink.old) (K.faults sink.old))
        (outside (S.input source.new) (S.faults source.new) (K.held sink.new) (K.faults sink.new)) result }
    ensures watch { (name : Option (List ℕ)) → command ≡ Command.Watch name
        → IsWatched M.watched machine.old machine.new name
        (outside (S.input source.old) (S.faults source.old) (K.held sink.old) (K.faults sink.old))
        (outside (S.input source.new) (S.faults source.new) (K.held sink.new) (K.faults sink.new)) result }
    ensures carry { command ≡ Command.Carry
        → IsCarry M.carried machine.old machine.new
        (outside (S.input source.old) (S.faults source.old) (K.held sink.old) (K.faults sink.old))
        (outside (S.input source.new) (S.faults source.new) (K.held sink.new) (K.faults sink.new)) result }
    ensures machine { RunsNoMember (Some command) → machine.new ≡ machine.old }
{
    match command {
        Command::Play => play(alloc, source, sink),
        Command::PlayGroups => play_groups(alloc, source, sink),
        Command::PlayRegroup => play_regroup(alloc, source, sink),
        Command::Verify => judge(alloc, source, sink),
        Command::Make { number } => make(alloc, number, sink),
        Command::Trial { number } => trial(alloc, number, sink),
        Command::Frames => list_frames(alloc, source, sink),
        Command::Serve => serve_by_settings(rt, alloc, source, sink, listener, notice, clock),
        Command::Member { name } => run_member(
            alloc,
            text_of(&name),
            source,
            sink,
            machine,
            notice,
        ),
        Command::Watch { name } => watch_member(
            alloc,
            text_of(&name),
            source,
            sink,
            machine,
            notice,
        ),
        Command::Carry => carry_group(alloc, source, sink, machine, notice),
        Command::Session {
            k,
            m,
            blocks,
            block,
        } => serve_session(alloc, k, m, blocks, block, source, sink, clock),
    }
}

/// The text of a name, where there is one.
fn text_of(name: &Option<Name>) -> Option<&str>
    ensures { option_copied result ≡ name.now }
{
    match name {
        Some(name) => Some(name.as_str()),
        None => None,
    }
}
