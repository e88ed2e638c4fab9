ghost use Rattle.std.specs.Prelude.{◌≡◌, ◌≢◌, IfOk, option_copied};
ghost use Rattle.edge_io.specs.Faults.{HasCauseOf, Rose};
ghost use Rattle.group_config.specs.MemberReading.{HasMembers};
ghost use Rattle.group_config.specs.Watching.{HasLease};
ghost use Rattle.group_config.specs.declared.fault.TextFault.TheVariants as text;
ghost use Rattle.scenario_play.specs.Outside.{outside};
ghost use Rattle.group_program.specs.Watching.{HasWatched, IsGivenWatchOr, IsWatched};
ghost use Rattle.group_program.specs.declared.member_stop.MemberStop.TheVariants.{Unread};

use crate::finding::{settings_or_tell, watch_or_tell};
use crate::member_line::tell_key;
use crate::member_run::MemberRun;
use crate::member_stop::MemberStop;
use crate::running::{refuse, status_of, status_of_text};
use edge_io::{Sink, Source};
use group_config::{MemberSettings, WatchSettings, read_text};
use group_server::Notice;
use member_machine::{Machine, Watcher};
use scenario_play::Status;
use scenario_play::tell::tell;
use std::alloc::Global;

/// Watches a member by the settings that the source gives, the one of this name where there is one, and then writes the last
/// line of the status.
pub(crate) fn watch_member<S: Source, K: Sink, M: Machine + Watcher, N: Notice>(
    alloc: Global,
    name: Option<&str>,
    source: &mut S,
    sink: &mut K,
    machine: &mut M,
    notice: &N,
) -> Status
    ensures watch { IsWatched M.watched machine.old machine.new (option_copied name.entry)
        (outside (S.input source.old) (S.faults source.old) (K.held sink.old) (K.faults sink.old))
        (outside (S.input source.new) (S.faults source.new) (K.held sink.new) (K.faults sink.new)) result }
    ensures named { result ≢ Status.BadWords }
    ensures read { result ≡ Status.ReadFault → Rose (S.faults source.old) (S.faults source.new) }
    ensures write { result ≢ Status.WriteFault }
    ensures accept { result ≢ Status.AcceptFault }
{
    match watch_by_settings(alloc, name, source, machine, notice) {
        Ok(run) => tell(alloc, sink, status_of(run)),
        Err(MemberStop::BadKey { key }) => tell_key(sink, key),
        Err(MemberStop::Unread { fault }) => tell(alloc, sink, status_of_text(fault)),
    }
}

/// Watches a member by the settings that the source gives. Where they are refused a person is told what is wrong, and by
/// the machine what is allowed.
fn watch_by_settings<S: Source, M: Machine + Watcher, N: Notice>(
    alloc: Global,
    name: Option<&str>,
    source: &mut S,
    machine: &mut M,
    notice: &N,
) -> Result<MemberRun, MemberStop>
    ensures ran { HasWatched M.watched machine.old machine.new (option_copied name.entry)
        (S.input source.old) (S.input source.new) result }
    ensures read { HasCauseOf (S.faults source.old) (S.faults source.new) result (Unread text.ReadFault) }
{
    match given(alloc, name, source, notice) {
        Ok((settings, watch)) => Ok(MemberRun {
            own: settings.own,
            end: machine.watch(&settings, &watch),
        }),
        Err(stop) => {
            refuse(machine, stop);
            Err(stop)
        }
    }
}

/// The settings that a source gives.
fn given<S: Source, N: Notice>(
    alloc: Global,
    name: Option<&str>,
    source: &mut S,
    notice: &N,
) -> Result<(MemberSettings, WatchSettings), MemberStop>
    ensures given { IsGivenWatchOr (option_copied name.entry) (S.input source.old) (S.input source.new) result }
    ensures members { IfOk result (λ given. HasMembers given.0) }
    ensures lease { IfOk result (λ given. HasLease given.1.seconds) }
    ensures read { HasCauseOf (S.faults source.old) (S.faults source.new) result (Unread text.ReadFault) }
{
    let text = read_text(alloc, source)?;
    let settings = settings_or_tell(alloc, &text, name, notice)?;
    let watch = watch_or_tell(alloc, &text, notice)?;
    Ok((settings, watch))
}
