ghost use Rattle.std.specs.Prelude.{◌≡◌, ◌≢◌, IfOk, option_copied};
ghost use Rattle.edge_io.specs.Faults.{HasCauseOf, Rose};
ghost use Rattle.group_config.specs.MemberReading.{HasMembers};
ghost use Rattle.group_config.specs.declared.fault.TextFault.TheVariants as text;
ghost use Rattle.scenario_play.specs.Outside.{outside};
ghost use Rattle.group_program.specs.Member.{HasRunMember, IsGivenMemberOr, IsMember, status_of, status_of_text};
ghost use Rattle.group_program.specs.declared.member_stop.MemberStop.TheVariants.{Unread};

use crate::finding::settings_or_tell;
use crate::member_line::tell_key;
use crate::member_run::MemberRun;
use crate::member_stop::MemberStop;
use edge_io::{Sink, Source};
use group_config::{MemberSettings, TextFault, read_text};
use group_server::Notice;
use group_types::ConfigKey;
use member_machine::{Machine, MemberEnd};
use scenario_play::Status;
use scenario_play::tell::tell;
use std::alloc::Global;

/// Runs a member by the settings that the source gives, the one of this name where there is one, and then writes the last
/// line of the status.
pub(crate) fn run_member<S: Source, K: Sink, M: Machine, N: Notice>(
    alloc: Global,
    name: Option<&str>,
    source: &mut S,
    sink: &mut K,
    machine: &mut M,
    notice: &N,
) -> Status
    ensures member { IsMember M.ran machine.old machine.new (option_copied name.entry)
        (outside (S.input source.old) (S.faults source.old) (K.held sink.old) (K.faults sink.old))
        (outside (S.input source.new) (S.faults source.new) (K.held sink.new) (K.faults sink.new)) result }
    ensures named { result ≢ Status.BadWords }
    ensures read { result ≡ Status.ReadFault → Rose (S.faults source.old) (S.faults source.new) }
    ensures write { result ≢ Status.WriteFault }
    ensures accept { result ≢ Status.AcceptFault }
{
    match run_by_settings(alloc, name, source, machine, notice) {
        Ok(run) => tell(alloc, sink, status_of(run)),
        Err(MemberStop::BadKey { key }) => tell_key(sink, key),
        Err(MemberStop::Unread { fault }) => tell(alloc, sink, status_of_text(fault)),
    }
}

/// Runs a member by the settings that the source gives. Where they are refused a person is told what is wrong, and by the
/// machine what is allowed.
fn run_by_settings<S: Source, M: Machine, N: Notice>(
    alloc: Global,
    name: Option<&str>,
    source: &mut S,
    machine: &mut M,
    notice: &N,
) -> Result<MemberRun, MemberStop>
    ensures ran { HasRunMember M.ran machine.old machine.new (option_copied name.entry)
        (S.input source.old) (S.input source.new) result }
    ensures read { HasCauseOf (S.faults source.old) (S.faults source.new) result (Unread text.ReadFault) }
{
    match given(alloc, name, source, notice) {
        Ok(settings) => Ok(MemberRun {
            own: settings.own,
            end: machine.run(&settings),
        }),
        Err(stop) => {
            refuse(machine, stop);
            Err(stop)
        }
    }
}

/// The settings that a source gives.
fn given<S: Source, N: Notice>(
    alloc: Global,
    name: Option<&str>,
    source: &mut S,
    notice: &N,
) -> Result<MemberSettings, MemberStop>
    ensures given { IsGivenMemberOr (option_copied name.entry) (S.input source.old) (S.input source.new) result }
    ensures members { IfOk result HasMembers }
    ensures read { HasCauseOf (S.faults source.old) (S.faults source.new) result (Unread text.ReadFault) }
{
    let text = read_text(alloc, source)?;
    Ok(settings_or_tell(alloc, &text, name, notice)?)
}

/// Tells a person what is allowed at the key at which settings are refused.
pub(crate) fn refuse<M: Machine>(machine: &M, stop: MemberStop) {
    if let MemberStop::BadKey { key } = stop {
        machine.refuse(key);
    }
}

/// The status of a run that ended so.
pub(crate) fn status_of(run: MemberRun) -> Status
    ensures { result ≡ status_of run }
{
    match run.end {
        MemberEnd::Ended => Status::Done,
        MemberEnd::Refused => Status::Refused(u64::from(run.own)),
        MemberEnd::Misfit { peer } => Status::BadFrame(u64::from(peer)),
        MemberEnd::LinkFault => Status::Cut,
        MemberEnd::AddressFault => Status::BadConfig(ConfigKey::Address),
        MemberEnd::Want => Status::Want,
    }
}

/// The status where no settings could be looked at.
pub(crate) fn status_of_text(fault: TextFault) -> Status
    ensures { result ≡ status_of_text fault }
{
    match fault {
        TextFault::TooLong => Status::TooLong,
        TextFault::ReadFault => Status::ReadFault,
        TextFault::Want => Status::Want,
    }
}
