ghost use Rattle.std.specs.Prelude.{◌≡◌, ◌≢◌};
ghost use Rattle.edge_io.specs.Faults.{HasCauseOf, Rose};
ghost use Rattle.group_config.specs.Carrying.{CarryComesOf};
ghost use Rattle.group_config.specs.declared.fault.TextFault.TheVariants as text;
ghost use Rattle.scenario_play.specs.Outside.{outside};
ghost use Rattle.group_program.specs.Carrying.{HasCarriedGroup, IsCarry, IsGivenCarryOr, status_of_carry};
ghost use Rattle.group_program.specs.declared.carry_stop.CarryStop.TheVariants.{Unread};

use crate::carry_line::tell_carry_key;
use crate::carry_stop::CarryStop;
use crate::running::status_of_text;
use edge_io::{Sink, Source};
use group_config::{CarryKeyFault, CarrySettings, find_carry, read_carry_settings, read_text};
use group_server::Notice;
use member_machine::{Carrier, CarryEnd};
use scenario_play::Status;
use scenario_play::tell::tell;
use std::alloc::Global;

/// Carries a group's items by the settings that the source gives, and then writes the last line of the status.
pub(crate) fn carry_group<S: Source, K: Sink, M: Carrier, N: Notice>(
    alloc: Global,
    source: &mut S,
    sink: &mut K,
    machine: &mut M,
    notice: &N,
) -> Status
    ensures carry { IsCarry M.carried machine.old machine.new
        (outside (S.input source.old) (S.faults source.old) (K.held sink.old) (K.faults sink.old))
        (outside (S.input source.new) (S.faults source.new) (K.held sink.new) (K.faults sink.new)) result }
    ensures named { result ≢ Status.BadWords }
    ensures read { result ≡ Status.ReadFault → Rose (S.faults source.old) (S.faults source.new) }
    ensures write { result ≢ Status.WriteFault }
    ensures accept { result ≢ Status.AcceptFault }
{
    match carry_by_settings(alloc, source, machine, notice) {
        Ok(end) => tell(alloc, sink, status_of_carry(end)),
        Err(CarryStop::BadKey { key }) => tell_carry_key(sink, key),
        Err(CarryStop::Unread { fault }) => tell(alloc, sink, status_of_text(fault)),
    }
}

/// Carries by the settings that the source gives. Where they are refused a person is told what is wrong, and by the machine
/// what is allowed.
fn carry_by_settings<S: Source, M: Carrier, N: Notice>(
    alloc: Global,
    source: &mut S,
    machine: &mut M,
    notice: &N,
) -> Result<CarryEnd, CarryStop>
    ensures ran { HasCarriedGroup M.carried machine.old machine.new (S.input source.old) (S.input source.new) result }
    ensures read { HasCauseOf (S.faults source.old) (S.faults source.new) result (Unread text.ReadFault) }
{
    match given(alloc, source, notice) {
        Ok(settings) => Ok(machine.carry(&settings)),
        Err(stop) => {
            refuse(machine, stop);
            Err(stop)
        }
    }
}

/// The settings that a source gives.
fn given<S: Source, N: Notice>(
    alloc: Global,
    source: &mut S,
    notice: &N,
) -> Result<CarrySettings, CarryStop>
    ensures given { IsGivenCarryOr (S.input source.old) (S.input source.new) result }
    ensures read { HasCauseOf (S.faults source.old) (S.faults source.new) result (Unread text.ReadFault) }
{
    let text = read_text(alloc, source)?;
    Ok(settings_or_tell(alloc, &text, notice)?)
}

/// The settings that a text gives. Where it gives none a person is told what is wrong with it.
fn settings_or_tell<N: Notice>(
    alloc: Global,
    text: &[u8],
    notice: &N,
) -> Result<CarrySettings, CarryKeyFault>
    ensures { CarryComesOf text.now result }
{
    let read = read_carry_settings(alloc, text);
    if let Err(CarryKeyFault::BadKey { key }) = &read {
        if let Ok(finding) = find_carry(alloc, text, *key) {
            notice.refuse(&finding);
        }
    }
    read
}

/// Tells a person what is allowed at the key at which settings are refused.
fn refuse<M: Carrier>(machine: &M, stop: CarryStop) {
    if let CarryStop::BadKey { key } = stop {
        machine.refuse_carry(key);
    }
}

/// The status of a carry that ended so.
fn status_of_carry(end: CarryEnd) -> Status
    ensures { result ≡ status_of_carry end }
{
    match end {
        CarryEnd::Carried { .. } => Status::Done,
        CarryEnd::Stopped => Status::Cut,
        CarryEnd::Want => Status::Want,
    }
}
