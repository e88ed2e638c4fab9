// The last line of settings of a carry that are refused.
ghost use Rattle.std.specs.Prelude.{◌≡◌, ◌≢◌};
ghost use Rattle.group_program.specs.Carrying.{HasToldCarryKey, carry_line, from_line, status_key, to_line};

use edge_io::{Sink, SinkFault, write_all};
use group_config::{CarryKey, MemberKey};
use group_types::ConfigKey;
use scenario_play::Status;

/// Writes the last line of settings that are refused at this key. The status stays where that write fails, and is `Want`
/// where there was no memory for it.
pub(crate) fn tell_carry_key<K: Sink>(sink: &mut K, key: CarryKey) -> Status
    ensures told { HasToldCarryKey key (K.held sink.old) (K.held sink.new) (K.faults sink.old) (K.faults sink.new) result }
    ensures named { result ≢ Status.BadWords }
    ensures read { result ≢ Status.ReadFault }
    ensures write { result ≢ Status.WriteFault }
    ensures accept { result ≢ Status.AcceptFault }
{
    match write_all(sink, carry_line(key).as_bytes()) {
        Ok(()) => Status::BadConfig(status_key(key)),
        Err(SinkFault::Failed) => Status::BadConfig(status_key(key)),
        Err(SinkFault::Want) => Status::Want,
    }
}

/// The key that a status has for this one: `Unknown` where it has none.
fn status_key(key: CarryKey) -> ConfigKey
    ensures { result ≡ status_key key }
{
    match key {
        CarryKey::Syntax => ConfigKey::Syntax,
        CarryKey::K => ConfigKey::K,
        _ => ConfigKey::Unknown,
    }
}

fn carry_line(key: CarryKey) -> &'static str
    ensures { result.now ≡ carry_line key }
{
    match key {
        CarryKey::Syntax => "fault: config syntax\n",
        CarryKey::K => "fault: config k\n",
        CarryKey::From(key) => from_line(key),
        CarryKey::To(key) => to_line(key),
        CarryKey::Lanes => "fault: config lanes\n",
        CarryKey::Unknown => "fault: config unknown\n",
    }
}

/// The same of the old group's members.
fn from_line(key: MemberKey) -> &'static str
    ensures { result.now ≡ from_line key }
{
    match key {
        MemberKey::MemberName => "fault: config from.name\n",
        MemberKey::MemberLink => "fault: config from.link\n",
        MemberKey::MemberClient => "fault: config from.client\n",
        MemberKey::MemberControl => "fault: config from.control\n",
        MemberKey::MemberUnknown => "fault: config from.unknown\n",
        _ => "fault: config from\n",
    }
}

/// The same of the new group's members.
fn to_line(key: MemberKey) -> &'static str
    ensures { result.now ≡ to_line key }
{
    match key {
        MemberKey::MemberName => "fault: config to.name\n",
        MemberKey::MemberLink => "fault: config to.link\n",
        MemberKey::MemberClient => "fault: config to.client\n",
        MemberKey::MemberControl => "fault: config to.control\n",
        MemberKey::MemberUnknown => "fault: config to.unknown\n",
        _ => "fault: config to\n",
    }
}
