// The last line of settings of a member that are refused.
ghost use Rattle.std.specs.Prelude.{◌≡◌, ◌≢◌};
ghost use Rattle.group_program.specs.Member.{HasToldKey, key_line, status_key};

use edge_io::{Sink, SinkFault, write_all};
use group_config::MemberKey;
use group_types::ConfigKey;
use scenario_play::Status;
use scenario_play::status::config_line;

/// Writes the last line of settings that are refused at this key. The status stays where that write fails, and is `Want`
/// where there was no memory for it.
pub(crate) fn tell_key<K: Sink>(sink: &mut K, key: MemberKey) -> Status
    ensures told { HasToldKey key (K.held sink.old) (K.held sink.new) (K.faults sink.old) (K.faults sink.new) result }
    ensures named { result ≢ Status.BadWords }
    ensures read { result ≢ Status.ReadFault }
    ensures write { result ≢ Status.WriteFault }
    ensures accept { result ≢ Status.AcceptFault }
{
    match write_all(sink, key_line(key).as_bytes()) {
        Ok(()) => Status::BadConfig(status_key(key)),
        Err(SinkFault::Failed) => Status::BadConfig(status_key(key)),
        Err(SinkFault::Want) => Status::Want,
    }
}

/// The key that a status has for this one: `Unknown` where it has none.
fn status_key(key: MemberKey) -> ConfigKey
    ensures { result ≡ status_key key }
{
    match key {
        MemberKey::Syntax => ConfigKey::Syntax,
        MemberKey::Shape(key) => key,
        _ => ConfigKey::Unknown,
    }
}

fn key_line(key: MemberKey) -> &'static str
    ensures { result.now ≡ key_line key }
{
    match key {
        MemberKey::Syntax => config_line(ConfigKey::Syntax),
        MemberKey::Shape(key) => config_line(key),
        MemberKey::Unknown => config_line(ConfigKey::Unknown),
        MemberKey::Group => "fault: config group\n",
        MemberKey::Members => "fault: config members\n",
        MemberKey::MemberName => "fault: config members.name\n",
        MemberKey::MemberLink => "fault: config members.link\n",
        MemberKey::MemberClient => "fault: config members.client\n",
        MemberKey::MemberControl => "fault: config members.control\n",
        MemberKey::MemberUnknown => "fault: config members.unknown\n",
        MemberKey::Name => "fault: config name\n",
        MemberKey::Order => "fault: config order\n",
        MemberKey::Patience => "fault: config patience\n",
        MemberKey::OneWord => "fault: config one_word\n",
        MemberKey::Groups => "fault: config groups\n",
        MemberKey::Base => "fault: config base\n",
        MemberKey::Watch => "fault: config watch\n",
        MemberKey::WatchEtcd => "fault: config watch.etcd\n",
        MemberKey::WatchSeconds => "fault: config watch.seconds\n",
        MemberKey::WatchUnknown => "fault: config watch.unknown\n",
    }
}
