ghost use Rattle.std.specs.Prelude.{◌≤◌, IfOk};
ghost use Rattle.toml.specs.View.{table_view};
ghost use Rattle.group_config.specs.MemberReading.{IsMemberOutcome};
ghost use Rattle.group_config.specs.Watching.{HasLease, WatchComesOf, watch_in, watch_of};

use crate::known::all_known_in;
use crate::member_entries::bad;
use crate::member_fault::MemberFault;
use crate::member_key::MemberKey;
use crate::values::{number_or, value_at};
use crate::watch_settings::WatchSettings;
use crate::watch_values::{etcd_of, table_of};
use std::alloc::Global;
use toml::Table;

/// The keys of the table watch.
pub(crate) const WATCH_KEYS: [&str; 2] = ["etcd", "seconds"];

/// Reads how a member is watched, which its settings say in the table watch. A key that is wrong is told by the first check
/// that fails: the text is TOML; then watch, and its etcd and seconds, each there if it is required, of its kind and within
/// its range; then no other key of that table.
pub fn read_watch_settings(alloc: Global, text: &[u8]) -> Result<WatchSettings, MemberFault>
    ensures comes { WatchComesOf text.now result }
    ensures lease { IfOk result (λ s. HasLease s.seconds) }
{
    match toml::table_from_slice(alloc, text) {
        Ok(table) => watch_of(alloc, &table),
        Err(error) if error.is_memory() => Err(MemberFault::Want),
        Err(_) => Err(bad(MemberKey::Syntax)),
    }
}

/// What a table's own table says.
fn watch_of(alloc: Global, table: &Table) -> Result<WatchSettings, MemberFault>
    ensures told { IsMemberOutcome (watch_of (table_view table.now)) result }
    ensures lease { IfOk result (λ s. HasLease s.seconds) }
{
    match table_of(value_at(table, "watch")) {
        Some(watch) => watch_in(alloc, watch),
        None => Err(bad(MemberKey::Watch)),
    }
}

/// What that table says.
fn watch_in(alloc: Global, watch: &Table) -> Result<WatchSettings, MemberFault>
    ensures told { IsMemberOutcome (watch_in (table_view watch.now)) result }
    ensures lease { IfOk result (λ s. HasLease s.seconds) }
{
    let Some(etcd) = etcd_of(alloc, value_at(watch, "etcd"))? else {
        return Err(bad(MemberKey::WatchEtcd));
    };
    let Some(seconds) = number_or(value_at(watch, "seconds"), 3, 2, 60) else {
        return Err(bad(MemberKey::WatchSeconds));
    };
    if !all_known_in(watch, &WATCH_KEYS) {
        return Err(bad(MemberKey::WatchUnknown));
    }
    Ok(WatchSettings {
        etcd,
        seconds: seconds as u32,
    })
}
