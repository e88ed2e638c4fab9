// What is wrong with the settings of a member.
use crate::finding::Finding;
use crate::finding_entry::{find_entry, find_list};
use crate::finding_served::find_at;
use crate::member_key::MemberKey;
use crate::member_reading::MEMBER_KEYS;
use crate::values::value_at;
use crate::watch_reading::WATCH_KEYS;
use crate::watch_values::table_of;
use std::alloc::{AllocError, Global};
use toml::Table;

/// Finds what is wrong with the settings of a member, or of how it is watched, that are refused at this key. The member's
/// name is the word where there is one.
pub fn find_member(
    alloc: Global,
    text: &[u8],
    word: Option<&str>,
    key: MemberKey,
) -> Result<Finding, AllocError> {
    match toml::table_from_slice(alloc, text) {
        Ok(table) => find_in(alloc, &table, word, key),
        Err(error) if error.is_memory() => Err(AllocError),
        Err(error) => Finding::no_toml(alloc, text, &error),
    }
}

fn find_in(
    alloc: Global,
    table: &Table,
    word: Option<&str>,
    key: MemberKey,
) -> Result<Finding, AllocError> {
    match key {
        MemberKey::Shape(key) => find_at(alloc, table, key),
        MemberKey::Unknown => Finding::unknown(alloc, table, &MEMBER_KEYS, ""),
        MemberKey::Name => find_name(alloc, table, word),
        MemberKey::Members => find_list(alloc, table, "members"),
        MemberKey::MemberName
        | MemberKey::MemberLink
        | MemberKey::MemberClient
        | MemberKey::MemberControl
        | MemberKey::MemberUnknown => find_entry(alloc, table, "members", key),
        MemberKey::WatchEtcd | MemberKey::WatchSeconds | MemberKey::WatchUnknown => {
            find_watch(alloc, table, key)
        }
        _ => Finding::at_key(alloc, table, &key.to_string(alloc)?, ""),
    }
}

/// That no member has the name of the word, or else of the table.
fn find_name(alloc: Global, table: &Table, word: Option<&str>) -> Result<Finding, AllocError> {
    match word {
        Some(word) => Ok(Finding::new(format!(in alloc; "no member has the name {word:?}")?)),
        None => Finding::at_key(alloc, table, "name", ""),
    }
}

/// What is wrong in the table watch.
fn find_watch(alloc: Global, table: &Table, key: MemberKey) -> Result<Finding, AllocError> {
    match (table_of(value_at(table, "watch")), key) {
        (Some(watch), MemberKey::WatchEtcd) => Finding::at_key(alloc, watch, "etcd", " of watch"),
        (Some(watch), MemberKey::WatchSeconds) => {
            Finding::at_key(alloc, watch, "seconds", " of watch")
        }
        (Some(watch), _) => Finding::unknown(alloc, watch, &WATCH_KEYS, " of watch"),
        (None, _) => Finding::at_key(alloc, table, "watch", ""),
    }
}
