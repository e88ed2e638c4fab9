// What is wrong with the settings of a carry.
use crate::carry_key::CarryKey;
use crate::carry_reading::CARRY_KEYS;
use crate::finding::Finding;
use crate::finding_entry::{find_entry, find_list};
use crate::member_key::MemberKey;
use std::alloc::{AllocError, Global};
use toml::Table;

/// Finds what is wrong with the settings of a carry that are refused at this key.
pub fn find_carry(alloc: Global, text: &[u8], key: CarryKey) -> Result<Finding, AllocError> {
    match toml::table_from_slice(alloc, text) {
        Ok(table) => find_in(alloc, &table, key),
        Err(error) if error.is_memory() => Err(AllocError),
        Err(error) => Finding::no_toml(alloc, text, &error),
    }
}

fn find_in(alloc: Global, table: &Table, key: CarryKey) -> Result<Finding, AllocError> {
    match key {
        CarryKey::From(key) => find_group(alloc, table, "from", key),
        CarryKey::To(key) => find_group(alloc, table, "to", key),
        CarryKey::Unknown => Finding::unknown(alloc, table, &CARRY_KEYS, ""),
        _ => Finding::at_key(alloc, table, &key.to_string(alloc)?, ""),
    }
}

/// What is wrong with the members of one of both groups.
fn find_group(
    alloc: Global,
    table: &Table,
    list: &str,
    key: MemberKey,
) -> Result<Finding, AllocError> {
    match key {
        MemberKey::Members => find_list(alloc, table, list),
        _ => find_entry(alloc, table, list, key),
    }
}
