// What is wrong with the settings of a served group.
use crate::finding::Finding;
use crate::reading::KEYS;
use group_types::ConfigKey;
use std::alloc::{AllocError, Global};
use toml::Table;

/// Finds what is wrong with the settings of a served group that are refused at this key.
pub fn find_served(alloc: Global, text: &[u8], key: ConfigKey) -> Result<Finding, AllocError> {
    match toml::table_from_slice(alloc, text) {
        Ok(table) => find_at(alloc, &table, key),
        Err(error) if error.is_memory() => Err(AllocError),
        Err(error) => Finding::no_toml(alloc, text, &error),
    }
}

/// The same in the table of the text.
pub(crate) fn find_at(alloc: Global, table: &Table, key: ConfigKey) -> Result<Finding, AllocError> {
    if key == ConfigKey::Unknown {
        return Finding::unknown(alloc, table, &KEYS, "");
    }
    let name = key.to_string(alloc)?;
    Finding::at_key(alloc, table, &name, "")
}
