use crate::json::{number_at, value_of};
use base64::engine::general_purpose::STANDARD;
use serde_json::Value;
use std::alloc::Global;

/// A key, its value, the revision at which it changed last, and the lease under which it is, 0 for none.
#[derive(Drop)]
pub struct Entry {
    key: String,
    value: String,
    revision: u64,
    lease: u64,
}

impl Entry {
    /// The key.
    pub fn key(&self) -> &str {
        self.key.as_str()
    }

    /// Its value.
    pub fn value(&self) -> &str {
        self.value.as_str()
    }

    /// The revision of its last change.
    pub fn revision(&self) -> u64 {
        self.revision
    }

    /// Its lease, if it has one.
    pub fn lease(&self) -> Option<u64> {
        if self.lease == 0 {
            None
        } else {
            Some(self.lease)
        }
    }
}

/// Keys with their values, as they were at one moment.
#[derive(Drop)]
pub struct Kept {
    entries: Vec<Entry>,
}

impl Kept {
    /// The entry of a key.
    pub fn find(&self, key: &str) -> Option<&Entry> {
        'entries: for entry in self.entries.as_slice() {
            if entry.key() == key {
                return Some(entry);
            }
        }
        None
    }
}

/// What a range holds.
pub fn entries_in(alloc: Global, body: &[u8]) -> Option<Kept> {
    let value = value_of(alloc, body)?;
    let _header = value.get("header")?;
    let mut entries = Vec::new(alloc);
    let Some(found) = value.get("kvs") else {
        return Some(Kept { entries });
    };
    'found: for each in found.as_array()?.as_slice() {
        entries.push(entry_of(alloc, each)?).ok()?;
    }
    Some(Kept { entries })
}

/// The entry that a value is.
fn entry_of(alloc: Global, value: &Value) -> Option<Entry> {
    let key = text_at(alloc, value, "key")?;
    let revision = number_at(value, "mod_revision")?;
    let lease = number_at(value, "lease").unwrap_or(0);
    let value = match value.get("value") {
        Some(_) => text_at(alloc, value, "value")?,
        None => String::new(alloc),
    };
    Some(Entry {
        key,
        value,
        revision,
        lease,
    })
}

/// The text at a key, which the gateway writes in base 64.
fn text_at(alloc: Global, value: &Value, key: &str) -> Option<String> {
    let coded = value.get(key)?.as_str()?;
    let bytes = STANDARD.decode(alloc, coded.as_bytes()).ok()?;
    String::from_utf8(bytes).ok()
}
