use serde_json::Value;
use std::alloc::Global;
use std::str::from_utf8;

/// The value that a text is.
pub(crate) fn value_of(alloc: Global, text: &[u8]) -> Option<Value> {
    let text = from_utf8(text).ok()?;
    Value::from_str(alloc, text).ok()
}

/// The number at a key, which the gateway writes as a text.
pub(crate) fn number_at(value: &Value, key: &str) -> Option<u64> {
    value.get(key)?.as_str()?.parse().ok()
}
