use crate::known::unknown_in;
use crate::values::value_at;
use std::alloc::{AllocError, Global};
use std::fmt;
use toml::{Table, Value};

/// The most characters of a value that are shown.
const MOST_SHOWN: usize = 40;

/// What is wrong with settings at the key at which they are refused, for a person. What is allowed there is told by the key.
#[derive(Debug, Drop)]
pub struct Finding {
    text: String,
}

impl Finding {
    pub(crate) fn new(text: String) -> Finding {
        Finding { text }
    }

    /// At which line a text stops to be TOML, and why.
    pub(crate) fn no_toml(
        alloc: Global,
        text: &[u8],
        error: &toml::de::Error,
    ) -> Result<Finding, AllocError> {
        let start = error.span().map_or(0, |range| range.start);
        let line = text
            .iter()
            .take(start)
            .filter(|byte| **byte == b'\n')
            .count()
            .saturating_add(1);
        let why = error.message();
        Ok(Finding::new(format!(in alloc; "line {line} is no TOML: {why}")?))
    }

    /// That nothing is at this key of a table, or what is there. `of` tells which table it is.
    pub(crate) fn at_key(
        alloc: Global,
        table: &Table,
        key: &str,
        of: &str,
    ) -> Result<Finding, AllocError> {
        Ok(Finding::new(match value_at(table, key) {
            None => format!(in alloc; "{key}{of} is missing")?,
            Some(value) => {
                let shown = shown(alloc, value)?;
                format!(in alloc; "{key}{of} is wrong: {shown}")?
            }
        }))
    }

    /// The first key of a table that is none of these.
    pub(crate) fn unknown(
        alloc: Global,
        table: &Table,
        keys: &[&str],
        of: &str,
    ) -> Result<Finding, AllocError> {
        let key = unknown_in(table, keys).unwrap_or("");
        Ok(Finding::new(format!(in alloc; "{key:?}{of} is no key")?))
    }
}

impl fmt::Display for Finding {
    fn fmt<W: fmt::Write>(&self, f: &mut fmt::Formatter<W>) -> fmt::Result {
        f.write_str(&self.text)
    }
}

/// The front of a value's text.
fn shown(alloc: Global, value: &Value) -> Result<String, AllocError> {
    let text = value.to_string(alloc)?;
    let mut front = String::new(alloc);
    for letter in text.chars().take(MOST_SHOWN) {
        front.push(if letter.is_control() { ' ' } else { letter })?;
    }
    if front.len() < text.len() {
        front.push_str("..")?;
    }
    Ok(front)
}
