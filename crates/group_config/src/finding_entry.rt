// What is wrong with the list of the members in the settings of one, or with one of them.
use crate::finding::Finding;
use crate::known::all_known_in;
use crate::member_entries::{ENTRY_KEYS, items_of};
use crate::member_key::MemberKey;
use crate::member_values::name_of;
use crate::values::{short_text_of, value_at};
use std::alloc::{AllocError, Global};
use toml::{Table, Value};

/// What is wrong with the list: that it is none, which value of it is no table, or how many there are.
pub(crate) fn find_list(alloc: Global, table: &Table, list: &str) -> Result<Finding, AllocError> {
    let Some(items) = items_of(value_at(table, list)) else {
        return Finding::at_key(alloc, table, list, "");
    };
    let count = items.len();
    let tables = items.iter().take_while(|item| item.is_table()).count();
    Ok(Finding::new(if tables < count {
        let number = tables.saturating_add(1);
        format!(in alloc; "member {number} is no table")?
    } else {
        format!(in alloc; "{list} has {count} tables")?
    }))
}

/// What is wrong with the first of the members that is refused at this key of its own.
pub(crate) fn find_entry(
    alloc: Global,
    table: &Table,
    list: &str,
    key: MemberKey,
) -> Result<Finding, AllocError> {
    if let Some(items) = items_of(value_at(table, list)) {
        for (at, item) in items.iter().enumerate() {
            match item.as_table() {
                Some(entry) if is_refused(entry, key) => {
                    return find_key(alloc, entry, key, &place_of(alloc, entry, at)?);
                }
                _ => {}
            }
        }
        return find_twice(alloc, items.as_slice());
    }
    Finding::at_key(alloc, table, list, "")
}

fn is_refused(entry: &Table, key: MemberKey) -> bool {
    match key {
        MemberKey::MemberUnknown => !all_known_in(entry, &ENTRY_KEYS),
        MemberKey::MemberName => name_of(value_at(entry, "name")).is_none(),
        _ => short_text_of(value_at(entry, own_key(key))).is_none(),
    }
}

/// The key that a member has in its own table.
fn own_key(key: MemberKey) -> &'static str {
    match key {
        MemberKey::MemberLink => "link",
        MemberKey::MemberClient => "client",
        MemberKey::MemberControl => "control",
        _ => "name",
    }
}

/// What is wrong with a member at this key.
fn find_key(alloc: Global, entry: &Table, key: MemberKey, of: &str) -> Result<Finding, AllocError> {
    match key {
        MemberKey::MemberUnknown => Finding::unknown(alloc, entry, &ENTRY_KEYS, of),
        _ => Finding::at_key(alloc, entry, own_key(key), of),
    }
}

/// Which member it is: by its name where it has one, or else by its number in the list.
fn place_of(alloc: Global, entry: &Table, at: usize) -> Result<String, AllocError> {
    match name_of(value_at(entry, "name")) {
        Some(name) => format!(in alloc; " of member {name:?}"),
        None => {
            let number = at.saturating_add(1);
            format!(in alloc; " of member {number}")
        }
    }
}

/// Which name is that of two members.
fn find_twice(alloc: Global, items: &[Value]) -> Result<Finding, AllocError> {
    let mut left = items;
    'left: while let Some((first, rest)) = left.split_first() {
        let name = name_in(first);
        if rest.iter().any(|item| name_in(item) == name) {
            let name = name.unwrap_or("");
            return Ok(Finding::new(format!(in alloc; "two members have the name {name:?}")?));
        }
        left = rest;
    }
    Ok(Finding::new("two members have one name".to_string(alloc)?))
}

fn name_in(item: &Value) -> Option<&str> {
    name_of(value_at(item.as_table()?, "name"))
}
