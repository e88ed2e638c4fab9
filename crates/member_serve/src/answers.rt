use crate::names::{index_named, with};
use group_config::MemberSettings;
use std::str;

/// What an operator says.
#[derive(Clone, Copy)]
pub(crate) enum Word {
    /// These members are dead.
    Dead(u32),
    /// A name that no member has.
    Unknown,
    /// What the member knows.
    Status,
    /// No change is taken from now on.
    Close,
    /// Changes are taken again.
    Open,
    /// The group's clients belong to another group from now on.
    Moved,
    /// The items of a partition, from a place of their list on.
    Items(u32, usize),
    /// None of these.
    Other,
}

/// What a line says.
pub(crate) fn word_of(settings: &MemberSettings, line: &[u8]) -> Word {
    match str::from_utf8(line) {
        Ok(text) => word_in(settings, text.trim_end()),
        Err(_) => Word::Other,
    }
}

/// What a text says.
fn word_in(settings: &MemberSettings, text: &str) -> Word {
    match text {
        "status" => Word::Status,
        "close" => Word::Close,
        "open" => Word::Open,
        "moved" => Word::Moved,
        _ => word_behind(settings, text),
    }
}

/// What a text says whose first word has others behind it.
fn word_behind(settings: &MemberSettings, text: &str) -> Word {
    if let Some(names) = text.strip_prefix("dead ") {
        return names_in(settings, names);
    }
    match text.strip_prefix("items ") {
        Some(numbers) => items_in(numbers).unwrap_or(Word::Other),
        None => Word::Other,
    }
}

/// The partition, and the place in its list, 0 where none is given.
fn items_in(numbers: &str) -> Option<Word> {
    match numbers.split_once(' ') {
        Some((partition, from)) => Some(Word::Items(partition.parse().ok()?, from.parse().ok()?)),
        None => Some(Word::Items(numbers.parse().ok()?, 0)),
    }
}

/// The members that are named by a text, spaces apart.
fn names_in(settings: &MemberSettings, names: &str) -> Word {
    let mut set = 0;
    'names: for name in names.split(' ') {
        match index_named(settings, name) {
            Some(x) => set = with(set, x),
            None if name.is_empty() => {}
            None => return Word::Unknown,
        }
    }
    if set == 0 {
        Word::Other
    } else {
        Word::Dead(set)
    }
}
