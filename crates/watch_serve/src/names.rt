use group_config::MemberSettings;
use std::alloc::{AllocError, Global};
use watch_rules::Standing;

/// What the member at an index is called.
pub(crate) fn name_at(settings: &MemberSettings, x: usize) -> &str {
    match settings.members.entries().get(x) {
        Some(entry) => entry.name.as_str(),
        None => "",
    }
}

/// Where an operator reaches the member at an index.
pub(crate) fn control_at(settings: &MemberSettings, x: usize) -> &str {
    match settings.members.entries().get(x) {
        Some(entry) => entry.control.as_str(),
        None => "",
    }
}

/// Whether a text has a word, of words one space apart.
pub(crate) fn has_word(text: &str, word: &str) -> bool {
    'words: for each in text.split(' ') {
        if each == word {
            return true;
        }
    }
    false
}

/// The names of those that are dead, one space apart.
pub(crate) fn dead_names(
    alloc: Global,
    settings: &MemberSettings,
    members: &[Standing],
) -> Result<String, AllocError> {
    let mut text = String::new(alloc);
    let mut space = "";
    'members: for x in 0..members.len() {
        if members[x].dead {
            text.push_str(space)?;
            text.push_str(name_at(settings, x))?;
            space = " ";
        }
    }
    Ok(text)
}
