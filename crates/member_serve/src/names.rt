use crate::seats::member_of;
use group_config::MemberSettings;
use std::alloc::AllocError;

/// More members than a group has.
pub(crate) const MOST_MEMBERS: u32 = 32;

/// What the member at an index is called.
pub(crate) fn name_at(settings: &MemberSettings, x: u32) -> &str {
    match settings.members.entries().get(x as usize) {
        Some(entry) => entry.name.as_str(),
        None => "",
    }
}

/// What the member is called that has the process at an index of a group.
pub(crate) fn name_in(settings: &MemberSettings, group: u32, x: u32) -> &str {
    name_at(settings, member_of(settings.shape, group, x))
}

/// The index of the member that is called so.
pub(crate) fn index_named(settings: &MemberSettings, name: &str) -> Option<u32> {
    let mut x: u32 = 0;
    'members: for entry in settings.members.entries() {
        if entry.name.as_str() == name {
            return Some(x);
        }
        x = x.saturating_add(1);
    }
    None
}

/// A set of members with the one at an index.
pub(crate) fn with(set: u32, x: u32) -> u32 {
    if x < MOST_MEMBERS { set | 1 << x } else { set }
}

/// Whether the member at an index is in a set.
pub(crate) fn has(set: u32, x: u32) -> bool {
    x < MOST_MEMBERS && set >> x & 1 == 1
}

/// How many members a set has.
pub(crate) fn count_of(set: u32) -> u32 {
    set.count_ones()
}

/// Writes the names of a set of members behind a text, one space apart: `-` where it is empty.
pub(crate) fn put_names(
    settings: &MemberSettings,
    set: u32,
    text: &mut String,
) -> Result<(), AllocError> {
    if set == 0 {
        return text.push('-');
    }
    let mut space = "";
    'members: for x in 0..MOST_MEMBERS {
        if has(set, x) {
            text.push_str(space)?;
            text.push_str(name_at(settings, x))?;
            space = " ";
        }
    }
    Ok(())
}
