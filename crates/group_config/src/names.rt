ghost use Rattle.std.specs.Prelude.{◌≡◌, ◌<◌, length, IfSome};
ghost use Rattle.group_config.specs.MemberTable.{member_index, names_differ};

use crate::member_entry::MemberEntry;

/// The index of the first member of this name.
pub(crate) fn index_of(name: &str, entries: &[MemberEntry]) -> Option<usize>
    ensures found { result ≡ member_index name.now entries.now }
    ensures range { IfSome result (λ n. n < length entries.now) }
{
    let mut left = entries;
    let mut at = 0usize;
    'left: while let Some((first, rest)) = left.split_first() {
        if first.name.as_str() == name {
            return Some(at);
        }
        left = rest;
        at += 1;
    }
    None
}

/// Whether no two members have one name.
pub(crate) fn names_differ(entries: &[MemberEntry]) -> bool
    ensures { result ≡ names_differ entries.now }
{
    let mut left = entries;
    'left: while let Some((first, rest)) = left.split_first() {
        if index_of(first.name.as_str(), rest).is_some() {
            return false;
        }
        left = rest;
    }
    true
}
