use group_config::{
    CallOrder, MemberEntry, MemberFault, MemberSettings, find_member, read_member_settings,
};
use std::alloc::{AllocError, Global};

/// What the settings of a member say, of this name where there is one, or the key that is refused and what is wrong
/// there.
pub(crate) fn told(alloc: Global, text: &[u8], word: Option<&str>) -> Result<String, AllocError> {
    match read_member_settings(alloc, text, word) {
        Ok(settings) => told_settings(alloc, &settings),
        Err(MemberFault::BadKey { key }) => {
            let finding = find_member(alloc, text, word, key)?;
            format!(in alloc; "{key}: {finding} ({})", key.allowed())
        }
        Err(MemberFault::Want) => Err(AllocError),
    }
}

fn told_settings(alloc: Global, settings: &MemberSettings) -> Result<String, AllocError> {
    let group = hex::encode(alloc, settings.group)?;
    let shape = settings.shape;
    let (k, m, blocks, block) = (shape.k(), shape.m(), shape.blocks(), shape.block());
    let entries = settings.members.entries();
    let names = names_of(alloc, entries)?;
    let own = told_own(alloc, entries, settings.own)?;
    let order = told_order(settings.order);
    let (patience, one_word) = (settings.patience, settings.one_word);
    let groups = groups_of(alloc, settings.groups)?;
    let bases = bases_of(alloc, settings.base.as_slice())?;
    format!(in alloc;
        "{group} {k} {m} {blocks} {block},{names}, {own}, {order}, {patience}, {one_word}{groups}{bases}"
    )
}

fn told_order(order: CallOrder) -> &'static str {
    match order {
        CallOrder::Strict => "strict",
        CallOrder::Keys => "keys",
    }
}

// How many groups there are, where they are several.
fn groups_of(alloc: Global, groups: u32) -> Result<String, AllocError> {
    if groups > 1 {
        format!(in alloc; ", {groups} groups")
    } else {
        Ok(String::new(alloc))
    }
}

// The bases, where there are some, a space in front of each.
fn bases_of(alloc: Global, bases: &[u64]) -> Result<String, AllocError> {
    let mut text = String::new(alloc);
    if !bases.is_empty() {
        text.push(',')?;
    }
    for base in bases {
        let one = format!(in alloc; " {base}")?;
        text.push_str(one.as_str())?;
    }
    Ok(text)
}

// The names, a space in front of each.
fn names_of(alloc: Global, entries: &[MemberEntry]) -> Result<String, AllocError> {
    let mut names = String::new(alloc);
    for entry in entries {
        names.push(' ')?;
        names.push_str(entry.name.as_str())?;
    }
    Ok(names)
}

// The index of the member itself, and where it is reached.
fn told_own(alloc: Global, entries: &[MemberEntry], own: u32) -> Result<String, AllocError> {
    match entries.get(own as usize) {
        Some(entry) => format!(in alloc;
            "{own} {} {} {}",
            entry.link.as_str(),
            entry.client.as_str(),
            entry.control.as_str()
        ),
        None => String::from_str(alloc, "none"),
    }
}
