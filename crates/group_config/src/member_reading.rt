ghost use Rattle.std.specs.Prelude.{◌≡◌, ◌<◌, ◌||◌, nat_lt, false, length, option_copied, IfOk, IfSome};
ghost use Rattle.toml.specs.View.{table_view};
ghost use Rattle.group_types.specs.Dimensions.{processes_of};
ghost use Rattle.group_config.specs.Keys.{data_of, only, or_else, truth};
ghost use Rattle.group_config.specs.MemberReading.{HasMembers, IsMemberOutcome, MemberComesOf, behind_members, settings_of};
ghost use Rattle.group_config.specs.MemberTable.{own_of};

use crate::base_values::bases_or_none;
use crate::known::all_known_in;
use crate::member_entries::{bad, members_of};
use crate::member_fault::MemberFault;
use crate::member_key::MemberKey;
use crate::member_settings::MemberSettings;
use crate::member_table::MemberTable;
use crate::member_values::{group_of, order_or_strict, text_of};
use crate::names::index_of;
use crate::shape::shape_in;
use crate::values::{number_or, truth_or_false, value_at};
use group_types::Shape;
use std::alloc::Global;
use toml::{Table, Value};

/// The keys of a member's settings.
pub(crate) const MEMBER_KEYS: [&str; 13] = [
    "group", "k", "m", "blocks", "block", "members", "name", "order", "patience", "one_word",
    "groups", "base", "watch",
];

/// Reads the settings of a member, whose name is the word where there is one. A key that is wrong is told by the first
/// check that fails: the text is TOML; then group, k, m, block, blocks, members, name, order, patience, one_word, groups and
/// base, each there if it is required, of its kind and within its range; then no other key but watch, which another call reads.
pub fn read_member_settings(
    alloc: Global,
    text: &[u8],
    word: Option<&str>,
) -> Result<MemberSettings, MemberFault>
    ensures comes { MemberComesOf (option_copied word.entry) text.now result }
    ensures members { IfOk result HasMembers }
{
    match toml::table_from_slice(alloc, text) {
        Ok(table) => settings_in(alloc, &table, word),
        Err(error) if error.is_memory() => Err(MemberFault::Want),
        Err(_) => Err(bad(MemberKey::Syntax)),
    }
}

fn settings_in(
    alloc: Global,
    table: &Table,
    word: Option<&str>,
) -> Result<MemberSettings, MemberFault>
    ensures told { IsMemberOutcome (settings_of (option_copied word.entry) (table_view table.now)) result }
    ensures members { IfOk result HasMembers }
{
    let Some(group) = group_of(value_at(table, "group")) else {
        return Err(bad(MemberKey::Group));
    };
    let shape = match shape_in(table) {
        Ok(shape) => shape,
        Err(key) => return Err(bad(MemberKey::Shape(key))),
    };
    let members = members_of(
        alloc,
        value_at(table, "members"),
        (shape.k() + shape.m()) as usize,
    )?;
    behind_members(alloc, table, word, group, shape, members)
}

/// The settings of a table that gives these members.
fn behind_members(
    alloc: Global,
    table: &Table,
    word: Option<&str>,
    group: [u8; 16],
    shape: Shape,
    members: MemberTable,
) -> Result<MemberSettings, MemberFault>
    requires { length members ≡ processes_of shape }
    ensures told { IsMemberOutcome
        (behind_members (option_copied word.entry) (table_view table.now) group shape members) result }
    ensures members { IfOk result HasMembers }
{
    let Some(own) = own_of(word, value_at(table, "name"), &members) else {
        return Err(bad(MemberKey::Name));
    };
    let Some(order) = order_or_strict(value_at(table, "order")) else {
        return Err(bad(MemberKey::Order));
    };
    let Some(patience) = number_or(value_at(table, "patience"), 10, 1, 3600) else {
        return Err(bad(MemberKey::Patience));
    };
    let Some(one_word) = one_word_of(value_at(table, "one_word"), shape) else {
        return Err(bad(MemberKey::OneWord));
    };
    let Some(groups) = number_or(value_at(table, "groups"), 1, 1, 16) else {
        return Err(bad(MemberKey::Groups));
    };
    let count = groups as u32 * shape.k();
    let Some(base) = bases_or_none(alloc, value_at(table, "base"), count)? else {
        return Err(bad(MemberKey::Base));
    };
    if !all_known_in(table, &MEMBER_KEYS) {
        return Err(bad(MemberKey::Unknown));
    }
    Ok(MemberSettings {
        group,
        shape,
        members,
        own: own as u32,
        order,
        patience: patience as u32,
        one_word,
        groups: groups as u32,
        base,
    })
}

/// The index of the member that the word, or else the value names.
fn own_of(word: Option<&str>, value: Option<&Value>, members: &MemberTable) -> Option<usize>
    ensures found { result ≡ own_of (option_copied word.entry) (data_of value.entry) members.now }
    ensures range { IfSome result (λ n. n < length members.now) }
{
    let name = match word {
        Some(word) => word,
        None => text_of(value)?,
    };
    index_of(name, members.entries())
}

/// Whether all members are told the same: where k is not above m they have to be.
fn one_word_of(value: Option<&Value>, shape: Shape) -> Option<bool>
    ensures { result ≡ only (λ b. nat_lt shape.m shape.k || b) (or_else false truth (data_of value.entry)) }
{
    let one_word = truth_or_false(value)?;
    if shape.m() < shape.k() || one_word {
        Some(one_word)
    } else {
        None
    }
}
