ghost use Rattle.std.specs.Prelude.{◌≡◌, length, option_map, option_and_then, Ok, IfOk};
ghost use Rattle.toml.specs.Data.{as_array};
ghost use Rattle.toml.specs.View.{array_view, items_view, table_view, view};
ghost use Rattle.group_config.specs.Keys.{data_of};
ghost use Rattle.group_config.specs.MemberReading.{IsMemberOutcome};
ghost use Rattle.group_config.specs.MemberTable.{counted, entries_of, entry_in, entry_of, members_of};
ghost use Rattle.group_config.specs.declared.member_fault.MemberFault.TheVariants.{BadKey};

use crate::address::Address;
use crate::known::all_known_in;
use crate::member_entry::MemberEntry;
use crate::member_fault::MemberFault;
use crate::member_key::MemberKey;
use crate::member_name::MemberName;
use crate::member_table::MemberTable;
use crate::member_values::name_of;
use crate::names::names_differ;
use crate::values::{short_text_of, value_at};
use std::alloc::Global;
use toml::value::Array;
use toml::{Table, Value};

/// The keys of a member.
pub(crate) const ENTRY_KEYS: [&str; 4] = ["name", "link", "client", "control"];

/// So many members with names that differ.
pub(crate) fn members_of(
    alloc: Global,
    value: Option<&Value>,
    count: usize,
) -> Result<MemberTable, MemberFault>
    ensures told { IsMemberOutcome (members_of count (data_of value.entry)) result }
    ensures count { IfOk result (λ members. length members ≡ count) }
{
    let Some(items) = items_of(value) else {
        return Err(bad(MemberKey::Members));
    };
    counted(entries_of(alloc, items.as_slice())?, count)
}

/// The values of the list that a value is.
pub(crate) fn items_of(value: Option<&Value>) -> Option<&Array>
    ensures { option_map (λ v. array_view v.now) result ≡ option_and_then as_array (data_of value.entry) }
{
    value?.as_array()
}

/// These members, if there are so many, and their names differ.
fn counted(members: MemberTable, count: usize) -> Result<MemberTable, MemberFault>
    ensures told { IsMemberOutcome (counted count members) result }
    ensures count { IfOk result (λ members. length members ≡ count) }
{
    if members.entries().len() != count {
        return Err(bad(MemberKey::Members));
    }
    if !names_differ(members.entries()) {
        return Err(bad(MemberKey::MemberName));
    }
    Ok(members)
}

/// A member for each value.
pub(crate) fn entries_of(alloc: Global, items: &[Value]) -> Result<MemberTable, MemberFault>
    ensures { IsMemberOutcome (entries_of (items_view items.now)) result }
{
    let mut members = MemberTable::new(alloc);
    let mut left = items;
    'left: while let Some((first, rest)) = left.split_first() {
        members.push(entry_of(alloc, first)?)?;
        left = rest;
    }
    Ok(members)
}

/// The member that a value is.
fn entry_of(alloc: Global, value: &Value) -> Result<MemberEntry, MemberFault>
    ensures { IsMemberOutcome (entry_of (view value.now)) result }
{
    match value.as_table() {
        Some(table) => entry_in(alloc, table),
        None => Err(bad(MemberKey::Members)),
    }
}

/// The member that a table says.
fn entry_in(alloc: Global, table: &Table) -> Result<MemberEntry, MemberFault>
    ensures { IsMemberOutcome (entry_in (table_view table.now)) result }
{
    let Some(name) = name_of(value_at(table, "name")) else {
        return Err(bad(MemberKey::MemberName));
    };
    let Some(link) = short_text_of(value_at(table, "link")) else {
        return Err(bad(MemberKey::MemberLink));
    };
    let Some(client) = short_text_of(value_at(table, "client")) else {
        return Err(bad(MemberKey::MemberClient));
    };
    let Some(control) = short_text_of(value_at(table, "control")) else {
        return Err(bad(MemberKey::MemberControl));
    };
    if !all_known_in(table, &ENTRY_KEYS) {
        return Err(bad(MemberKey::MemberUnknown));
    }
    new_entry(alloc, name, link, client, control)
}

/// A member of copies of these texts.
fn new_entry(
    alloc: Global,
    name: &str,
    link: &str,
    client: &str,
    control: &str,
) -> Result<MemberEntry, MemberFault>
    ensures { IsMemberOutcome (Ok (record {
      name = name.now;
      link = link.now;
      client = client.now;
      control = control.now;
    })) result }
{
    Ok(MemberEntry {
        name: MemberName::new(alloc, name)?,
        link: Address::new(alloc, link)?,
        client: Address::new(alloc, client)?,
        control: Address::new(alloc, control)?,
    })
}

pub(crate) fn bad(key: MemberKey) -> MemberFault
    ensures { result ≡ BadKey key }
{
    MemberFault::BadKey { key }
}
