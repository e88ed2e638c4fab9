ghost use Rattle.std.specs.Prelude.{◌≡◌, ◌≤◌};
ghost use Rattle.toml.specs.View.{table_view};
ghost use Rattle.group_config.specs.Keys.{data_of};
ghost use Rattle.group_config.specs.MemberReading.{IsMemberOutcome};
ghost use Rattle.group_config.specs.Carrying.{CarryComesOf, Settles, behind_groups, carry_fault_of, carry_of, enough, group_in};
ghost use Rattle.group_config.specs.declared.carry_fault.CarryKeyFault.TheVariants.{BadKey};
ghost use Rattle.group_config.specs.declared.carry_key.CarryKey.TheVariants as carry;

use crate::carry_fault::CarryKeyFault;
use crate::carry_key::CarryKey;
use crate::carry_settings::CarrySettings;
use crate::known::all_known_in;
use crate::member_entries::{bad, entries_of, items_of};
use crate::member_fault::MemberFault;
use crate::member_key::MemberKey;
use crate::member_table::MemberTable;
use crate::names::names_differ;
use crate::values::{number_of, number_or, value_at};
use std::alloc::Global;
use toml::{Table, Value};

/// The keys of settings of a carry.
pub(crate) const CARRY_KEYS: [&str; 4] = ["k", "from", "to", "lanes"];

/// The most members of a group.
const MOST_MEMBERS: usize = 20;

/// Reads how items are carried. A key that is wrong is told by the first check that fails: the text is TOML; then k, from, to and
/// lanes, each there if it is required, of its kind and within its range; then no other key.
pub fn read_carry_settings(alloc: Global, text: &[u8]) -> Result<CarrySettings, CarryKeyFault>
    ensures { CarryComesOf text.now result }
{
    match toml::table_from_slice(alloc, text) {
        Ok(table) => carry_of(alloc, &table),
        Err(error) if error.is_memory() => Err(CarryKeyFault::Want),
        Err(_) => Err(wrong(CarryKey::Syntax)),
    }
}

/// What a table says.
fn carry_of(alloc: Global, table: &Table) -> Result<CarrySettings, CarryKeyFault>
    ensures { Settles (carry_of (table_view table.now)) result }
{
    let Some(k) = number_of(value_at(table, "k"), 1, 16) else {
        return Err(wrong(CarryKey::K));
    };
    let from = match group_in(alloc, value_at(table, "from"), k as usize) {
        Ok(from) => from,
        Err(fault) => return Err(in_from(fault)),
    };
    let to = match group_in(alloc, value_at(table, "to"), k as usize) {
        Ok(to) => to,
        Err(fault) => return Err(in_to(fault)),
    };
    behind_groups(table, k, from, to)
}

/// The settings of a table that gives these members.
fn behind_groups(
    table: &Table,
    k: u64,
    from: MemberTable,
    to: MemberTable,
) -> Result<CarrySettings, CarryKeyFault>
    requires few { k ≤ 16 }
    ensures { Settles (behind_groups (table_view table.now) k from to) result }
{
    let Some(lanes) = number_or(value_at(table, "lanes"), 8, 1, 64) else {
        return Err(wrong(CarryKey::Lanes));
    };
    if !all_known_in(table, &CARRY_KEYS) {
        return Err(wrong(CarryKey::Unknown));
    }
    Ok(CarrySettings {
        k: k as u32,
        from,
        to,
        lanes: lanes as u32,
    })
}

/// At least so many members with names that differ.
fn group_in(alloc: Global, value: Option<&Value>, k: usize) -> Result<MemberTable, MemberFault>
    ensures { IsMemberOutcome (group_in k (data_of value.entry)) result }
{
    let Some(items) = items_of(value) else {
        return Err(bad(MemberKey::Members));
    };
    enough(entries_of(alloc, items.as_slice())?, k)
}

/// These members, if there are enough and not too many, and their names differ.
fn enough(members: MemberTable, k: usize) -> Result<MemberTable, MemberFault>
    ensures { IsMemberOutcome (enough k members) result }
{
    let count = members.entries().len();
    if count < k || MOST_MEMBERS < count {
        return Err(bad(MemberKey::Members));
    }
    if !names_differ(members.entries()) {
        return Err(bad(MemberKey::MemberName));
    }
    Ok(members)
}

/// A fault of the old group's members.
fn in_from(fault: MemberFault) -> CarryKeyFault
    ensures { result ≡ carry_fault_of carry.From fault }
{
    match fault {
        MemberFault::BadKey { key } => wrong(CarryKey::From(key)),
        MemberFault::Want => CarryKeyFault::Want,
    }
}

/// A fault of the new group's members.
fn in_to(fault: MemberFault) -> CarryKeyFault
    ensures { result ≡ carry_fault_of carry.To fault }
{
    match fault {
        MemberFault::BadKey { key } => wrong(CarryKey::To(key)),
        MemberFault::Want => CarryKeyFault::Want,
    }
}

fn wrong(key: CarryKey) -> CarryKeyFault
    ensures { result ≡ BadKey key }
{
    CarryKeyFault::BadKey { key }
}
