ghost use Rattle.std.specs.Prelude.{◌≡◌, nat_le, ◌&&◌, option_map, IfOk};
ghost use Rattle.toml.specs.View.{items_view, table_view};
ghost use Rattle.toml.specs.Data.{as_table};
ghost use Rattle.std.specs.Prelude.{option_and_then};
ghost use Rattle.group_config.specs.Keys.{data_of};
ghost use Rattle.group_config.specs.Watching.{all_addresses, etcd, member_addresses};

use crate::address::Address;
use crate::address_list::AddressList;
use crate::member_entries::items_of;
use crate::values::short_text_of;
use std::alloc::{AllocError, Global};
use toml::{Table, Value};

/// The most addresses of etcd.
const MOST_ADDRESSES: usize = 16;

/// The table that a value is.
pub(crate) fn table_of(value: Option<&Value>) -> Option<&Table>
    ensures { option_map (λ t. table_view t.now) result ≡ option_and_then as_table (data_of value.entry) }
{
    value?.as_table()
}

/// The addresses that a value is.
pub(crate) fn etcd_of(
    alloc: Global,
    value: Option<&Value>,
) -> Result<Option<AddressList>, AllocError>
    ensures { IfOk result (λ found. found ≡ etcd (data_of value.entry)) }
{
    let Some(items) = items_of(value) else {
        return Ok(None);
    };
    if !are_addresses(items.as_slice()) {
        return Ok(None);
    }
    let list = copied(alloc, items.as_slice())?;
    let count = list.as_slice().len();
    if 1 <= count && count <= MOST_ADDRESSES {
        Ok(Some(list))
    } else {
        Ok(None)
    }
}

/// Whether each of the values is an address.
fn are_addresses(items: &[Value]) -> bool
    ensures { result ≡ all_addresses (items_view items.now) }
{
    let mut left = items;
    'left: while let Some((first, rest)) = left.split_first() {
        if short_text_of(Some(first)).is_none() {
            return false;
        }
        left = rest;
    }
    true
}

/// Copies of the addresses among the values.
fn copied(alloc: Global, items: &[Value]) -> Result<AddressList, AllocError>
    ensures { IfOk result (λ list. list ≡ member_addresses (items_view items.now)) }
{
    let mut list = AddressList::new(alloc);
    let mut left = items;
    'left: while let Some((first, rest)) = left.split_first() {
        if let Some(text) = short_text_of(Some(first)) {
            list.push(Address::new(alloc, text)?)?;
        }
        left = rest;
    }
    Ok(list)
}
