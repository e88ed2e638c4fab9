ghost use Rattle.std.specs.Prelude.{◌≡◌, [], IfOk};
ghost use Rattle.toml.specs.View.{items_view};
ghost use Rattle.group_config.specs.Bases.{all_numbers, bases, most_base, numbers};
ghost use Rattle.group_config.specs.Keys.{data_of, or_else};

use crate::base_list::BaseList;
use crate::member_entries::items_of;
use crate::values::number_of;
use std::alloc::{AllocError, Global};
use toml::Value;

/// The largest base.
const MOST_BASE: u64 = 4_611_686_018_427_387_904;

/// The bases of so many partitions that a value is, or none where there is no value.
pub(crate) fn bases_or_none(
    alloc: Global,
    value: Option<&Value>,
    count: u32,
) -> Result<Option<BaseList>, AllocError>
    ensures { IfOk result (λ found. found ≡ or_else [] (bases count) (data_of value.entry)) }
{
    match value {
        None => Ok(Some(BaseList::new(alloc))),
        Some(_) => bases_of(alloc, value, count),
    }
}

fn bases_of(
    alloc: Global,
    value: Option<&Value>,
    count: u32,
) -> Result<Option<BaseList>, AllocError>
    ensures { IfOk result (λ found. found ≡ bases count (data_of value.entry)) }
{
    let Some(items) = items_of(value) else {
        return Ok(None);
    };
    if !are_numbers(items.as_slice()) {
        return Ok(None);
    }
    let list = copied(alloc, items.as_slice())?;
    if list.as_slice().len() == count as usize {
        Ok(Some(list))
    } else {
        Ok(None)
    }
}

/// Whether each of the values can be a base.
fn are_numbers(items: &[Value]) -> bool
    ensures { result ≡ all_numbers (items_view items.now) }
{
    let mut left = items;
    'left: while let Some((first, rest)) = left.split_first() {
        if number_of(Some(first), 0, MOST_BASE).is_none() {
            return false;
        }
        left = rest;
    }
    true
}

/// The bases among the values.
fn copied(alloc: Global, items: &[Value]) -> Result<BaseList, AllocError>
    ensures { IfOk result (λ list. list ≡ numbers (items_view items.now)) }
{
    let mut list = BaseList::new(alloc);
    let mut left = items;
    'left: while let Some((first, rest)) = left.split_first() {
        if let Some(base) = number_of(Some(first), 0, MOST_BASE) {
            list.push(base)?;
        }
        left = rest;
    }
    Ok(list)
}
