ghost use Rattle.std.specs.Prelude.{◌≡◌, ◌<◌, ◌≤◌, ◌++◌, OnOk, IfErr};
ghost use Rattle.memc_table.specs.Expiry.{is_live};
ghost use Rattle.group_regroup.specs.Items.{IsLongFault, live_items, value_bytes};

use crate::items::Item;
use group_core::ItemHead;
use group_eras::CarryFault;
use group_types::Partition;

/// Puts those of a partition's items that are carried behind others: the ones that live at some moment. Their values
/// have at most so many bytes.
pub(crate) fn load(
    items: &mut Vec<Item>,
    partition: Partition,
    heads: Vec<ItemHead>,
    space: u32,
) -> Result<(), CarryFault>
    ensures items { OnOk result (items.new.items ≡ items.old.items ++ live_items partition heads.items) }
    ensures space { OnOk result (value_bytes (live_items partition heads.items) ≤ space) }
    ensures fault { IfErr result (IsLongFault partition (value_bytes (live_items partition heads.items)) space) }
{
    let mut left = space;
    'heads: for head in heads {
        if !is_live(head.until) {
            continue;
        }
        if left < head.len {
            return Err(CarryFault::NoSpace { partition });
        }
        left -= head.len;
        let item = Item {
            partition,
            key: head.key,
            len: head.len,
            flags: head.flags,
            until: head.until,
        };
        if items.push(item).is_err() {
            return Err(CarryFault::Want);
        }
    }
    Ok(())
}

// Whether an item with this end lives at some moment.
fn is_live(until: Option<u64>) -> bool
    ensures { result ≡ is_live 0 until }
{
    match until {
        None => true,
        Some(until) => 0 < until,
    }
}
