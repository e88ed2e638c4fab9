ghost use Rattle.std.specs.Prelude.{◌≡◌, ◌*◌, ◌≤◌, nat_le, IfSome, IsTrue};
ghost use Rattle.std.specs.Int.{is_power_of_two};
ghost use Rattle.toml.specs.View.{table_view};
ghost use Rattle.group_types.specs.Shape.{most_space};
ghost use Rattle.group_config.specs.Keys.{data_of, number, only};
ghost use Rattle.group_config.specs.Reading.{checked_shape};

use crate::values::{number_of, value_at};
use group_types::{ConfigKey, Shape};
use toml::{Table, Value};

/// The most bytes of a space.
const MOST_SPACE: u64 = 67_108_864;

/// The shape that a table gives, or the first of its keys that is wrong.
pub(crate) fn shape_in(table: &Table) -> Result<Shape, ConfigKey>
    ensures { result ≡ checked_shape (table_view table.now) }
{
    let Some(k) = number_of(value_at(table, "k"), 1, 16) else {
        return Err(ConfigKey::K);
    };
    let Some(m) = number_of(value_at(table, "m"), 0, 4) else {
        return Err(ConfigKey::M);
    };
    let Some(block) = block_of(value_at(table, "block")) else {
        return Err(ConfigKey::Block);
    };
    let Some(blocks) = blocks_of(value_at(table, "blocks"), block) else {
        return Err(ConfigKey::Blocks);
    };
    match Shape::new(k as u32, m as u32, blocks as u32, block as u32) {
        Ok(shape) => Ok(shape),
        Err(_) => unreachable!(),
    }
}

/// The length of a block that a value is.
fn block_of(value: Option<&Value>) -> Option<u64>
    ensures found { result ≡ only is_power_of_two (number 16 65536 (data_of value.entry)) }
    ensures range { IfSome result (λ n. (16 ≤ n) × (n ≤ 65536) × IsTrue (is_power_of_two n)) }
{
    let block = number_of(value, 16, 65_536)?;
    if block.is_power_of_two() {
        Some(block)
    } else {
        None
    }
}

/// The number of blocks of this length that a value is.
fn blocks_of(value: Option<&Value>, block: u64) -> Option<u64>
    requires { block ≤ 65536 }
    ensures found { result ≡ only (λ n. nat_le (n * block) most_space) (number 1 most_space (data_of value.entry)) }
    ensures range { IfSome result (λ n. (1 ≤ n) × (n * block ≤ most_space)) }
{
    let blocks = number_of(value, 1, MOST_SPACE)?;
    if blocks * block <= MOST_SPACE {
        Some(blocks)
    } else {
        None
    }
}
