ghost use Rattle.std.specs.Prelude.{◌≡◌, map, IfOk};
ghost use Rattle.group_types.specs.Shape.{IsShape};
ghost use Rattle.scenario_text.specs.Reads.{IsMeaning};
ghost use Rattle.regroup_run.specs.Meaning.{is_regroup, regroup_line, shape_within};

use group_types::Shape;
use scenario_text::LineFault;
use scenario_text::read_word::read_u32;

/// Whether the first word is `regroup`.
pub(crate) fn is_regroup(words: &[&[u8]]) -> bool
    ensures { result ≡ is_regroup (map (λ word. word.now) words.now) }
{
    match words {
        [] => false,
        [name, ..] => *name == b"regroup".as_slice(),
    }
}

/// The shape that the words `regroup <m> <blocks> <block>` name, for a group of so many partitions.
pub(crate) fn read_regroup(k: u32, words: &[&[u8]]) -> Result<Shape, LineFault>
    ensures meaning { IsMeaning result (regroup_line k (map (λ word. word.now) words.now)) }
    ensures named { IfOk result (λ shape. (IsShape shape) × (shape.k ≡ k)) }
{
    match words {
        [_, m, blocks, block] => {
            let (m, blocks) = (read_u32(m)?, read_u32(blocks)?);
            shape_of(k, m, blocks, read_u32(block)?)
        }
        _ => Err(LineFault::BadLine),
    }
}

fn shape_of(k: u32, m: u32, blocks: u32, block: u32) -> Result<Shape, LineFault>
    ensures meaning { IsMeaning result (shape_within (record { k = k; m = m; blocks = blocks; block = block })) }
    ensures named { IfOk result (λ shape. (IsShape shape) × (shape.k ≡ k)) }
{
    match Shape::new(k, m, blocks, block) {
        Ok(shape) => Ok(shape),
        Err(bad) => Err(LineFault::BadShape(bad.field)),
    }
}
