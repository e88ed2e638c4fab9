ghost use Rattle.std.specs.Prelude.{◌≡◌, map, IfOk};
ghost use Rattle.scenario_text.specs.Meaning.{line_meaning, is_skipped, group_line, group_within, IsLineOf};
ghost use Rattle.scenario_text.specs.Reads.{IsMeaning};

use crate::line::{Line, LineFault};
use crate::read_event::read_event;
use crate::read_word::read_u32;
use crate::split::split;
use group_types::Shape;
use std::alloc::Global;

/// Reads a line without its end. A script without a shape yet has only its group line, and one
/// with a shape has no further group line.
pub fn read_line(alloc: Global, shape: Option<Shape>, line: &[u8]) -> Result<Line, LineFault>
    ensures meaning { IsMeaning result (line_meaning shape line.now) }
    ensures within { IfOk result (IsLineOf shape) }
{
    if is_skipped(line) {
        return Ok(Line::Skipped);
    }
    let words = split(alloc, b' ', line)?;
    match shape {
        None => read_group(&words),
        Some(shape) => read_event(alloc, shape, &words),
    }
}

fn is_skipped(line: &[u8]) -> bool
    ensures { result ≡ is_skipped line.now }
{
    match line {
        [] => true,
        [first, ..] => *first == b'#',
    }
}

fn read_group(words: &[&[u8]]) -> Result<Line, LineFault>
    ensures meaning { IsMeaning result (group_line (map (λ word. word.now) words.now)) }
    ensures within { IfOk result (IsLineOf None) }
{
    match words {
        [name, k, m, blocks, block] if *name == b"group".as_slice() => {
            let (k, m) = (read_u32(k)?, read_u32(m)?);
            group(k, m, read_u32(blocks)?, read_u32(block)?)
        }
        _ => Err(LineFault::BadLine),
    }
}

fn group(k: u32, m: u32, blocks: u32, block: u32) -> Result<Line, LineFault>
    ensures meaning { IsMeaning result (group_within (record { k = k; m = m; blocks = blocks; block = block })) }
    ensures within { IfOk result (IsLineOf None) }
{
    match Shape::new(k, m, blocks, block) {
        Ok(shape) => Ok(Line::Group { shape }),
        Err(bad) => Err(LineFault::BadShape(bad.field)),
    }
}
