ghost use Rattle.std.specs.Prelude.{◌≡◌, map, IfOk, IfSome};
ghost use Rattle.std.specs.List.{list_all, list_any};
ghost use Rattle.std.specs.Str.{bytes_eq};
ghost use Rattle.carry_words.specs.Standing.{is_at_rest, is_settled, status_lines, HasNumberLine, TellsBase};

use memc_table::numeral::number;
use std::alloc::{AllocError, Global};

/// Whether the status of a member says that it is closed and that nothing is under way there: no call that may change an item, and
/// no update of a partition that it heads.
pub fn is_at_rest(alloc: Global, status: &[u8]) -> Result<bool, AllocError>
    ensures { IfOk result (λ rests. rests ≡ is_at_rest status.now) }
{
    let lines = lines_of(alloc, status)?;
    if !has_line(&lines, b"closed 1") {
        return Ok(false);
    }
    if !has_line(&lines, b"changing 0") {
        return Ok(false);
    }
    Ok(are_settled(&lines))
}

/// The base that a status tells of a partition: as many as the changes that it has settled, and its own base.
pub fn base_at(alloc: Global, status: &[u8], partition: u64) -> Result<Option<u64>, AllocError>
    ensures { IfOk result (λ found. IfSome found (TellsBase status.now partition)) }
{
    let front = format!(in alloc; "base {partition} ")?;
    let lines = lines_of(alloc, status)?;
    Ok(number_behind(&lines, front.as_bytes()))
}

/// The lines of a status.
fn lines_of(alloc: Global, status: &[u8]) -> Result<Vec<&[u8]>, AllocError>
    ensures { IfOk result (λ lines. map (λ line. line.now) lines.items ≡ status_lines status.now) }
{
    status.split(|byte| *byte == b'\n').collect(alloc)
}

/// Whether one of the lines is this text.
fn has_line(lines: &[&[u8]], text: &[u8]) -> bool
    ensures { result ≡ list_any (λ line. bytes_eq line.now text.now) lines.now }
{
    lines.iter().any(|line| *line == text)
}

/// Whether no line counts unfinished updates of a partition but those that count none.
fn are_settled(lines: &[&[u8]]) -> bool
    ensures { result ≡ list_all (λ line. is_settled line.now) lines.now }
{
    lines.iter().all(|line| is_settled(line))
}

/// Whether a line, if it counts the unfinished updates of a partition, counts none.
fn is_settled(line: &[u8]) -> bool
    ensures { result ≡ is_settled line.now }
{
    !line.starts_with(b"unfinished ") || line.ends_with(b" 0")
}

/// The number behind this front of the first line that begins with it.
fn number_behind(lines: &[&[u8]], front: &[u8]) -> Option<u64>
    ensures { IfSome result (HasNumberLine (map (λ line. line.now) lines.now) front.now) }
{
    'lines: for line in lines {
        if let Some(digits) = line.strip_prefix(front) {
            return number(digits);
        }
    }
    None
}
