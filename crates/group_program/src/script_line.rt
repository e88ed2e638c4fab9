use memchr::memchr;
use scenario_play::words::is_skipped;
use scenario_text::read_word::read_u32;

/// The line of a script that has this number, counted from 1.
pub(crate) fn line_at(script: &[u8], number: u64) -> Option<&[u8]> {
    let mut rest = script;
    'lines: for _ in 1..number {
        rest = behind(rest, b'\n')?;
    }
    Some(until(rest, b'\n'))
}

/// The numbers k, m, blocks and block of a script's first line that isn't skipped.
pub(crate) fn numbers_of(script: &[u8]) -> Option<(u32, u32, u32, u32)> {
    let mut rest = script;
    'lines: for _ in 0..script.len() {
        let line = until(rest, b'\n');
        if !is_skipped(line) {
            return numbers_in(line);
        }
        rest = behind(rest, b'\n')?;
    }
    None
}

// Those of a line `group`, or of a line `groups`, where they stand behind two numbers.
fn numbers_in(line: &[u8]) -> Option<(u32, u32, u32, u32)> {
    let numbers = behind(line, b' ')?;
    if until(line, b' ') == b"groups".as_slice() {
        return four(behind(behind(numbers, b' ')?, b' ')?);
    }
    four(numbers)
}

fn four(numbers: &[u8]) -> Option<(u32, u32, u32, u32)> {
    let behind_k = behind(numbers, b' ')?;
    let behind_m = behind(behind_k, b' ')?;
    let last = behind(behind_m, b' ')?;
    let k = read_u32(until(numbers, b' ')).ok()?;
    let m = read_u32(until(behind_k, b' ')).ok()?;
    let blocks = read_u32(until(behind_m, b' ')).ok()?;
    let block = read_u32(last).ok()?;
    Some((k, m, blocks, block))
}

/// What stands in front of the first such byte: all where there is none.
pub(crate) fn until(text: &[u8], byte: u8) -> &[u8] {
    match memchr(byte, text) {
        Some(at) => &text[..at],
        None => text,
    }
}

/// What stands behind the first such byte, where there is one.
pub(crate) fn behind(text: &[u8], byte: u8) -> Option<&[u8]> {
    let at = memchr(byte, text)?;
    Some(&text[at + 1..])
}
