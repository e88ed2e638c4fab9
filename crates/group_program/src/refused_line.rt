// What a person is told of a line of a script that is refused: the line, and which word of it can't stand there. A word can't
// where the line would be read with another one in its place.
use crate::script_line::{behind, line_at, numbers_of, until};
use group_types::Shape;
use scenario_text::LineFault;
use scenario_text::read_line::read_line;
use std::alloc::{AllocError, Global};

/// The most bytes of a text of others that a person is shown.
const MOST_SHOWN: usize = 200;

/// Words that may stand somewhere in a line.
const WORDS: [&[u8]; 7] = [b"0", b"d0", b"p0", b"-", b"get", b"1", b"show"];

/// What a person is told of the line of a script that has this number, counted from 1, and is none of those that it can have.
pub(crate) fn refused_line(
    alloc: Global,
    script: &[u8],
    number: u64,
) -> Result<String, AllocError> {
    let Some(line) = line_at(script, number) else {
        return "".to_string(alloc);
    };
    let told = shown(alloc, line)?;
    let text = text_of(alloc, script, line)?;
    format!(in alloc; "line {number} is: {told}\n{text}")
}

// Which word of a line can't stand there, in a script that names a shape.
fn text_of(alloc: Global, script: &[u8], line: &[u8]) -> Result<String, AllocError> {
    let Some((k, m, blocks, block)) = numbers_of(script) else {
        return "".to_string(alloc);
    };
    match Shape::new(k, m, blocks, block) {
        Ok(shape) if !is_other(until(line, b' ')) => text_in(alloc, shape, line),
        _ => "".to_string(alloc),
    }
}

// Whether a line with this first word is one that a script of one group doesn't have behind its first.
fn is_other(word: &[u8]) -> bool {
    word == b"group".as_slice()
        || word == b"groups".as_slice()
        || word == b"regroup".as_slice()
        || word == b"fail_node".as_slice()
}

// The same of a line of one of several groups behind its first word.
fn text_in(alloc: Global, shape: Shape, line: &[u8]) -> Result<String, AllocError> {
    match behind(line, b' ') {
        Some(rest) if is_group(until(line, b' ')) => text_behind(alloc, shape, rest, 2),
        _ => text_behind(alloc, shape, line, 1),
    }
}

fn is_group(word: &[u8]) -> bool {
    match word {
        [b'g', digits @ ..] => !digits.is_empty()
            && digits.iter().all(|byte| byte.is_ascii_digit()),
        _ => false,
    }
}

// The same of a line whose first word has this number.
fn text_behind(
    alloc: Global,
    shape: Shape,
    line: &[u8],
    number: u64,
) -> Result<String, AllocError> {
    let mut rest = line;
    let mut number = number;
    'words: for _ in 0..line.len() {
        if is_wrong(alloc, shape, line, rest)? {
            return word_text(alloc, number, until(rest, b' '));
        }
        let Some(next) = behind(rest, b' ') else {
            return "".to_string(alloc);
        };
        rest = next;
        number = number.saturating_add(1);
    }
    "".to_string(alloc)
}

fn word_text(alloc: Global, number: u64, word: &[u8]) -> Result<String, AllocError> {
    if word.is_empty() {
        return format!(in alloc; "its word {number} is empty: words are one space apart\n");
    }
    let word = shown(alloc, word)?;
    format!(in alloc; "its word {number}, {word}, can't stand there\n")
}

// Whether a line is read with another word in place of the one with which its end begins.
fn is_wrong(alloc: Global, shape: Shape, line: &[u8], end: &[u8]) -> Result<bool, AllocError> {
    let at = line.len().saturating_sub(end.len());
    let after = at.saturating_add(until(end, b' ').len());
    'words: for word in &WORDS {
        if is_read(alloc, shape, line, at, after, word)? {
            return Ok(true);
        }
    }
    Ok(false)
}

// Whether a line is read with a word in place of its bytes between two places.
fn is_read(
    alloc: Global,
    shape: Shape,
    line: &[u8],
    at: usize,
    after: usize,
    word: &[u8],
) -> Result<bool, AllocError> {
    let mut other = Vec::new(alloc);
    if let Some(front) = line.get(..at) {
        other.extend_from_slice(front)?;
    }
    other.extend_from_slice(word)?;
    if let Some(rest) = line.get(after..) {
        other.extend_from_slice(rest)?;
    }
    let read = read_line(alloc, Some(shape), &other);
    Ok(!matches!(read, Err(LineFault::BadLine)))
}

// The front of a text, with a question mark for each byte that isn't printed.
fn shown(alloc: Global, bytes: &[u8]) -> Result<String, AllocError> {
    let mut text = String::new(alloc);
    'bytes: for byte in bytes.iter().take(MOST_SHOWN) {
        let letter = if (32..127).contains(byte) {
            *byte
        } else {
            b'?'
        };
        text.push(char::from(letter))?;
    }
    if bytes.len() > MOST_SHOWN {
        text.push_str("..")?;
    }
    Ok(text)
}
