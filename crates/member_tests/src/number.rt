// The numbers of an answer.

/// The first line of a text, without its end.
pub(crate) fn first_line(text: &[u8]) -> &[u8] {
    let mut len: usize = 0;
    for byte in text {
        if *byte == b'\r' {
            break;
        }
        len = len.saturating_add(1);
    }
    text.get(..len).unwrap_or_default()
}

/// The second line of a text.
pub(crate) fn second_line(text: &[u8]) -> &[u8] {
    let behind = first_line(text).len().saturating_add(2);
    first_line(text.get(behind..).unwrap_or_default())
}

/// The last word of a line.
pub(crate) fn last_word(line: &[u8]) -> &[u8] {
    let mut begin: usize = 0;
    for (place, byte) in line.iter().enumerate() {
        if *byte == b' ' {
            begin = place.saturating_add(1);
        }
    }
    line.get(begin..).unwrap_or_default()
}

/// The number that these digits are.
pub(crate) fn number(digits: &[u8]) -> Option<u64> {
    let mut number: u64 = 0;
    if digits.is_empty() {
        return None;
    }
    for digit in digits {
        if !digit.is_ascii_digit() {
            return None;
        }
        number = with_digit(number, digit.wrapping_sub(b'0'))?;
    }
    Some(number)
}

fn with_digit(number: u64, digit: u8) -> Option<u64> {
    number.checked_mul(10)?.checked_add(u64::from(digit))
}
