use memc_table::numeral::number;

/// Whether so many members that answer, and those whose deaths a status says to be taken, are all of the group.
pub(crate) fn is_whole(status: &[u8], there: usize) -> bool {
    let mut members: u64 = 0;
    let mut dead: u64 = 0;
    'lines: for line in status.split(|byte| *byte == b'\n') {
        if let Some(shape) = line.strip_prefix(b"shape ".as_slice()) {
            members = members_of(shape);
        }
        if let Some(names) = line.strip_prefix(b"taken ".as_slice()) {
            dead = count_names(names);
        }
    }
    members > 0 && dead.saturating_add(there as u64) == members
}

/// Whether a status is of a member of several groups: only such a one tells how many there are.
pub(crate) fn is_of_several(status: &[u8]) -> bool {
    'lines: for line in status.split(|byte| *byte == b'\n') {
        if line.starts_with(b"groups ") {
            return true;
        }
    }
    false
}

/// How many members a group of a shape has: the first two of its numbers together.
fn members_of(shape: &[u8]) -> u64 {
    let mut sum: u64 = 0;
    let mut left: u32 = 2;
    'words: for word in shape.split(|byte| *byte == b' ') {
        if left > 0 {
            sum = sum.saturating_add(number(word).unwrap_or(0));
            left = left.saturating_sub(1);
        }
    }
    sum
}

/// How many names a text has: none where it is `-`.
fn count_names(text: &[u8]) -> u64 {
    let mut count: u64 = 0;
    'words: for word in text.split(|byte| *byte == b' ') {
        if !word.is_empty() && word != b"-".as_slice() {
            count = count.saturating_add(1);
        }
    }
    count
}
