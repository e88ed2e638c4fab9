// What a client does with a key of its own, as rows by hand, over and over: `@` stands for its key.
use std::alloc::AllocError;

/// What a client says, what it hears, and what anybody who gets the key hears from then on.
pub(crate) struct Row {
    pub(crate) says: &'static [u8],
    pub(crate) hears: &'static [u8],
    pub(crate) then: &'static [u8],
}

/// What is heard of a key that has no item.
const NONE: &[u8] = b"END\r\n";

const REFUSED: &[u8] = b"CLIENT_ERROR cannot increment or decrement non-numeric value\r\n";

const ROWS: [Row; 14] = [
    Row {
        says: b"set @ 7 0 3\r\nabc\r\n",
        hears: b"STORED\r\n",
        then: b"VALUE @ 7 3\r\nabc\r\nEND\r\n",
    },
    Row {
        says: b"add @ 0 0 1\r\nx\r\n",
        hears: b"NOT_STORED\r\n",
        then: b"VALUE @ 7 3\r\nabc\r\nEND\r\n",
    },
    Row {
        says: b"append @ 0 0 2\r\nde\r\n",
        hears: b"STORED\r\n",
        then: b"VALUE @ 7 5\r\nabcde\r\nEND\r\n",
    },
    Row {
        says: b"get @\r\n",
        hears: b"VALUE @ 7 5\r\nabcde\r\nEND\r\n",
        then: b"VALUE @ 7 5\r\nabcde\r\nEND\r\n",
    },
    Row {
        says: b"incr @ 1\r\n",
        hears: REFUSED,
        then: b"VALUE @ 7 5\r\nabcde\r\nEND\r\n",
    },
    Row {
        says: b"delete @ noreply\r\n",
        hears: b"",
        then: NONE,
    },
    Row {
        says: b"get @\r\n",
        hears: NONE,
        then: NONE,
    },
    Row {
        says: b"add @ 3 0 2\r\n41\r\n",
        hears: b"STORED\r\n",
        then: b"VALUE @ 3 2\r\n41\r\nEND\r\n",
    },
    Row {
        says: b"incr @ 1\r\n",
        hears: b"42\r\n",
        then: b"VALUE @ 3 2\r\n42\r\nEND\r\n",
    },
    Row {
        says: b"incr @ 1 noreply\r\n",
        hears: b"",
        then: b"VALUE @ 3 2\r\n43\r\nEND\r\n",
    },
    Row {
        says: b"get @\r\n",
        hears: b"VALUE @ 3 2\r\n43\r\nEND\r\n",
        then: b"VALUE @ 3 2\r\n43\r\nEND\r\n",
    },
    Row {
        says: b"prepend @ 0 0 1\r\n-\r\n",
        hears: b"STORED\r\n",
        then: b"VALUE @ 3 3\r\n-43\r\nEND\r\n",
    },
    Row {
        says: b"delete @\r\n",
        hears: b"DELETED\r\n",
        then: NONE,
    },
    Row {
        says: b"replace @ 0 0 1\r\nx\r\n",
        hears: b"NOT_STORED\r\n",
        then: NONE,
    },
];

/// The row of a number.
pub(crate) fn row_at(number: u64) -> &'static Row {
    &ROWS[(number % 14) as usize]
}

/// Appends a row's text for a key.
pub(crate) fn append_text(out: &mut Vec<u8>, text: &[u8], key: u8) -> Result<(), AllocError> {
    for byte in text {
        out.push(with_key(*byte, key))?;
    }
    Ok(())
}

/// Whether this is what a row's text is for a key.
pub(crate) fn is_text(text: &[u8], wanted: &[u8], key: u8) -> bool {
    if text.len() != wanted.len() {
        return false;
    }
    for (byte, wanted) in text.iter().zip(wanted.iter()) {
        if *byte != with_key(*wanted, key) {
            return false;
        }
    }
    true
}

/// Whether this is heard of a key once some number of rows was done from one number to another.
pub(crate) fn is_state(text: &[u8], key: u8, from: u64, to: u64) -> bool {
    for done in from..=to {
        if is_text(text, state_at(done), key) {
            return true;
        }
    }
    false
}

/// Whether this is the item of a key, empty where it has none, once some number of rows was done from one number to another.
pub(crate) fn is_item(text: &[u8], key: u8, from: u64, to: u64) -> bool {
    for done in from..=to {
        let state = state_at(done);
        let len = state.len().saturating_sub(NONE.len());
        if is_text(text, state.get(..len).unwrap_or_default(), key) {
            return true;
        }
    }
    false
}

// What is heard of a key of which so many rows were done.
fn state_at(done: u64) -> &'static [u8] {
    match done.checked_sub(1) {
        Some(last) => row_at(last).then,
        None => NONE,
    }
}

fn with_key(byte: u8, key: u8) -> u8 {
    if byte == b'@' { key } else { byte }
}
