// What clients say.
use crate::client::{Kind, Wanted};
use crate::crowd::Crowd;
use crate::rows::{append_text, row_at};
use std::alloc::{AllocError, Global};

/// The keys of items that no other client changes.
const ITEMS: &[u8] = b"ABCDEFGH";

impl Crowd<'_> {
    /// A client says the next that it has to say, unless much is to be heard.
    pub(crate) fn speak(&mut self, client: usize) {
        let Some(at) = self.clients.get(client) else {
            return;
        };
        if !at.may_speak() {
            return;
        }
        match at.kind {
            Kind::Rows => self.say_row(client),
            Kind::Counts => self.say_count(client),
            Kind::Swaps => self.say_swap(client),
            Kind::Reads => self.say_read(client),
            Kind::Mixes => self.say_any(client),
        }
    }

    fn say_any(&mut self, client: usize) {
        match self.pick(3) {
            0 => self.say_row(client),
            1 => self.say_count(client),
            _ => self.say_read(client),
        }
    }

    fn say_row(&mut self, client: usize) {
        let Some(at) = self.clients.get_mut(client) else {
            return;
        };
        let (number, key) = (at.said, at.key);
        at.said = number.saturating_add(1);
        match text_of(self.alloc, row_at(number).says, key) {
            Ok(text) => self.say(client, &text, Wanted::Row(number)),
            Err(AllocError) => self.note(false),
        }
    }

    fn say_count(&mut self, client: usize) {
        if self.pick(3) == 0 {
            let before = self.raises.highest;
            self.say(client, b"get 0\r\n", Wanted::Count(before));
        } else {
            self.say_raise(client);
        }
    }

    /// A client raises the counter.
    pub(crate) fn say_raise(&mut self, client: usize) {
        self.raises.say();
        let before = self.raises.highest;
        self.say(client, b"incr 0 1\r\n", Wanted::Raised(before));
    }

    fn say_swap(&mut self, client: usize) {
        let Some(at) = self.clients.get_mut(client) else {
            return;
        };
        if !at.open.is_empty() {
            return;
        }
        match at.item.take() {
            Some((number, unique)) => self.say_cas(client, number, unique),
            None => self.say_item(client),
        }
    }

    // A client raises the other counter by 1, as it got it.
    fn say_cas(&mut self, client: usize, number: u64, unique: u64) {
        self.swaps.say();
        match cas_of(self.alloc, number.saturating_add(1), unique) {
            Ok(text) => self.say(client, text.as_bytes(), Wanted::Swapped(number)),
            Err(AllocError) => self.note(false),
        }
    }

    // A client gets the key of another, or of two others at once.
    fn say_read(&mut self, client: usize) {
        'others: for _ in 0..4u32 {
            let (of, other) = (self.pick_client(), self.pick_client());
            if self.says_get_of(client, [of, other]) || self.says_get(client, of) {
                return;
            }
        }
    }

    // A client gets the keys of two others that do the rows: whether both do them.
    fn says_get_of(&mut self, client: usize, of: [usize; 2]) -> bool {
        let (Some((first, a)), Some((second, b))) = (self.rows_of(of[0]), self.rows_of(of[1]))
        else {
            return false;
        };
        let text = [b'g', b'e', b't', b' ', first, b' ', second, b'\r', b'\n'];
        self.say(client, &text, Wanted::States { of, least: [a, b] });
        true
    }

    // The key of a client, and how many rows it did on it as it heard.
    fn rows_of(&self, of: usize) -> Option<(u8, u64)> {
        let at = self.clients.get(of)?;
        if at.does_rows() {
            Some((at.key, at.done))
        } else {
            None
        }
    }

    /// A client gets the key of another that does the rows: whether that does them.
    pub(crate) fn says_get(&mut self, client: usize, of: usize) -> bool {
        let Some((key, least)) = self.rows_of(of) else {
            return false;
        };
        let text = [b'g', b'e', b't', b' ', key, b'\r', b'\n'];
        self.say(client, &text, Wanted::State { of, least });
        true
    }

    /// A client sets both counters to 0.
    pub(crate) fn set_counters(&mut self, client: usize) {
        self.say(client, b"set 0 0 0 1\r\n0\r\n", Wanted::Stored);
        self.say(client, b"set 1 0 0 1\r\n0\r\n", Wanted::Stored);
    }

    /// A client sets each of the items.
    pub(crate) fn set_items(&mut self, client: usize) {
        for key in ITEMS {
            match set_of(self.alloc, *key) {
                Ok(text) => self.say(client, &text, Wanted::Stored),
                Err(AllocError) => self.note(false),
            }
        }
    }

    /// A client gets all of the items, so often.
    pub(crate) fn get_items(&mut self, client: usize, times: u32) {
        'times: for _ in 0..times {
            self.say(client, b"get A B C D E F G H\r\n", Wanted::Stored);
        }
    }

    /// A client gets both counters.
    pub(crate) fn say_counters(&mut self, client: usize) {
        let before = self.raises.highest;
        self.say(client, b"get 0\r\n", Wanted::Count(before));
        self.say_item(client);
    }

    /// A client gets the other counter.
    pub(crate) fn say_item(&mut self, client: usize) {
        let before = self.swaps.highest;
        self.say(client, b"gets 1\r\n", Wanted::Item(before));
    }
}

fn text_of(alloc: Global, says: &[u8], key: u8) -> Result<Vec<u8>, AllocError> {
    let mut text = Vec::new(alloc);
    append_text(&mut text, says, key)?;
    Ok(text)
}

// A set of an item, of 4,000 bytes.
fn set_of(alloc: Global, key: u8) -> Result<Vec<u8>, AllocError> {
    let mut text = Vec::new(alloc);
    append_text(&mut text, b"set @ 0 0 4000\r\n", key)?;
    for _ in 0..4000u32 {
        text.push(b'x')?;
    }
    text.extend_from_slice(b"\r\n")?;
    Ok(text)
}

fn cas_of(alloc: Global, next: u64, unique: u64) -> Result<String, AllocError> {
    let value = format!(in alloc; "{next}")?;
    let len = value.len();
    format!(in alloc; "cas 1 0 0 {len} {unique}\r\n{value}\r\n")
}
