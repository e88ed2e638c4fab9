// Whether what a client hears can be.
use crate::client::Wanted;
use crate::crowd::Crowd;
use crate::hearing::end_of_lines;
use crate::number::{first_line, last_word, number, second_line};
use crate::rows::{is_item, is_state, is_text, row_at};

impl Crowd<'_> {
    /// Whether a client can hear this where it waits for that.
    pub(crate) fn judge(&mut self, client: usize, wanted: Wanted, text: &[u8]) -> bool {
        match wanted {
            Wanted::Stored => is_stored(text),
            Wanted::Row(number) => self.judge_row(client, number, text),
            Wanted::Raised(before) => self.judge_raise(before, text),
            Wanted::Count(least) => self.judge_count(least, text),
            Wanted::Item(least) => self.judge_item(client, least, text),
            Wanted::Swapped(number) => self.judge_swap(number, text),
            Wanted::State { of, least } => self.judge_state(of, least, text),
            Wanted::States { of, least } => self.judge_states(of, least, text),
        }
    }

    fn judge_row(&mut self, client: usize, number: u64, text: &[u8]) -> bool {
        let Some(client) = self.clients.get_mut(client) else {
            return false;
        };
        if !text.is_empty() {
            client.done = number.saturating_add(1);
        }
        is_text(text, row_at(number).hears, client.key)
    }

    fn judge_raise(&mut self, before: u64, text: &[u8]) -> bool {
        match number(first_line(text)) {
            Some(number) => self.raises.raise(number, before),
            None => false,
        }
    }

    fn judge_count(&mut self, least: u64, text: &[u8]) -> bool {
        match number(second_line(text)) {
            Some(number) => self.raises.read(number, least),
            None => false,
        }
    }

    fn judge_item(&mut self, client: usize, least: u64, text: &[u8]) -> bool {
        let Some(item) = item_of(text) else {
            return false;
        };
        if let Some(client) = self.clients.get_mut(client) {
            client.item = Some(item);
        }
        self.swaps.read(item.0, least)
    }

    fn judge_swap(&mut self, number: u64, text: &[u8]) -> bool {
        if is_stored(text) {
            return self.swaps.raise(number.saturating_add(1), number);
        }
        self.swaps.refuse();
        text == b"EXISTS\r\n".as_slice()
    }

    // The item of the first key stands in front of that of the second, where there are both.
    fn judge_states(&self, of: [usize; 2], least: [u64; 2], text: &[u8]) -> bool {
        let (Some(first), Some(second)) = (self.clients.get(of[0]), self.clients.get(of[1])) else {
            return false;
        };
        let item = first_item(text, first.key);
        let behind = text.get(item.len()..).unwrap_or_default();
        let other = first_item(behind, second.key);
        behind.get(other.len()..) == Some(b"END\r\n".as_slice())
            && is_item(item, first.key, least[0], first.said)
            && is_item(other, second.key, least[1], second.said)
    }

    fn judge_state(&self, of: usize, least: u64, text: &[u8]) -> bool {
        match self.clients.get(of) {
            Some(of) => is_state(text, of.key, least, of.said),
            None => false,
        }
    }
}

fn is_stored(text: &[u8]) -> bool {
    text == b"STORED\r\n".as_slice()
}

// The item of a key, where a text begins with it.
fn first_item(text: &[u8], key: u8) -> &[u8] {
    if !text.starts_with(b"VALUE ") || text.get(6) != Some(&key) {
        return b"".as_slice();
    }
    let len = end_of_lines(text, 2).unwrap_or_default();
    text.get(..len).unwrap_or_default()
}

// A counter and its unique.
fn item_of(text: &[u8]) -> Option<(u64, u64)> {
    let value = number(second_line(text))?;
    let unique = number(last_word(first_line(text)))?;
    Some((value, unique))
}
