use crate::callers::Callers;
use crate::seats::split_number;
use crate::serving::Serving;
use group_types::Key;
use item_index::Slot;
use std::alloc::{AllocError, Global};

/// The most items that are listed in an answer.
const MOST_ITEMS: usize = 1_024;

const NO_MEMORY: &str = "there is not enough memory\n";

const NO_PARTITION: &str = "no partition has this number\n";

const NO_HEAD: &str = "another member heads this partition\n";

/// The items of a partition, by its number among those of all groups, as they were when the first of them were listed, in the
/// order of their keys.
#[derive(Drop)]
pub(crate) struct Listing {
    partition: u32,
    items: Vec<(Key, Slot)>,
}

impl<R, W, G: Callers> Serving<'_, R, W, G> {
    /// Lists the items of a partition from a place on.
    pub(crate) fn answer_items(&mut self, at: usize, partition: u32, from: usize) {
        let (group, own) = split_number(self.settings.shape, partition);
        if self.settings.groups <= group {
            return self.control.answer(at, NO_PARTITION);
        }
        if !self.worker.gateway().is_head(group, own) {
            return self.control.answer(at, NO_HEAD);
        }
        match self.page_of(partition, from) {
            Ok(text) => self.control.answer(at, text.as_str()),
            Err(_) => self.control.answer(at, NO_MEMORY),
        }
    }

    // The lines of the items from a place on: they are listed anew at the first, and forgotten behind the last.
    fn page_of(&mut self, partition: u32, from: usize) -> Result<String, AllocError> {
        let listed = self.listed(partition, from)?;
        let items = listed.items.as_slice();
        let count = items.len();
        let from = from.min(count);
        let until = count.min(from.saturating_add(MOST_ITEMS));
        let mut text = lines_of(self.alloc, &items[from..until])?;
        if until < count {
            let more = format!(in self.alloc; "more {until}\n")?;
            text.push_str(more.as_str())?;
            self.listings.push(listed)?;
        } else {
            text.push_str("end\n")?;
        }
        Ok(text)
    }

    // The items of a partition that were listed before, or else as they are.
    fn listed(&mut self, partition: u32, from: usize) -> Result<Listing, AllocError> {
        let found = self
            .listings
            .iter()
            .position(|listing| listing.partition == partition);
        if let Some(place) = found {
            let listing = self.listings.swap_remove(place);
            if from > 0 {
                return Ok(listing);
            }
        }
        let (group, own) = split_number(self.settings.shape, partition);
        let items = self.worker.gateway().items(group, own)?;
        Ok(Listing {
            partition,
            items: items.unwrap_or(Vec::new(self.alloc)),
        })
    }
}

/// A line for each item: its key, its flags, its value's length, and the second at which it ends.
fn lines_of(alloc: Global, items: &[(Key, Slot)]) -> Result<String, AllocError> {
    let mut text = String::new(alloc);
    'items: for (key, slot) in items {
        let line = line_of(alloc, key, slot)?;
        text.push_str(line.as_str())?;
    }
    Ok(text)
}

fn line_of(alloc: Global, key: &Key, slot: &Slot) -> Result<String, AllocError> {
    let digits = hex::encode(alloc, key.bytes())?;
    let (flags, length) = (slot.flags, slot.len);
    match slot.until {
        Some(until) => format!(in alloc; "item {digits} {flags} {length} {until}\n"),
        None => format!(in alloc; "item {digits} {flags} {length} -\n"),
    }
}
