use crate::kind::Kind;
use std::alloc::{AllocError, Global};

/// Where a connection stands among those that wait for a caller.
#[derive(Clone, Copy, PartialEq, Eq)]
pub(crate) enum Place {
    Nowhere,
    /// It came as this one of all that came to wait.
    Waits(u64),
    /// A caller is offered to it.
    Offered(u64, Kind),
}

/// The places of connections, by their keys.
#[derive(Drop)]
pub(crate) struct Places {
    places: Vec<Place>,
}

impl Places {
    pub(crate) fn new(alloc: Global) -> Places {
        Places {
            places: Vec::new(alloc),
        }
    }

    /// Makes room for a key.
    pub(crate) fn reserve(&mut self, key: usize) -> Result<(), AllocError> {
        let Some(room) = key.checked_add(1) else {
            return Err(AllocError);
        };
        if room > self.places.len() {
            self.places.resize(room, Place::Nowhere)?;
        }
        Ok(())
    }

    pub(crate) fn at(&self, key: usize) -> Place {
        if key < self.places.len() {
            return self.places[key];
        }
        Place::Nowhere
    }

    /// A connection stands elsewhere, where there is room for its key.
    pub(crate) fn put(&mut self, key: usize, place: Place) {
        if key < self.places.len() {
            self.places[key] = place;
        }
    }
}
