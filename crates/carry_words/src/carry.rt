use crate::course::{CarryFault, Course};
use crate::heard::Heard;
use crate::listed::Listed;
use crate::places::{are_free, empty_places, is_free, put, taken, transfer_at};
use crate::stage::Stage;
use crate::transfer::Transfer;
use std::alloc::{AllocError, Global};
use std::marker::Model;

/// Items on their way, each at a place of its own, and what is known of the others: contracts see it as a `Carrying`.
#[derive(Drop)]
pub struct Carry {
    places: Vec<Option<Transfer>>,
    lists: u32,
    carried: u64,
    gone: u64,
    fault: Option<CarryFault>,
}

impl Model for Carry {
    ghost use Rattle.carry_words.specs.Carrying.{Carrying};

    ghost Value = { Carrying };

    ghost view = { λ c. record { places = c.places.items; lists = c.lists; carried = c.carried; gone = c.gone; fault = c.fault } };
}

impl Carry {
    ghost use Rattle.std.specs.Prelude.{◌≡◌, IfOk, option_copied};
    ghost use Rattle.carry_words.specs.Carrying.{fresh, heard_at, is_done, listed_at, listed_out, place_at, settled};

    /// Nothing is on its way, so many items may be, and so many lists of items are still to be read to their ends.
    pub fn new(alloc: Global, count: usize, lists: u32) -> Result<Carry, AllocError>
        ensures { IfOk result (λ c. c ≡ fresh count lists) }
    {
        Ok(Carry {
            places: empty_places(alloc, count)?,
            lists,
            carried: 0,
            gone: 0,
            fault: None,
        })
    }

    /// The item at a place.
    pub fn at(&self, at: usize) -> Option<&Transfer>
        ensures { option_copied result ≡ place_at at self.now.places }
    {
        transfer_at(self.places.as_slice(), at)
    }

    /// An item was listed, and has this place, which has to be free.
    pub fn list(&mut self, at: usize, item: Listed)
        ensures { self.new ≡ listed_at at item self.old }
    {
        if is_free(self.places.as_slice(), at) {
            let stage = Stage::Unread;
            put(&mut self.places, at, Transfer { item, stage });
        } else {
            self.fault = Some(CarryFault::Misplaced);
        }
    }

    /// A list of items was read to its end.
    pub fn end_list(&mut self)
        ensures { self.new ≡ listed_out self.old }
    {
        self.lists = self.lists.saturating_sub(1);
    }

    /// Something was heard of the item at a place, at a moment in seconds.
    pub fn hear(&mut self, at: usize, heard: Heard, now: u64)
        ensures { self.new ≡ heard_at now at heard self.old }
    {
        match taken(&mut self.places, at) {
            Some(transfer) => self.settle(at, transfer.hear(heard, now)),
            None => self.fault = Some(CarryFault::Misplaced),
        }
    }

    /// Something became of the item that was at a place.
    fn settle(&mut self, at: usize, course: Course)
        ensures { self.new ≡ settled at course self.old }
    {
        match course {
            Course::Goes { transfer } => put(&mut self.places, at, transfer),
            Course::Carried => self.carried = self.carried.saturating_add(1),
            Course::Gone => self.gone = self.gone.saturating_add(1),
            Course::Fails { fault } => self.fault = Some(fault),
        }
    }

    /// Whether each item that was listed is carried, or has ended.
    pub fn is_done(&self) -> bool
        ensures { result ≡ is_done self.now }
    {
        self.lists == 0 && self.fault.is_none() && are_free(self.places.as_slice())
    }

    /// Why items can't be carried, if they can't.
    pub fn fault(&self) -> Option<CarryFault>
        ensures { result ≡ self.now.fault }
    {
        self.fault
    }

    /// How many items were set and read back equal.
    pub fn carried(&self) -> u64
        ensures { result ≡ self.now.carried }
    {
        self.carried
    }

    /// How many items had ended.
    pub fn gone(&self) -> u64
        ensures { result ≡ self.now.gone }
    {
        self.gone
    }
}
