use std::alloc::{AllocError, Global};

/// What is known of a counter that many raise by 1.
#[derive(Drop)]
pub(crate) struct Tally {
    given: Vec<bool>,
    /// How often it was raised, as clients heard.
    pub(crate) raised: u64,
    /// How often it may have been raised, as clients said.
    pub(crate) said: u64,
    /// The highest number that was heard.
    pub(crate) highest: u64,
}

impl Tally {
    /// A counter that is raised less than so often.
    pub(crate) fn new(alloc: Global, limit: usize) -> Result<Tally, AllocError> {
        Ok(Tally {
            given: vec![in alloc; false; limit]?,
            raised: 0,
            said: 0,
            highest: 0,
        })
    }

    /// A client says that it is to be raised.
    pub(crate) fn say(&mut self) {
        self.said = self.said.saturating_add(1);
    }

    /// It wasn't raised.
    pub(crate) fn refuse(&mut self) {
        self.said = self.said.saturating_sub(1);
    }

    /// It was raised to this number, behind all of what was heard before: whether that can be. No number is given twice.
    pub(crate) fn raise(&mut self, number: u64, before: u64) -> bool {
        let can = self.read(number, before.saturating_add(1));
        self.raised = self.raised.saturating_add(1);
        match self.given.get_mut(number as usize) {
            Some(given) if !*given => {
                *given = true;
                can
            }
            _ => false,
        }
    }

    /// It was read as this number, behind what was heard before: whether that can be.
    pub(crate) fn read(&mut self, number: u64, least: u64) -> bool {
        self.highest = self.highest.max(number);
        least <= number && number <= self.said
    }
}
