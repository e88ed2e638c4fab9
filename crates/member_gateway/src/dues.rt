use head_service::Settlement;
use std::alloc::Global;

/// The updates that settled by a member's last call, and whose calls aren't collected yet, in order.
#[derive(Drop)]
pub(crate) struct Dues {
    // The last is the first due.
    due: Vec<Settlement>,
}

impl Dues {
    pub(crate) fn new(alloc: Global) -> Dues {
        Dues {
            due: Vec::new(alloc),
        }
    }

    /// How many there are.
    pub(crate) fn len(&self) -> usize {
        self.due.len()
    }

    /// These settled, and none was due before. It takes no memory.
    pub(crate) fn set(&mut self, settled: Vec<Settlement>) {
        self.due = settled;
        self.due.reverse();
    }

    pub(crate) fn pop(&mut self) -> Option<Settlement> {
        self.due.pop()
    }
}
