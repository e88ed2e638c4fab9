use std::alloc::{AllocError, Global};
use std::collections::VecDeque;

/// The places of items on their way: which are free, of which partition the item at a place is, and which items wait to be asked for.
#[derive(Drop)]
pub(crate) struct Places {
    free: Vec<usize>,
    partitions: Vec<usize>,
    /// The items that are to be asked for, of each partition in the old group, and then of each in the new one.
    queues: Vec<VecDeque<usize>>,
    /// Those that are to be asked for again, and when, in milliseconds.
    later: VecDeque<(u64, usize)>,
    /// How many bytes the values of the items on their way have.
    pub(crate) bytes: u64,
}

impl Places {
    /// So many places, all free, of items of so many partitions.
    pub(crate) fn new(alloc: Global, count: usize, k: usize) -> Result<Places, AllocError> {
        let mut free = Vec::with_capacity(alloc, count)?;
        let mut partitions = Vec::with_capacity(alloc, count)?;
        'places: for at in 0..count {
            free.push(at)?;
            partitions.push(0)?;
        }
        let mut queues = Vec::new(alloc);
        'queues: for _ in 0..k.saturating_mul(2) {
            queues.push(VecDeque::new(alloc))?;
        }
        Ok(Places {
            free,
            partitions,
            queues,
            later: VecDeque::new(alloc),
            bytes: 0,
        })
    }

    /// How many are free.
    pub(crate) fn count_free(&self) -> usize {
        self.free.len()
    }

    /// A free place for an item of a partition, with a value of so many bytes.
    pub(crate) fn take(&mut self, partition: usize, length: u32) -> Option<usize> {
        let at = self.free.pop()?;
        if let Some(place) = self.partitions.get_mut(at) {
            *place = partition;
        }
        self.bytes = self.bytes.saturating_add(u64::from(length));
        Some(at)
    }

    /// A place is free again, whose item had so many bytes.
    pub(crate) fn give_back(&mut self, at: usize, length: u32) -> Result<(), AllocError> {
        self.bytes = self.bytes.saturating_sub(u64::from(length));
        self.free.push(at)?;
        Ok(())
    }

    /// Of which partition the item at a place is.
    pub(crate) fn partition_at(&self, at: usize) -> usize {
        match self.partitions.get(at) {
            Some(partition) => *partition,
            None => 0,
        }
    }

    /// The item at a place is to be asked for, of this queue.
    pub(crate) fn queue(&mut self, queue: usize, at: usize) -> Result<(), AllocError> {
        if let Some(list) = self.queues.get_mut(queue) {
            list.push_back(at)?;
        }
        Ok(())
    }

    /// Its next, which is taken.
    pub(crate) fn next(&mut self, queue: usize) -> Option<usize> {
        self.queues.get_mut(queue)?.pop_front()
    }

    /// Whether something waits in a queue.
    pub(crate) fn waits(&self, queue: usize) -> bool {
        match self.queues.get(queue) {
            Some(list) => !list.is_empty(),
            None => false,
        }
    }

    /// The item at a place is to be asked for again at a time.
    pub(crate) fn put_off(&mut self, due: u64, at: usize) -> Result<(), AllocError> {
        self.later.push_back((due, at))?;
        Ok(())
    }

    /// The next that is to be asked for again by now.
    pub(crate) fn next_due(&mut self, now: u64) -> Option<usize> {
        match self.later.front() {
            Some((due, _)) if *due <= now => {}
            _ => return None,
        }
        let (_, at) = self.later.pop_front()?;
        Some(at)
    }
}
