ghost use Rattle.std.specs.Prelude.{◌≡◌, ◌%◌, ◌+◌, ◌<◌, replicate, set, slice_index_or};

use crate::route::Route;
use group_types::{Partition, Shape};

/// The most partitions that a group has.
const MOST: usize = 16;

/// For each partition the rank of the process that answered last, where the next call for it begins. No promise depends
/// on it.
#[derive(Clone, Copy, Debug)]
pub(crate) struct Heads {
    ranks: [u32; MOST],
}

impl Heads {
    /// Each call begins at the data process.
    pub(crate) fn new() -> Heads
        ensures { result.ranks ≡ replicate 16 0 }
    {
        Heads { ranks: [0; MOST] }
    }

    /// The route of a call for a partition.
    pub(crate) fn route(&self, shape: Shape, partition: Partition) -> Route
        requires { partition.0 < shape.k }
        ensures shape { result.shape ≡ shape }
        ensures partition { result.partition ≡ partition }
        ensures rank { result.rank ≡ slice_index_or self.now.ranks partition.0 0 % (shape.m + 1) }
    {
        let known = self.ranks.get(partition.0 as usize);
        Route::at(shape, partition, known.copied().unwrap_or(0))
    }

    /// A call ended at the process where its route had come to.
    pub(crate) fn note(&mut self, route: &Route)
        ensures { self.new.ranks ≡ set self.old.ranks route.now.partition.0 route.now.rank }
    {
        let _few = route.shape.k();
        self.ranks[route.partition.0 as usize] = route.rank;
    }
}
