ghost use Rattle.std.specs.Prelude.{◌≡◌, ◌≤◌, ◌<◌, ◌+◌, ◌%◌, ◌↔◌, IsTrue};
ghost use Rattle.group_types.specs.Names.{IsProcess, of_rank};

use group_types::{Partition, ProcessId, Shape};

/// A partition, the rank of the process of it that is asked, and the rank at which the asking began.
#[derive(Clone, Copy)]
pub(crate) struct Route {
    pub(crate) shape: Shape,
    pub(crate) partition: Partition,
    pub(crate) rank: u32,
    begun: u32,
    ghost inside: { partition.0 < shape.k },
    ghost within: { rank ≤ shape.m },
}

impl Route {
    /// Asking begins at this rank, counted round the processes of the partition.
    pub(crate) fn at(shape: Shape, partition: Partition, rank: u32) -> Route
        requires { partition.0 < shape.k }
        ensures shape { result.shape ≡ shape }
        ensures partition { result.partition ≡ partition }
        ensures rank { result.rank ≡ rank % (shape.m + 1) }
        ensures begun { result.begun ≡ result.rank }
    {
        let rank = rank % (shape.m() + 1);
        Route {
            shape,
            partition,
            rank,
            begun: rank,
        }
    }

    /// The process of the rank.
    pub(crate) fn server(&self) -> ProcessId
        ensures process { IsProcess self.now.shape result }
        ensures rank { result ≡ of_rank self.now.partition.0 self.now.rank }
    {
        if self.rank == 0 {
            ProcessId::DataNode(self.partition.0)
        } else {
            ProcessId::ParityNode(self.rank - 1)
        }
    }

    /// The process of this many ranks further, round the partition.
    pub(crate) fn further(&self, ranks: u32) -> Route
        ensures shape { result.shape ≡ self.now.shape }
        ensures partition { result.partition ≡ self.now.partition }
        ensures rank { result.rank ≡ (self.now.rank + ranks % (self.now.shape.m + 1)) % (self.now.shape.m + 1) }
        ensures begun { result.begun ≡ self.now.begun }
    {
        let many = self.shape.m() + 1;
        Route {
            shape: self.shape,
            partition: self.partition,
            rank: (self.rank + ranks % many) % many,
            begun: self.begun,
        }
    }

    /// Asking begins anew at the data process.
    pub(crate) fn first(&self) -> Route
        ensures shape { result.shape ≡ self.now.shape }
        ensures partition { result.partition ≡ self.now.partition }
        ensures rank { (result.rank ≡ 0) × (result.begun ≡ 0) }
    {
        Route::at(self.shape, self.partition, 0)
    }

    /// Whether the process at which the asking began is next: all of the partition were asked.
    pub(crate) fn is_round(&self) -> bool
        ensures { IsTrue result ↔ (self.now.rank ≡ self.now.begun) }
    {
        self.rank == self.begun
    }
}
