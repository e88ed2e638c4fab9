ghost use Rattle.std.specs.Prelude.{◌≡◌, ◌<◌, ◌↔◌, nat_lt, IfSome, IsTrue, length};
ghost use Rattle.group_types.specs.Lists.{at};
ghost use Rattle.group_run.specs.Fitting.{BlockFits, RowFits};
ghost use Rattle.group_run.specs.Rows.{copy_in};
ghost use Rattle.row_copies.specs.Coming.{AwaitsMark};

use super::ParityBytes;
use group_types::{ByteList, Partition, ProcessId};

impl ParityBytes {
    /// Whether a block can come in for the session of this number: it is of a data process that isn't lost, and as
    /// long as each block of the group. It takes no memory.
    pub fn may_take_block(&self, from: ProcessId, number: u64, bytes: &ByteList) -> bool
        ensures { IsTrue result ↔ BlockFits self.now.shape from self.now.process number bytes.now }
    {
        let ProcessId::DataNode(d) = from else {
            return false;
        };
        d < self.shape.k() && self.is_whole(bytes) && self.sessions.asks_block(number, d)
    }

    /// Whether a row's block of code can come in for the session of this number: the session asked that row, and it
    /// is as long as each block of the group. It takes no memory.
    pub fn may_take_row(&self, from: ProcessId, number: u64, bytes: &ByteList) -> bool
        ensures { IsTrue result ↔ RowFits self.now.shape from self.now.process number bytes.now }
    {
        let ProcessId::ParityNode(i) = from else {
            return false;
        };
        i < self.shape.m() && self.is_whole(bytes) && self.sessions.asks_row(number, i)
    }

    /// Whether the copy for a session, if there is one, is of this block and has no mark of the partition. It takes
    /// no memory.
    pub fn awaits_mark(&self, leader: u32, number: u64, block: u32, d: Partition) -> bool
        requires { d.0 < self.now.shape.k }
        ensures { IsTrue result
            ↔ IfSome (copy_in self.now.process.as_row.copies leader number) (AwaitsMark block d.0) }
    {
        self.rows.awaits_mark(leader, number, block, d)
    }

    /// Whether a session is above the last that its leader ceased, whoever leads it. It takes no memory.
    pub fn is_beyond(&self, leader: u32, number: u64) -> bool
        ensures { result ≡ nat_lt (at 0 self.now.process.as_row.ceased leader) number }
    {
        self.rows.is_beyond(leader, number)
    }

    // Whether these are as many bytes as each block has.
    fn is_whole(&self, bytes: &ByteList) -> bool
        ensures { IsTrue result ↔ length bytes.now ≡ self.now.shape.block }
    {
        bytes.bytes().len() == self.shape.block() as usize
    }
}
