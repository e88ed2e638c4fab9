ghost use Rattle.std.specs.Prelude.{◌≡◌, ◌<◌, ◌↔◌, length, IsTrue};
ghost use Rattle.row_copies.specs.Coming.{AwaitsMark};

use super::Copy;
use group_types::Partition;

impl Copy {
    /// Whether it is of this block, and the partition isn't marked.
    pub(crate) fn awaits_mark(&self, block: u32, d: Partition) -> bool
        requires { d.0 < length self.now.marks }
        ensures { IsTrue result ↔ AwaitsMark block d.0 self.now }
    {
        self.block == block && self.marks[d.0 as usize].is_none()
    }
}
