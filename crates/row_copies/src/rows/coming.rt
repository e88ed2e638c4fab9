ghost use Rattle.std.specs.Prelude.{◌≡◌, ◌<◌, ◌↔◌, nat_lt, IsTrue, IfSome};
ghost use Rattle.group_types.specs.Lists.{at};
ghost use Rattle.group_run.specs.Rows.{copy_in};
ghost use Rattle.row_copies.specs.Coming.{AwaitsMark};

use super::Rows;
use crate::copies;
use group_types::Partition;

impl Rows {
    /// Whether a session is above the last that its leader ceased, whoever leads it. It takes no memory.
    pub fn is_beyond(&self, leader: u32, number: u64) -> bool
        ensures { result ≡ nat_lt (at 0 self.now.state.ceased leader) number }
    {
        last_ceased(&self.ceased, leader) < number
    }

    /// Whether the copy for a session, if there is one, is of this block and has no mark of the partition. It takes
    /// no memory.
    pub fn awaits_mark(&self, leader: u32, number: u64, block: u32, d: Partition) -> bool
        requires { d.0 < self.now.shape.k }
        ensures { IsTrue result ↔ IfSome (copy_in self.now.state.copies leader number) (AwaitsMark block d.0) }
    {
        match copies::place_of(&self.copies, leader, number) {
            None => true,
            Some(place) => self.copies[place].awaits_mark(block, d),
        }
    }
}

// The last session that a leader ceased; behind the end there is none.
#[tactic(auto, using(group_types::proofs::Lists::at_index, group_types::proofs::Lists::at_behind))]
fn last_ceased(ceased: &[u64], leader: u32) -> u64
    ensures { result ≡ at 0 ceased.now leader }
{
    if (leader as usize) < ceased.len() {
        return ceased[leader as usize];
    }
    0
}
