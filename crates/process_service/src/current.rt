ghost use Rattle.std.specs.Prelude.{◌≡◌, ◌<◌, nat_le};
ghost use Rattle.group_types.specs.Lists.{at};
ghost use Rattle.group_run.specs.Process.{Process};
ghost use Rattle.head_service.specs.Serving.{serving};
ghost use Rattle.process_service.specs.Current.{IsNoMark, is_current};

use crate::service::Service;
use group_message::Message;
use group_types::{Partition, Rank};

impl Service {
    /// Whether a message other than a mark is acted on, and not dropped for its rank. It takes no memory.
    pub fn acts_on(&self, message: &Message) -> bool
        requires { IsNoMark message.now }
        ensures { (b : Process) → result ≡ is_current (serving self.now b) message.now }
    {
        match message {
            Message::Update {
                rank,
                partition,
                ..
            } => self.follows(*partition, *rank),
            Message::Stable {
                rank,
                partition,
                ..
            } => self.follows(*partition, *rank),
            Message::Adopt {
                rank,
                partition,
                ..
            } => self.follows(*partition, *rank),
            Message::Ack {
                rank,
                partition,
                ..
            } => partition.0 < self.shape.k() && self.heads_under(*partition, *rank),
            Message::Mark { .. } => unreachable!(),
            _ => true,
        }
    }

    // Whether the process follows a head of this rank, be the partition one of the group or not.
    fn follows(&self, partition: Partition, rank: Rank) -> bool
        ensures { result ≡ nat_le (at 0 self.now.ranks partition.0) rank.0 }
    {
        self.shape.k() <= partition.0 || self.rank(partition).0 <= rank.0
    }
}
