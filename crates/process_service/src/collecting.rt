ghost use Rattle.std.specs.Prelude.{◌≡◌};
ghost use Rattle.std.specs.List.{range_with_len};
ghost use Rattle.group_run.specs.Asking.{collect_from, only};
ghost use Rattle.group_run.specs.Process.{Process};
ghost use Rattle.head_service.specs.Serving.{serving};

use crate::service::Service;
use group_calls::Answer;
use head_service::held::{hand_out, look_up};

impl Service {
    /// A held call is answered once its update is settled, and forgotten then. It takes no memory.
    pub fn collect(&mut self, caller: u32, call: u64) -> Answer
        ensures shape { self.new.shape ≡ self.old.shape }
        ensures name { self.new.name ≡ self.old.name }
        ensures replicas { self.new.replicas ≡ self.old.replicas }
        ensures answer { (b : Process) → collect_from caller call (serving self.old b)
            (range_with_len 0 self.old.shape.k)
            ≡ only result (serving self.new b) }
    {
        'partitions: for d in 0..self.shape.k() as usize {
            if look_up(&self.held[d], caller, call).is_none() {
                continue;
            }
            let applied = self.replicas[d].applied();
            return hand_out(&mut self.held[d], applied, caller, call);
        }
        Answer::Stranger
    }
}
