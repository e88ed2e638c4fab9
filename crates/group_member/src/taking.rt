ghost use Rattle.std.specs.Prelude.{◌≡◌, ◌↔◌, [], ◌∷◌, IsTrue, IfOk, OnOk, OnErr};
ghost use Rattle.group_message.specs.declared.message.Message.TheVariants as tells;
ghost use Rattle.group_run.specs.Receiving as machine;
ghost use Rattle.group_node.specs.Delivering.{Comes};
ghost use Rattle.group_wire.specs.Actions as act;
ghost use Rattle.group_member.specs.Acting.{Acts};
ghost use Rattle.group_member.specs.Words.{CanTakeDeath};

use crate::member::Member;
use group_types::ProcessId;
use head_service::Settlement;
use std::alloc::AllocError;

impl Member {
    /// Whether a death is permitted and not taken, and the process can learn of it.
    pub fn may_take(&self, x: ProcessId) -> bool
        ensures { IsTrue result ↔ (CanTakeDeath self.now.words x
            × Comes self.now.words.shape x (tells.Notice x) self.now.node.process) }
    {
        self.words.may_take(x) && self.node.may_learn(x)
    }

    /// A death is taken: the updates that settle by it, in order. After want of memory the member is as it was.
    pub fn take(&mut self, x: ProcessId) -> Result<Vec<Settlement>, AllocError>
        requires may { CanTakeDeath self.old.words x }
        requires comes { Comes self.old.words.shape x (tells.Notice x) self.old.node.process }
        ensures acts { OnOk result (Acts (act.Take x self.old.words.name ∷ []) self.old self.new) }
        ensures settled { IfOk result (λ calls. calls.items
            ≡ (machine.receive self.old.words.shape x (tells.Notice x) self.old.node.process).settled) }
        ensures want { OnErr result (self.new ≡ self.old) }
    {
        let out = self.node.learn_death(x)?;
        self.words.take(x);
        Ok(out.settled)
    }

    /// The process tells how far it has settled. After want of memory the member is as it was.
    pub fn flush(&mut self) -> Result<(), AllocError>
        ensures acts { OnOk result (Acts (act.Flush self.old.words.name ∷ []) self.old self.new) }
        ensures want { OnErr result (self.new ≡ self.old) }
    {
        let _ = self.node.flush()?;
        Ok(())
    }
}
