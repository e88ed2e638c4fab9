ghost use Rattle.std.specs.Prelude.{◌≡◌, ◌↔◌, ℕ, IsTrue};
ghost use Rattle.group_types.specs.declared.process.ProcessId.TheVariants.{DataNode, ParityNode};
ghost use Rattle.law_answers.specs.Deliveries.{IsFor};
ghost use Rattle.process_service.specs.Current.{is_current};
ghost use Rattle.group_node.specs.Delivering.{Comes};

use super::{Process, Role};
use group_message::Message;
use group_types::ProcessId;

impl Process {
    /// Whether a message can be received from a process of the group. It takes no memory.
    pub fn may_come(&self, from: ProcessId, message: &Message) -> bool
        ensures { IsTrue result ↔ Comes self.now.shape from message.now self.now.process }
    {
        match &self.role {
            Role::Data(process) => process.may_come(from, message),
            Role::Parity(process) => process.may_come(from, message),
        }
    }

    /// Whether a message is acted on, and not dropped for its rank, nor as a mark that the row doesn't take.
    /// It takes no memory.
    pub fn acts_on(&self, message: &Message) -> bool
        requires { IsFor self.now.process.name message.now }
        ensures { result ≡ is_current self.now.process message.now }
    {
        match &self.role {
            Role::Data(process) => process.acts_on(message),
            Role::Parity(process) => process.acts_on(message),
        }
    }

    /// The number of the last block session that a parity process opened, 0 at a data process.
    pub fn last_session(&self) -> u64
        ensures parity { (i : ℕ) → self.now.process.name ≡ ParityNode i
            → result ≡ self.now.process.as_leader.last_session }
        ensures data_process { (d : ℕ) → self.now.process.name ≡ DataNode d → result ≡ 0 }
    {
        match &self.role {
            Role::Data(_) => 0,
            Role::Parity(process) => process.last_session(),
        }
    }
}
