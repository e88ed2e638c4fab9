ghost use Rattle.std.specs.Prelude.{◌≡◌, ◌↔◌, IsTrue};
ghost use Rattle.group_run.specs.Fitting.{ReadFits};
ghost use Rattle.process_service.specs.Current.{IsNoMark, is_current};
ghost use Rattle.data_process.specs.Coming.{FitsData};

use super::DataProcess;
use crate::reading::coming::can_ask;
use group_message::{Message, Session};
use group_types::ProcessId;

impl DataProcess {
    /// Whether a message can be received from a process: an acknowledgement, a question for a block, or the notice of
    /// a death, that fits what the process holds. It takes no memory.
    pub fn may_come(&self, from: ProcessId, message: &Message) -> bool
        ensures { IsTrue result ↔ FitsData self.now.shape from message.now self.now.process }
    {
        match message {
            Message::Ack {
                rank,
                partition,
                number,
            } => self
                .service
                .may_acknowledge(from, *rank, *partition, *number),
            Message::ReadBlock {
                session,
                block,
                rows,
            } => self.may_read(*session, *block, rows.rows()),
            Message::Notice { dead } => self.service.may_notice(from, *dead),
            _ => false,
        }
    }

    /// Whether a message is acted on, and not dropped for its rank. It takes no memory.
    pub fn acts_on(&self, message: &Message) -> bool
        requires { IsNoMark message.now }
        ensures { result ≡ is_current self.now.process message.now }
    {
        self.service.acts_on(message)
    }

    // Whether a leader's question for a block fits.
    fn may_read(&self, session: Session, block: u32, rows: &[u32]) -> bool
        ensures { IsTrue result ↔ ReadFits self.now.shape self.now.process session block rows.now }
    {
        can_ask(session, block, rows, &self.service)
    }
}
