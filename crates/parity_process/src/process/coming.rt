ghost use Rattle.std.specs.Prelude.{◌≡◌, ◌↔◌, IsTrue};
ghost use Rattle.process_service.specs.Current.{is_current};
ghost use Rattle.parity_process.specs.Coming.{FitsParity};

use super::ParityProcess;
use crate::marking::Mark;
use crate::marking::coming::{may_mark, takes};
use group_message::{Message, Session};
use group_types::ProcessId;

impl ParityProcess {
    /// Whether a message can be received from a process: it is no question for a block, and fits what the process
    /// holds. It takes no memory.
    pub fn may_come(&self, from: ProcessId, message: &Message) -> bool
        ensures { IsTrue result ↔ FitsParity self.now.shape from message.now self.now.process }
    {
        match message {
            Message::Update {
                rank,
                partition,
                update,
                stable,
            } => self
                .service
                .may_follow(from, *rank, *partition, update, *stable),
            Message::Ack {
                rank,
                partition,
                number,
            } => self
                .service
                .may_acknowledge(from, *rank, *partition, *number),
            Message::Stable {
                rank,
                partition,
                number,
            } => self.service.may_settle(from, *rank, *partition, *number),
            Message::Adopt {
                rank,
                partition,
                base,
                list,
            } => self.service.may_adopt(from, *rank, *partition, *base, list),
            Message::ReadBlock { .. } => false,
            Message::Block { session, bytes, .. } => {
                self.leads(*session) && self.bytes.may_take_block(from, session.number, bytes)
            }
            Message::Mark {
                session,
                rank,
                block,
                partition,
                number,
            } => {
                let mark = Mark {
                    session: *session,
                    rank: *rank,
                    block: *block,
                    partition: *partition,
                    number: *number,
                };
                may_mark(mark, &self.service, &self.bytes)
            }
            Message::Row { session, bytes, .. } => {
                self.leads(*session) && self.bytes.may_take_row(from, session.number, bytes)
            }
            Message::Cease { .. } => self.service.is_parity(from),
            Message::Notice { dead } => self.service.may_notice(from, *dead),
        }
    }

    /// Whether a message is acted on, and not dropped for its rank, nor as a mark that the row doesn't take.
    /// It takes no memory.
    pub fn acts_on(&self, message: &Message) -> bool
        ensures { result ≡ is_current self.now.process message.now }
    {
        match message {
            Message::Mark {
                session,
                rank,
                block,
                partition,
                number,
            } => {
                let mark = Mark {
                    session: *session,
                    rank: *rank,
                    block: *block,
                    partition: *partition,
                    number: *number,
                };
                takes(mark, &self.service, &self.bytes)
            }
            _ => self.service.acts_on(message),
        }
    }

    // Whether a session is one of its own.
    fn leads(&self, session: Session) -> bool
        ensures { IsTrue result ↔ session.leader ≡ self.now.process.name }
    {
        session.leader == self.service.name()
    }
}
