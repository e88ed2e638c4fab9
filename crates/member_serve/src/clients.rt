use crate::callers::Callers;
use crate::client_port::{NextClient, refuse};
use crate::client_stream::ClientStream;
use crate::names::name_at;
use crate::report::Report;
use crate::serving::Serving;
use crate::telling::tell_serving;
use mio::net::TcpStream;
use ready_worker::{CrowdChange, MOST_OPEN, Watch};
use std::net::Net;

/// The most clients that are accepted in a turn.
const MOST_ACCEPTED: u32 = 64;

const TOO_MANY: &[u8] = b"SERVER_ERROR too many connections\r\n";

const MOVED: &[u8] = b"SERVER_ERROR group moved\r\n";

const TOO_FEW: &[u8] = b"SERVER_ERROR too few members answer\r\n";

impl<R: Net, W: Report + Watch, G: Callers> Serving<'_, R, W, G> {
    /// Accepts clients, once all members were linked or cut.
    pub(crate) fn accept_clients(&mut self) {
        if !self.client_port.is_open() && self.links.is_complete() {
            self.open_port();
        }
        'clients: for _ in 0..MOST_ACCEPTED {
            match self.client_port.next(self.rt, self.report, self.now) {
                NextClient::Client(stream) => self.admit(stream),
                NextClient::Last(stream) => self.turn_away(stream, TOO_MANY),
                NextClient::None => return,
            }
        }
    }

    // Clients are accepted from now on.
    fn open_port(&mut self) {
        let _ = self.client_port.open(self.worker.readiness().registry());
        let own = self.settings.own;
        if let Some(entry) = self.settings.members.entries().get(own as usize) {
            let name = name_at(self.settings, own);
            tell_serving(self.alloc, self.report, name, entry.client.as_str());
        }
    }

    // Serves a client, or tells it why it isn't served.
    fn admit(&mut self, stream: TcpStream) {
        if self.is_moved {
            return self.turn_away(stream, MOVED);
        }
        if self.is_stuck {
            return self.turn_away(stream, TOO_FEW);
        }
        let open = self.worker.len() as u64;
        self.tell_crowd(open);
        if open >= MOST_OPEN {
            return self.turn_away(stream, TOO_MANY);
        }
        if let Ok(stream) = ClientStream::new(self.alloc, stream) {
            let _ = self.worker.admit(stream);
            self.tally.accept();
        }
    }

    // Tells once that clients are refused since so many are there, and once that they aren't any more.
    fn tell_crowd(&mut self, open: u64) {
        match self.crowd.note(open) {
            CrowdChange::None => {}
            CrowdChange::Fills => self.report.refuses(open),
            CrowdChange::Thins => self.report.recovers(),
        }
    }

    fn turn_away(&mut self, stream: TcpStream, line: &[u8]) {
        refuse(stream, line);
        self.tally.refuse();
    }
}
