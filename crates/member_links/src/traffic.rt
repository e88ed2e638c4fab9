/// How many bytes went over a link.
#[derive(Clone, Copy)]
pub struct Traffic {
    /// Bytes that the system took to be sent.
    pub sent: u64,
    /// Bytes that came.
    pub received: u64,
}

impl Traffic {
    /// None did.
    pub(crate) fn none() -> Traffic {
        Traffic {
            sent: 0,
            received: 0,
        }
    }

    /// So many bytes were sent.
    pub(crate) fn send(&mut self, bytes: usize) {
        self.sent = self.sent.saturating_add(bytes as u64);
    }

    /// So many bytes came.
    pub(crate) fn receive(&mut self, bytes: usize) {
        self.received = self.received.saturating_add(bytes as u64);
    }
}
