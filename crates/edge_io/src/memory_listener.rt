use crate::arrival::Arrival;
use crate::calls::Calls;
use crate::fault::Failed;
use crate::listener::Listener;
use crate::memory_source::MemorySource;
use crate::past::Past;
use crate::shared_sink::SharedSink;
use std::alloc::{AllocError, Global};
use std::collections::VecDeque;
use std::marker::Model;
use std::sync::{Arc, Mutex};

/// The most connections that a listener hands out.
const MOST_CONNECTIONS: u64 = 1 << 62;

/// A listener in memory: it hands out its connections in their order and then none. Its calls of `listen` and
/// `accept` fail by their number, counted together, and take no memory.
#[derive(Drop)]
pub struct MemoryListener {
    at: Option<Past>,
    to_come: VecDeque<Arrival>,
    buffers: Vec<Arc<Mutex<Vec<u8>>>>,
    accepted: u64,
    over: bool,
    calls: Calls,
}

impl Model for MemoryListener {
    ghost use Rattle.std.specs.Prelude.{◌≡◌, ◌+◌, ◌^◌, ◌≤◌, [], true, length};
    ghost use Rattle.std.specs.Option.{option_map};
    ghost use Rattle.edge_io.specs.Arrivals.{Arrivals};

    ghost Value = { Arrivals };

    ghost view = { λ l. record { at = option_map (λ p. p.bytes) l.at; to_come = l.to_come.items; accepted = l.accepted; over = l.over; calls = l.calls } };

    ghost invariant = { λ l. (l.accepted + length l.to_come.items ≤ 2 ^ 62) × (l.over ≡ true → l.to_come.items ≡ []) };
}

impl MemoryListener {
    ghost use Rattle.std.specs.Prelude.{◌≡◌, ℕ, map, IfOk, None, false, Vec};
    ghost use Rattle.std.specs.Global.{Global};

    /// A listener to which these connections come, each given by the bytes that a client sends. The calls of
    /// `listen` and of `accept` with a number in `failing`, counted together from 1, fail.
    pub fn new(
        alloc: Global,
        connections: Vec<Vec<u8>>,
        failing: &[u64],
    ) -> Result<MemoryListener, AllocError>
        ensures { IfOk result (λ l. l ≡ record {
          at = None;
          to_come = map (λ (c : Vec ℕ Global). c.items) connections.items;
          accepted = 0;
          over = false;
          calls = record { failing = failing.now; made = 0; faults = 0 };
        }) }
    {
        if connections.len() as u64 > MOST_CONNECTIONS {
            return Err(AllocError);
        }
        let mut to_come = VecDeque::new(alloc);
        let mut buffers = Vec::new(alloc);
        'connections: for bytes in &connections {
            let sink = SharedSink::new(alloc)?;
            buffers.push(sink.buffer()?)?;
            to_come.push_back(Arrival::new(alloc, bytes, sink)?)?;
        }
        Ok(MemoryListener {
            at: None,
            to_come,
            buffers,
            accepted: 0,
            over: false,
            calls: Calls::new(alloc, failing)?,
        })
    }

    /// A copy of the bytes that a connection took so far, the connections being numbered from 1: none where no
    /// connection has this number. `AllocError` also comes where a write of this connection is under way.
    pub fn held(&self, alloc: Global, connection: u64) -> Result<Vec<u8>, AllocError> {
        let index = (connection as usize).wrapping_sub(1);
        let Some(buffer) = self.buffers.get(index) else {
            return Ok(Vec::new(alloc));
        };
        match buffer.try_lock() {
            Some(bytes) => Vec::from_slice(alloc, &bytes),
            None => Err(AllocError),
        }
    }
}

impl Listener for MemoryListener {
    ghost use Rattle.std.specs.Prelude.{◌≡◌, ◌^◌, ◌+◌, ◌≤◌, Some, [], IfOk, IfSome, is_err, false};
    ghost use Rattle.edge_io.specs.Arrivals.{after_listen, after_accept};
    ghost use Rattle.edge_io.specs.Calls.{after_call, fails_next};
    ghost use Rattle.edge_io.specs.Connections.{IsOverAfter, TakesNext, count_handed_out};
    ghost use Rattle.edge_io.specs.Faults.{HasCause};

    type Incoming = MemorySource;

    type Outgoing = SharedSink;

    ghost faults = { λ l. l.calls.faults };

    ghost accepted = { λ l. l.accepted };

    ghost over = { λ l. l.over };

    ghost to_come = { λ l. Some l.to_come };

    ghost at = { λ l. l.at };

    ghost listened = { λ before address after. after ≡ after_listen before address };

    fn listen(&mut self, address: &str) -> Result<(), Failed>
        ensures becomes { self.new ≡ after_listen self.old address.now }
        ensures limit { self.new.accepted ≤ 2 ^ 62 }
        ensures fails { is_err result ≡ fails_next self.old.calls }
        ensures cause { HasCause self.old.calls.faults self.new.calls.faults result }
    {
        self.calls.count_next()?;
        self.at = Some(Past::of(address.as_bytes()));
        Ok(())
    }

    fn accept(&mut self) -> Result<Option<(MemorySource, SharedSink)>, Failed>
        ensures becomes { self.new ≡ after_accept self.old result }
        ensures limit { self.new.accepted ≤ 2 ^ 62 }
        ensures fails { is_err result ≡ fails_next self.old.calls }
        ensures end { IsOverAfter self.old.over self.new.over result }
        ensures next { TakesNext (Some self.old.to_come) (Some self.new.to_come) (λ c. Some c.0.left) result }
        ensures unread { IfOk result (λ o. IfSome o (λ c. (c.0.taken ≡ []) × (c.0.ended ≡ false))) }
        ensures fresh { IfOk result (λ o. IfSome o (λ c. c.1.past.bytes ≡ [])) }
        ensures cause { HasCause self.old.calls.faults self.new.calls.faults result }
    {
        self.calls.count_next()?;
        match self.to_come.pop_front() {
            Some(arrival) => {
                self.accepted += 1;
                Ok(Some(arrival.open()))
            }
            None => {
                self.over = true;
                Ok(None)
            }
        }
    }
}
