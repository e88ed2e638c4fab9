use crate::carrying::Carrying;
use crate::lane::Lane;
use crate::report::CarryReport;
use crate::stop::Stop;
use crate::wire::Wire;
use carry_words::{Stage, request_of};
use std::net::Net;
use std::time;

/// After how many milliseconds a connection is opened again that ended.
const AGAIN: u64 = 200;

/// How long an answer may take, in milliseconds, before it is asked for elsewhere.
const ANSWERING: u64 = 30_000;

impl<R: Net + time::Clock, W: CarryReport> Carrying<'_, R, W> {
    /// The connections of each partition to the heads of both groups.
    pub(crate) fn begin_lanes(&mut self) -> Result<(), Stop> {
        let k = self.settings.k as usize;
        'queues: for queue in 0..k.saturating_mul(2) {
            let head = if queue < k {
                self.old.head_of(queue)
            } else {
                self.new.head_of(queue.saturating_sub(k))
            };
            let member = match head {
                Some(head) => head.member,
                None => 0,
            };
            'lanes: for _ in 0..self.settings.lanes {
                self.lanes.push(Lane::new(self.alloc, queue, member))?;
            }
        }
        Ok(())
    }

    /// Opens a connection, where it isn't open and may be.
    pub(crate) fn open_lane(&mut self, i: usize) {
        if !self.is_due(i) {
            return;
        }
        match self.open_wire(i) {
            Some(wire) => {
                if let Some(lane) = self.lanes.get_mut(i) {
                    lane.begin(wire, self.now);
                }
            }
            None => self.turn_lane(i),
        }
    }

    // Whether a connection is to be opened, which is then not to be opened again at once.
    fn is_due(&mut self, i: usize) -> bool {
        let Some(lane) = self.lanes.get_mut(i) else {
            return false;
        };
        if lane.is_open() || self.now < lane.due {
            return false;
        }
        lane.due = self.now.saturating_add(AGAIN);
        true
    }

    fn open_wire(&self, i: usize) -> Option<Wire> {
        let lane = self.lanes.get(i)?;
        if lane.queue < self.settings.k as usize {
            self.wire_to(i, self.old.client_at(lane.member))
        } else {
            self.wire_to(i, self.new.client_at(lane.member))
        }
    }

    fn wire_to(&self, i: usize, address: &str) -> Option<Wire> {
        Wire::open(self.rt, self.alloc, self.poll.registry(), i, address).ok()
    }

    // A connection is to be opened to the next member.
    fn turn_lane(&mut self, i: usize) {
        let k = self.settings.k as usize;
        if let Some(lane) = self.lanes.get_mut(i) {
            lane.member = if lane.queue < k {
                self.old.next_there(lane.member)
            } else {
                self.new.next_there(lane.member)
            };
        }
    }

    /// Asks for what waits in a connection's queue, as far as it has room.
    pub(crate) fn fill_lane(&mut self, i: usize) -> Result<(), Stop> {
        'items: for _ in 0..u64::MAX {
            let Some(lane) = self.lanes.get_mut(i) else {
                return Ok(());
            };
            if !lane.has_room() {
                return Ok(());
            }
            let Some(at) = self.places.next(lane.queue) else {
                return Ok(());
            };
            if let Some(transfer) = self.carry.at(at) {
                let text = request_of(self.alloc, transfer)?;
                if lane.count_asked() == 0 {
                    lane.heard = self.now;
                }
                lane.ask(at, text.as_slice())?;
            }
        }
        Ok(())
    }

    /// Ends a connection that broke, or on which nothing was answered for long: what was asked for on it is asked for elsewhere.
    pub(crate) fn break_lane(&mut self, i: usize) -> Result<(), Stop> {
        'items: for _ in 0..u64::MAX {
            let Some(lane) = self.lanes.get_mut(i) else {
                return Ok(());
            };
            lane.end();
            let Some(at) = lane.take_first() else {
                break;
            };
            self.queue(at)?;
        }
        self.turn_lane(i);
        Ok(())
    }

    /// Whether an answer takes too long on a connection.
    pub(crate) fn is_late(&self, i: usize) -> bool {
        match self.lanes.get(i) {
            Some(lane) => {
                lane.count_asked() > 0 && self.now.saturating_sub(lane.heard) > ANSWERING
            }
            None => false,
        }
    }

    /// The item at a place is to be asked for, in the group where it is next.
    pub(crate) fn queue(&mut self, at: usize) -> Result<(), Stop> {
        let k = self.settings.k as usize;
        let d = self.places.partition_at(at);
        match self.carry.at(at) {
            Some(transfer) => {
                let queue = match transfer.stage {
                    Stage::Unread => d,
                    _ => d.saturating_add(k),
                };
                self.places.queue(queue, at)?;
            }
            None => {}
        }
        Ok(())
    }
}
