use crate::carrying::Carrying;
use crate::report::CarryReport;
use crate::stop::Stop;
use member_machine::CarryEnd;
use mio::Token;
use std::net::Net;
use std::time;

/// How long a turn waits at most, in milliseconds.
const LONGEST_WAIT: u64 = 50;

/// For how long nothing may go on, in milliseconds.
const STANDING: u64 = 60_000;

impl<R: Net + time::Clock, W: CarryReport> Carrying<'_, R, W> {
    /// Carries all items.
    pub(crate) fn run(&mut self) -> CarryEnd {
        self.wait(0);
        match self.carry_all() {
            Ok(()) => self.end(),
            Err(Stop::Want) => CarryEnd::Want,
            Err(Stop::Told) => {
                self.report.warn(
                    "not all items are carried: the old group stays closed; say open to its members, or carry again",
                );
                CarryEnd::Stopped
            }
        }
    }

    // Tells how many items are carried.
    fn end(&self) -> CarryEnd {
        let items = self.carry.carried();
        if let Ok(text) = format!(in self.alloc; "carried {items} items") {
            self.note(text);
        }
        CarryEnd::Carried { items }
    }

    fn carry_all(&mut self) -> Result<(), Stop> {
        self.close()?;
        self.await_rest()?;
        self.see_new()?;
        self.begin_lists()?;
        self.begin_lanes()?;
        self.carry_items()?;
        self.tell_counts()?;
        self.count_new()?;
        self.move_clients()
    }

    // Carries items until all that were listed are carried.
    fn carry_items(&mut self) -> Result<(), Stop> {
        self.moved = self.now;
        self.told = self.now;
        'turns: for _ in 0..u64::MAX {
            self.turn()?;
            if let Some(fault) = self.carry.fault() {
                self.tell_fault(fault);
                return Err(Stop::Told);
            }
            if self.carry.is_done() {
                return Ok(());
            }
            self.see_standstill()?;
        }
        Err(Stop::Told)
    }

    // A turn: waits, and then goes on with all connections.
    fn turn(&mut self) -> Result<(), Stop> {
        let most = if self.is_ready() { 0 } else { LONGEST_WAIT };
        self.wait(most);
        self.note_ready();
        self.ask_again()?;
        'lanes: for i in 0..self.lanes.len() {
            self.serve_lane(i)?;
        }
        self.read_lists()?;
        'lanes: for i in 0..self.lanes.len() {
            self.fill_lane(i)?;
            if let Some(lane) = self.lanes.get_mut(i) {
                lane.write_out();
            }
        }
        self.tell_progress()
    }

    // Whether a connection may go on at once.
    fn is_ready(&self) -> bool {
        self.lanes.iter().any(|lane| lane.is_ready)
    }

    // Sees which connections may go on.
    fn note_ready(&mut self) {
        'events: for event in self.events.iter() {
            let Token(i) = event.token();
            if let Some(lane) = self.lanes.get_mut(i) {
                lane.is_ready = true;
            }
        }
    }

    // Goes on with a connection.
    fn serve_lane(&mut self, i: usize) -> Result<(), Stop> {
        self.open_lane(i);
        let Some(lane) = self.lanes.get_mut(i) else {
            return Ok(());
        };
        if lane.is_ready {
            let is_open = lane.go_on();
            self.hear_lane(i)?;
            if !is_open {
                self.break_lane(i)?;
            }
        }
        if self.is_late(i) {
            self.break_lane(i)?;
        }
        Ok(())
    }

    // Stops where nothing went on for long, or the new group has no room.
    fn see_standstill(&mut self) -> Result<(), Stop> {
        if self.is_full || self.now.saturating_sub(self.moved) > STANDING {
            self.tell_standstill()?;
            return Err(Stop::Told);
        }
        Ok(())
    }
}
