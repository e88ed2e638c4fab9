// Schedules that numbers make: clients say all kinds of things, frames come late, members die.
use crate::client::Kind;
use crate::gateway::TestGateway;
use crate::group::Group;
use crate::line::Presence;
use crate::seat::Life;

/// A member that dies: when, whether it ends or lives on, and how much later that is said.
#[derive(Clone, Copy)]
struct Death {
    seat: usize,
    turn: u32,
    ends: bool,
    delay: u32,
}

impl<G: TestGateway> Group<'_, G> {
    /// Plays a schedule of so many turns.
    pub(crate) fn play_turns(&mut self, turns: u32) {
        self.begin();
        self.draw_links();
        let deaths = self.draw_deaths(turns);
        'turns: for turn in 0..turns {
            self.come_all(&deaths, turn);
            self.step();
        }
        self.finish(&deaths);
    }

    /// Clients join at each member, and set the counters.
    pub(crate) fn begin(&mut self) {
        'seats: for seat in 0..self.many() {
            self.join(seat, 0, Kind::Rows);
            self.join(seat, 1, Kind::Counts);
            self.join(seat, 2, Kind::Swaps);
            self.join(seat, 3, Kind::Reads);
            self.join(seat, 4, Kind::Mixes);
        }
        self.crowd.set_counters(0);
        self.settle();
    }

    // Links are tight or not.
    fn draw_links(&mut self) {
        'seats: for seat in 0..self.many() {
            let scarce = match self.crowd.pick(4) {
                2 => 3,
                3 => 7,
                _ => 0,
            };
            if let Some(seat) = self.seats.get_mut(seat) {
                seat.links.scarce = scarce;
            }
        }
    }

    // At most m members die, none twice.
    fn draw_deaths(&mut self, turns: u32) -> Vec<Death> {
        let mut deaths: Vec<Death> = Vec::new(self.crowd.alloc);
        'deaths: for _ in 0..self.shape().m() {
            let death = self.draw_death(turns);
            if !is_named(&deaths, death.seat) {
                let had = deaths.push(death).is_ok();
                self.crowd.note(had);
            }
        }
        deaths
    }

    fn draw_death(&mut self, turns: u32) -> Death {
        Death {
            seat: self.pick_seat(),
            turn: self.crowd.pick(turns),
            ends: self.crowd.pick(3) > 0,
            delay: self.crowd.pick(60),
        }
    }

    fn come_all(&mut self, deaths: &[Death], turn: u32) {
        for death in deaths {
            self.come(*death, turn);
        }
    }

    // A member ends, or is said to be dead, in its turn.
    fn come(&mut self, death: Death, turn: u32) {
        if turn == death.turn && death.ends {
            self.end(death.seat);
        }
        if turn == death.turn.saturating_add(death.delay) {
            self.condemn(death);
        }
    }

    fn condemn(&mut self, death: Death) {
        if !death.ends {
            self.put_life(death.seat, Life::Ghost);
        }
        let first = self.pick_seat();
        'seats: for step in 0..self.many() {
            let to = self.after(first, step);
            if self.life(to) == Life::Lives {
                return self.say_dead(to, death.seat);
            }
        }
    }

    // Some frames come, a member makes a turn, and something else happens.
    fn step(&mut self) {
        self.carry_some();
        self.carry_some();
        let seat = self.pick_seat();
        self.turn(seat);
        match self.crowd.pick(32) {
            0..=23 => self.speak_some(),
            24..=27 => self.draw_moment(),
            28..=30 => self.draw_room(),
            _ => self.draw_leave(),
        }
    }

    fn carry_some(&mut self) {
        let (from, to, most) = (self.pick_seat(), self.pick_seat(), self.crowd.pick(6));
        self.carry(from, to, most);
    }

    fn speak_some(&mut self) {
        let (client, times) = (self.crowd.pick_client(), self.crowd.pick(4));
        'times: for _ in 0..times {
            self.crowd.speak(client);
        }
    }

    fn draw_moment(&mut self) {
        let most = self.crowd.pick(4);
        self.now = self.now.saturating_add(u64::from(most));
    }

    fn draw_room(&mut self) {
        let (seat, room) = (self.pick_seat(), self.crowd.pick(3) as usize);
        if let Some(seat) = self.seats.get_mut(seat) {
            seat.links.room = room;
        }
    }

    fn draw_leave(&mut self) {
        let (client, how) = (self.crowd.pick_client(), self.crowd.pick(16));
        match how {
            0 => self.crowd.leave(client, Presence::Ends),
            1 => self.crowd.leave(client, Presence::Breaks),
            _ => {}
        }
    }

    // All is said, comes and ends, and every member that lives gives what was acknowledged.
    fn finish(&mut self, deaths: &[Death]) {
        for seat in &mut self.seats {
            seat.links.scarce = 0;
            seat.links.room = usize::MAX;
        }
        for death in deaths {
            if death.ends && self.life(death.seat) != Life::Ended {
                self.end(death.seat);
            }
            self.condemn(*death);
        }
        self.settle();
        self.read_back(5);
    }

    /// A further client of each member that lives, on this connection, gets all keys.
    pub(crate) fn read_back(&mut self, line: usize) {
        let clients = self.crowd.clients.len();
        'seats: for seat in 0..self.many() {
            if self.life(seat) == Life::Lives {
                let reader = self.join(seat, line, Kind::Reads);
                self.read_all(reader, clients);
            }
        }
        self.settle();
    }

    fn read_all(&mut self, reader: usize, clients: usize) {
        self.crowd.say_counters(reader);
        'clients: for of in 0..clients {
            let _ = self.crowd.says_get(reader, of);
        }
    }
}

fn is_named(deaths: &[Death], seat: usize) -> bool {
    for death in deaths {
        if death.seat == seat {
            return true;
        }
    }
    false
}
