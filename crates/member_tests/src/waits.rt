// Callers that are held, and free again.
use crate::gateway::TestGateway;
use crate::group::Group;
use crate::line::Presence;
use crate::seat::Life;

/// How many callers each member has where a group has 20, and how many of them changes may hold.
const CALLERS: usize = 12;

const CHANGES: usize = 9;

/// How many clients the first member has.
const CLIENTS: usize = 60;

/// How often a client gets all items, so that more than 256 KiB wait to be sent to it.
const MANY: u32 = 10;

impl<G: TestGateway> Group<'_, G> {
    /// Clients go away with calls open: all callers can be used by others.
    pub(crate) fn leave(&mut self) {
        self.begin_first();
        self.crowd.raise_by(1, 20);
        self.turns_of_first();
        self.first_has_open(CHANGES, 1);
        'clients: for client in 1..20 {
            self.crowd.leave(client, Presence::Breaks);
        }
        self.turns_of_first();
        self.settle();
        self.first_has_open(0, 2);
        self.crowd.raise_by(20, 40);
        self.crowd.get_by(40, 50);
        self.turns_of_first();
        self.first_has_open(CALLERS, 3);
        self.settle();
        self.read_back(62);
    }

    /// A client takes nothing of what it asked for, which is more than may wait, and then goes away: it holds no caller.
    pub(crate) fn stall(&mut self) {
        self.begin_first();
        self.crowd.set_items(0);
        self.settle();
        self.crowd.leave(1, Presence::Stalls);
        self.crowd.get_items(1, MANY);
        self.rounds(600);
        self.first_has_open(0, 7);
        self.crowd.leave(1, Presence::Breaks);
        self.settle();
        self.first_has_open(0, 8);
        self.crowd.raise_by(20, 40);
        self.turns_of_first();
        self.first_has_open(CHANGES, 9);
        self.settle();
        self.read_back(62);
    }

    /// A parity process hangs: changes wait until it is said to be dead, and gets don't.
    pub(crate) fn hang(&mut self) {
        let last = self.many().saturating_sub(1);
        self.begin_first();
        self.put_life(last, Life::Hangs);
        self.crowd.raise_by(0, 20);
        self.rounds(30);
        self.crowd.get_by(20, 50);
        self.rounds(200);
        self.first_has_open(CHANGES, 4);
        self.crowd.expect_heard(20, 50, 5);
        self.say_dead(1, last);
        self.settle();
        self.crowd.expect_heard(0, 50, 6);
        self.read_back(62);
    }

    // Clients join at the first member, and set the counters.
    fn begin_first(&mut self) {
        self.join_lines(0, CLIENTS);
        self.crowd.set_counters(0);
        self.settle();
    }

    // The first member makes turns of its own, of which nothing comes elsewhere.
    fn turns_of_first(&mut self) {
        'turns: for _ in 0..30u32 {
            self.turn(0);
        }
    }

    fn first_has_open(&mut self, wanted: usize, number: u32) {
        let open = match self.seats.first() {
            Some(seat) => seat.open_calls(),
            None => usize::MAX,
        };
        self.crowd.expect(open == wanted, number);
    }
}
