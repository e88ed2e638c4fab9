// Members that die while their clients wait.
use crate::client::Kind;
use crate::gateway::TestGateway;
use crate::group::Group;
use crate::seat::Life;
use group_types::hash::fnv1a_of;

impl<G: TestGateway> Group<'_, G> {
    /// Clients of all members but the head of the counter's partition raise it ten times each, while that ends and is said
    /// to be dead.
    pub(crate) fn count(&mut self) {
        let head = self.head();
        let other = self.after(head, 1);
        self.join_but(head, 6);
        self.crowd.set_counters(0);
        self.settle();
        'times: for time in 0..10u32 {
            self.all_raise();
            match time {
                4 => self.end(head),
                6 => self.say_dead(other, head),
                _ => {}
            }
            self.mix(40);
        }
        self.settle();
        let raised = (self.crowd.clients.len() as u64).saturating_mul(10);
        self.read_back(7);
        self.crowd.expect_raised(raised);
    }

    /// A member ends while calls of its clients are open: those of others go on, and all that was acknowledged is there.
    pub(crate) fn lose(&mut self, lost: usize) {
        self.begin();
        'times: for time in 0..12u32 {
            self.all_speak();
            self.mix(20);
            if time == 7 {
                self.turn(lost);
                self.end(lost);
            }
        }
        let other = self.after(lost, 1);
        self.say_dead(other, lost);
        self.settle();
        self.read_back(6);
    }

    /// The only client, at a member, asks for a change that the head never hears of, since it ends: the change is asked again
    /// of the successor, though nothing else happens.
    pub(crate) fn succeed(&mut self, seat: usize) {
        let head = self.head();
        let client = self.join(seat, 0, Kind::Counts);
        self.crowd.set_counters(client);
        self.settle();
        self.crowd.say_raise(client);
        self.turn(seat);
        self.end(head);
        self.say_dead(seat, head);
        self.settle();
        self.read_back(1);
        self.crowd.expect_raised(1);
    }

    /// Two that live are said to be dead, one of them the head, and don't hear of it: their clients hear nothing from then
    /// on.
    pub(crate) fn haunt(&mut self) {
        let head = self.head();
        let second = self.after(head, 1);
        self.join_but(usize::MAX, 2);
        self.crowd.set_counters(0);
        self.settle();
        self.all_raise();
        self.settle();
        self.make_ghost(head);
        self.make_ghost(second);
        self.rounds(20);
        let seen = self.crowd.seen_at([head, second]);
        'times: for _ in 0..6u32 {
            self.raise_or_get();
            self.rounds(10);
        }
        self.settle();
        let since = self.crowd.seen_at([head, second]);
        self.crowd.expect(since == seen, 4);
        self.read_back(6);
    }

    // The member that is the head of the counter's partition.
    fn head(&self) -> usize {
        (fnv1a_of(b"0") % self.shape().k().max(1)) as usize
    }

    // It is said to be dead to the second behind the head, and lives.
    fn make_ghost(&mut self, seat: usize) {
        let other = self.after(self.head(), 2);
        self.put_life(seat, Life::Ghost);
        self.say_dead(other, seat);
    }

    // Frames come and members make turns, so many times by chance.
    fn mix(&mut self, times: u32) {
        'times: for _ in 0..times {
            let (from, to, seat) = (self.pick_seat(), self.pick_seat(), self.pick_seat());
            self.carry(from, to, 3);
            self.turn(seat);
        }
        self.now = self.now.saturating_add(1);
    }

    // So many clients that count join at each member but one.
    fn join_but(&mut self, but: usize, each: usize) {
        'seats: for seat in 0..self.many() {
            if seat != but {
                self.join_lines(seat, each);
            }
        }
    }

    /// So many clients that count join at a member.
    pub(crate) fn join_lines(&mut self, seat: usize, each: usize) {
        'clients: for line in 0..each {
            self.join(seat, line, Kind::Counts);
        }
    }

    fn all_speak(&mut self) {
        'clients: for client in 0..self.crowd.clients.len() {
            self.crowd.speak(client);
        }
    }

    fn all_raise(&mut self) {
        'clients: for client in 0..self.crowd.clients.len() {
            self.crowd.say_raise(client);
        }
    }

    // Clients of ghosts get the counters, and the others raise one.
    fn raise_or_get(&mut self) {
        'clients: for client in 0..self.crowd.clients.len() {
            if self.is_at_ghost(client) {
                self.crowd.say_counters(client);
            } else {
                self.crowd.say_raise(client);
            }
        }
    }

    fn is_at_ghost(&self, client: usize) -> bool {
        match self.crowd.clients.get(client) {
            Some(client) => self.life(client.seat) == Life::Ghost,
            None => false,
        }
    }
}
