ghost use Rattle.std.specs.Prelude.{◌≡◌, ◌<◌, ◌++◌, [], ◌∷◌, length, IfSome, MatchOption};
ghost use Rattle.group_stage.specs.Seated.{AreSeatsOf, IsOf};
ghost use Rattle.group_stage.specs.declared.stage.Stage.{Stage};

use crate::seat::Seat;
use std::marker::Model;

/// The seats of a stage that no thread has.
#[derive(Drop)]
pub struct Seats {
    pub(crate) made: u32,
    pub(crate) seats: Vec<Seat>,
}

impl Model for Seats {
    ghost use Rattle.std.specs.Prelude.{◌≤◌};
    ghost use Rattle.std.specs.Vec.{vec_capacity, vec_len};
    ghost use Rattle.group_stage.specs.SeatList.{SeatList};

    ghost Value = { SeatList };

    ghost view = { λ s. record { made = s.made; seats = s.seats.items } };

    ghost invariant = { λ s. (vec_len s.seats ≤ s.made) × (s.made ≤ vec_capacity s.seats) };
}

impl Seats {
    /// The last seat is taken out; none exactly where there is none.
    pub fn take(&mut self) -> Option<Seat>
        ensures made { self.new.made ≡ self.old.made }
        ensures last { MatchOption result ((self.old.seats ≡ []) × (self.new.seats ≡ []))
            (λ seat. self.old.seats ≡ self.new.seats ++ seat ∷ []) }
        ensures of_stage { (stage : Stage) → AreSeatsOf stage self.old.seats
            → AreSeatsOf stage self.new.seats × IfSome result (IsOf stage) }
    {
        self.seats.pop()
    }

    /// A seat comes to the end. It takes no memory.
    pub fn put(&mut self, seat: Seat)
        requires { length self.old.seats < self.old.made }
        ensures put { self.new ≡ record { made = self.old.made; seats = self.old.seats ++ seat ∷ [] } }
        ensures of_stage { (stage : Stage) → AreSeatsOf stage self.old.seats → IsOf stage seat → AreSeatsOf stage self.new.seats }
    {
        self.seats.push_reserved(seat);
    }

    /// How many there are.
    pub fn count(&self) -> u32
        ensures { result ≡ length self.now.seats }
    {
        self.seats.len().min(self.made as usize) as u32
    }
}
