ghost use Rattle.std.specs.Prelude.{◌≡◌, ◌<◌, ◌^◌, ◌+◌, [], length, IfOk, IfSome, OnErr, OnOk};
ghost use Rattle.group_types.specs.Lists.{at};
ghost use Rattle.group_run.specs.Replica.{callers};
ghost use Rattle.group_run.specs.World.{opening};
ghost use Rattle.group_ledger.specs.Books.{Once, books_of, call_in, recorded, refusal_in, settled_by};

use crate::entering::{NewCall, enter};
use crate::places::{no_places, reserve_each};
use crate::settling::settle_all;
use crate::tickets::Ticket;
use group_calls::{Answer, Entry};
use group_types::{CALLERS, Partition, Run, Shape};
use head_service::Settlement;
use std::alloc::{AllocError, Global};
use std::marker::Model;

/// What a group keeps beside its nodes, with room for a call and for settled updates.
#[derive(Drop)]
pub struct Ledger {
    shape: Shape,
    events: u64,
    asked: Vec<u64>,
    log: Vec<Entry>,
    places: Vec<Vec<Option<Run>>>,
    tickets: Vec<Ticket>,
    room: usize,
}

impl Model for Ledger {
    ghost use Rattle.std.specs.Prelude.{◌<◌, ◌≤◌, ◌+◌, length, map, vec_len, vec_capacity, All};
    ghost use Rattle.group_ledger.specs.Books.{AreWholeBooks, KeptBooks};

    ghost Value = { KeptBooks };

    ghost view = { λ l. record {
      books = record {
        shape = l.shape;
        events = l.events;
        asked = l.asked.items;
        log = l.log.items;
        places = map (λ p. p.items) l.places.items;
        tickets = l.tickets.items;
      };
      room = l.room;
    } };

    ghost invariant = { λ l. AreWholeBooks l.shape.k l.events l.asked.items (length l.places.items) l.tickets.items
        × (vec_len l.log + l.room ≤ vec_capacity l.log)
        × All (λ p. vec_len p + l.room ≤ vec_capacity p) l.places.items
        × (0 < l.room → vec_len l.tickets < vec_capacity l.tickets) };
}

impl Ledger {
    /// The ledger at the start, without room.
    pub fn new(alloc: Global, shape: Shape) -> Result<Ledger, AllocError>
        ensures { IfOk result (λ ledger. ledger ≡ record { books = books_of (opening shape); room = 0 }) }
    {
        Ok(Ledger {
            shape,
            events: 0,
            asked: vec![in alloc; 0; CALLERS as usize]?,
            log: Vec::new(alloc),
            places: no_places(alloc, shape.k())?,
            tickets: Vec::new(alloc),
            room: 0,
        })
    }

    /// The shape of the group.
    pub fn shape(&self) -> Shape
        ensures { result ≡ self.now.books.shape }
    {
        self.shape
    }

    /// How many events there were.
    pub fn events(&self) -> u64
        ensures { result ≡ self.now.books.events }
    {
        self.events
    }

    /// How often a caller asked.
    pub fn asks(&self, caller: u32) -> u64
        requires { caller < callers }
        ensures { result ≡ at 0 self.now.books.asked caller }
    {
        self.asked[caller as usize]
    }

    /// The log, in order.
    pub fn log(&self) -> &[Entry]
        ensures { result.now ≡ self.now.books.log }
    {
        &self.log
    }

    /// How many updates of a partition are logged.
    pub fn count(&self, partition: Partition) -> u64
        requires { partition.0 < self.now.books.shape.k }
        ensures { result ≡ length (at [] self.now.books.places partition.0) }
    {
        self.places[partition.0 as usize].len() as u64
    }

    /// The run of each logged update of a partition, by number.
    pub fn places(&self, partition: Partition) -> &[Option<Run>]
        requires { partition.0 < self.now.books.shape.k }
        ensures { result.now ≡ at [] self.now.books.places partition.0 }
    {
        &self.places[partition.0 as usize]
    }

    /// Makes room for a call and for this many settled updates and one more. Room that isn't used doesn't pile up.
    ///
    /// `AllocError`: the books are as they were, and no room is counted.
    pub fn reserve(&mut self, settled: usize) -> Result<(), AllocError>
        ensures books { self.new.books ≡ self.old.books }
        ensures ok { OnOk result (self.new.room ≡ settled + 2) }
        ensures few { OnOk result (self.new.room < 2 ^ 64) }
    {
        self.room = 0;
        let room = settled.saturating_add(2);
        self.log.reserve(room)?;
        self.tickets.reserve(1)?;
        reserve_each(&mut self.places, room)?;
        self.room = room;
        Ok(())
    }

    /// Records an event: the call that it asked, if it asked one, its answer, and what it settled. It
    /// takes no memory, and hands out how many entries were logged.
    pub fn record(&mut self, call: Option<NewCall>, answer: &Answer, settled: &[Settlement]) -> u64
        requires room { length settled.now < self.old.room }
        requires events { self.old.books.events < 2 ^ 62 }
        requires caller { IfSome call (λ c. c.caller < callers) }
        requires refusal { IfSome call (λ c. c.refusal ≡ refusal_in answer.now) }
        requires once { Once (settled_by (call_in self.old.books.asked call) answer.now settled.now self.old.books).logged }
        ensures books { self.new.books ≡ recorded
            (call_in self.old.books.asked call) answer.now settled.now self.old.books }
        ensures logged { result ≡ length (settled_by (call_in self.old.books.asked call) answer.now settled.now self.old.books).logged }
        ensures room { self.new.room ≡ 0 }
    {
        let before = self.log.len();
        self.events += 1;
        enter(
            call,
            answer,
            &mut self.asked,
            &mut self.log,
            &mut self.tickets,
        );
        settle_all(settled, &mut self.places, &mut self.log, &mut self.tickets);
        self.room = 0;
        (self.log.len() - before) as u64
    }
}
