ghost use Rattle.std.specs.Prelude.{◌≡◌, ◌++◌, ◌-◌, ◌^◌, ℕ, List, [], length, min, true, false};
ghost use Rattle.std.specs.List.{list_any};
ghost use Rattle.memc_proto.specs.Reader.{HasRead};
ghost use Rattle.memc_proto.specs.Reads.{is_quit};
ghost use Rattle.memc_proto.specs.declared.request.Request.{Request};
ghost use Rattle.front_end.specs.Connection.{IsEndAt};
ghost use Rattle.front_end.specs.Faults.{HasSinkCause};
ghost use Rattle.front_end.specs.Progress.{EndsConnection};

use crate::caller::{Caller, make_call};
use crate::close::{close_at, end_at, has_quit};
use crate::due::Due;
use crate::end::{ConnectionFault, End};
use crate::overlap::Need;
use crate::waiting::Waiting;
use edge_io::{Clock, Sink};
use memc_proto::{CallEnd, FailEnd, Reader};
use memc_table::Op;
use std::alloc::{AllocError, Global};
use std::marker::Model;

/// The most bytes of a connection.
const LONGEST_INPUT: u64 = 1 << 62;

/// The most bytes that one piece has.
pub(crate) const PIECE: usize = 65_536;

/// A connection between two pieces of its input: it keeps the requests that were read and aren't answered yet.
#[derive(Drop)]
pub struct Connection {
    reader: Reader,
    waiting: Waiting,
    quits: bool,
    count: u64,
}

impl Model for Connection {
    ghost use Rattle.std.specs.Prelude.{◌≤◌, ◌^◌};
    ghost use Rattle.front_end.specs.Progress.{Progress};

    ghost Value = { Progress };

    ghost view = { λ c. record {
      kept = c.reader;
      waiting = c.waiting;
      quits = c.quits;
      count = c.count;
    } };

    ghost invariant = { λ c. c.count ≤ 2 ^ 62 };
}

impl Connection {
    ghost use Rattle.std.specs.Prelude.{◌≡◌, ◌≢◌, ◌+◌, ◌≤◌, ◌↔◌, ◌^◌, Ok, None, IfOk, IfSome, OnOk, IfErr, OnErr, IsTrue};
    ghost use Rattle.edge_io.specs.Writing.{HasWritten};
    ghost use Rattle.memc_proto.specs.Text.{fail_text};
    ghost use Rattle.front_end.specs.Ahead.{HasNeed, IsDueAhead, NoneIsDueAhead, unneeded_of};
    ghost use Rattle.front_end.specs.Answers.{stand};
    ghost use Rattle.front_end.specs.Progress.{BreaksAt, HasAnsweredNext};
    ghost use Rattle.front_end.specs.Settling.{CallIsDue, HasSettledDue, HasTold, IsDue, OrderIsDue, TextIsDue, first_text, own_text};

    /// A connection of which nothing was read.
    pub fn new(alloc: Global) -> Connection
        ensures kept { HasRead result.kept [] [] }
        ensures waiting { result.waiting ≡ [] }
        ensures quits { result.quits ≡ false }
        ensures count { result.count ≡ 0 }
    {
        Connection {
            reader: Reader::new(alloc),
            waiting: Waiting::none(alloc),
            quits: false,
            count: 0,
        }
    }

    /// The most bytes that the next piece may have: 65,536, or what is left of 2^62. At 0 the connection is worn.
    pub fn most(&self) -> usize
        ensures { result ≡ min (2 ^ 62 - self.now.count) 65536 }
    {
        (LONGEST_INPUT - self.count).min(PIECE as u64) as usize
    }

    /// Whether a request was read that isn't answered.
    pub fn has_waiting(&self) -> bool
        ensures some { result ≡ true → self.now.waiting ≢ [] }
        ensures none { result ≡ false → self.now.waiting ≡ [] }
    {
        self.waiting.has_some()
    }

    /// Takes the next piece of the input, once no request waits: those that are whole with it wait from then on.
    ///
    /// `AllocError`: nothing of the piece was taken.
    pub fn take(&mut self, piece: &[u8]) -> Result<(), AllocError>
        requires idle { self.old.waiting ≡ [] }
        requires room { self.old.count + length piece.now ≤ 2 ^ 62 }
        ensures taken { OnOk result ((input : List ℕ) (earlier : List Request)
            → HasRead self.old.kept input earlier → HasRead self.new.kept (input ++ piece.now) (earlier ++ self.new.waiting)) }
        ensures quits { OnOk result (self.new.quits ≡ list_any is_quit self.new.waiting) }
        ensures count { OnOk result (self.new.count ≡ self.old.count + length piece.now) }
        ensures want { OnErr result (self.new ≡ self.old) }
    {
        let given = self.reader.feed(piece)?;
        self.quits = has_quit(given.requests());
        self.waiting = Waiting::new(given);
        self.count += piece.len() as u64;
        Ok(())
    }

    /// Answers the first request that waits, or of a get of several keys the first: its call is made and its text
    /// written. After a fault the request still waits.
    pub fn answer_next<C: Caller, K: Sink, T: Clock>(
        &mut self,
        alloc: Global,
        caller: &mut C,
        sink: &mut K,
        clock: &T,
    ) -> Result<(), ConnectionFault>
        requires some { self.old.waiting ≢ [] }
        ensures answer { OnOk result (HasAnsweredNext C.ways (T.moment clock.now) (stand caller.old (K.held sink.old))
            (stand caller.new (K.held sink.new)) self.old.waiting self.new.waiting) }
        ensures broken { IfErr result (λ fault. BreaksAt C.ways (T.moment clock.now)
            (stand caller.old (K.held sink.old)) (stand caller.new (K.held sink.new)) fault self.old.waiting) }
        ensures stays { OnErr result (self.new ≡ self.old) }
        ensures kept { self.new.kept ≡ self.old.kept }
        ensures quits { self.new.quits ≡ self.old.quits }
        ensures count { self.new.count ≡ self.old.count }
        ensures cause { HasSinkCause (K.faults sink.old) (K.faults sink.new) result }
    {
        match self.due(clock)? {
            Due::Call(op) => {
                let end = make_call(caller, op)?;
                self.settle(alloc, end, sink)
            }
            Due::Fail { at, keep } => {
                let end = caller.fail(at, keep)?;
                self.settle_fail(alloc, end, sink)
            }
            Due::Text => self.settle_text(alloc, sink),
        }
    }

    /// What the first request that waits needs next.
    pub fn due<T: Clock>(&self, clock: &T) -> Result<Due, AllocError>
        requires some { self.now.waiting ≢ [] }
        ensures due { IfOk result (IsDue (T.moment clock.now) self.now.waiting) }
    {
        self.waiting.due(clock)
    }

    /// What the first request that waits needs.
    pub fn need(&self) -> Need
        requires some { self.now.waiting ≢ [] }
        ensures { HasNeed self.now.waiting result }
    {
        self.waiting.need()
    }

    /// The call that may begin behind so many that are under way: none where one of these asks its key, the requests need no
    /// further call, or an order comes first.
    pub fn ahead<T: Clock>(&self, begun: usize, clock: &T) -> Result<Option<Op>, AllocError>
        ensures due { IfOk result (λ next. IfSome next (IsDueAhead (T.moment clock.now) self.now.waiting begun)) }
        ensures none { result ≡ Ok None → NoneIsDueAhead self.now.waiting begun }
    {
        self.waiting.ahead(begun, clock)
    }

    /// How many calls of the first request needn't be made any more where its next one ended so.
    pub fn unneeded(&self, end: &CallEnd) -> usize
        requires due { CallIsDue self.now.waiting }
        ensures { result ≡ unneeded_of end.now self.now.waiting }
    {
        self.waiting.unneeded(end)
    }

    /// Takes the end of the call that was due, and writes its text. After a fault the request still waits.
    pub fn settle<K: Sink>(
        &mut self,
        alloc: Global,
        end: CallEnd,
        sink: &mut K,
    ) -> Result<(), ConnectionFault>
        requires due { CallIsDue self.old.waiting }
        ensures settled { OnOk result (HasSettledDue end (K.held sink.old) (K.held sink.new) self.old.waiting self.new.waiting) }
        ensures part { HasWritten (K.held sink.old) (K.held sink.new) (first_text end self.old.waiting) }
        ensures stays { OnErr result (self.new ≡ self.old) }
        ensures kept { self.new.kept ≡ self.old.kept }
        ensures quits { self.new.quits ≡ self.old.quits }
        ensures count { self.new.count ≡ self.old.count }
        ensures cause { HasSinkCause (K.faults sink.old) (K.faults sink.new) result }
    {
        self.waiting.settle(alloc, &end, sink)
    }

    /// Takes the end of the order that was due, and writes its text. After a fault the request still waits.
    pub fn settle_fail<K: Sink>(
        &mut self,
        alloc: Global,
        end: FailEnd,
        sink: &mut K,
    ) -> Result<(), ConnectionFault>
        requires due { OrderIsDue self.old.waiting }
        ensures told { OnOk result (HasTold (fail_text end) (K.held sink.old) (K.held sink.new) self.old.waiting
            self.new.waiting) }
        ensures part { HasWritten (K.held sink.old) (K.held sink.new) (fail_text end) }
        ensures stays { OnErr result (self.new ≡ self.old) }
        ensures kept { self.new.kept ≡ self.old.kept }
        ensures quits { self.new.quits ≡ self.old.quits }
        ensures count { self.new.count ≡ self.old.count }
        ensures cause { HasSinkCause (K.faults sink.old) (K.faults sink.new) result }
    {
        self.waiting.settle_fail(alloc, end, sink)
    }

    /// Writes the text of the first request that waits, which needs no call. After a fault it still waits.
    pub fn settle_text<K: Sink>(
        &mut self,
        alloc: Global,
        sink: &mut K,
    ) -> Result<(), ConnectionFault>
        requires due { TextIsDue self.old.waiting }
        ensures told { OnOk result (HasTold (own_text self.old.waiting) (K.held sink.old) (K.held sink.new)
            self.old.waiting self.new.waiting) }
        ensures part { HasWritten (K.held sink.old) (K.held sink.new) (own_text self.old.waiting) }
        ensures stays { OnErr result (self.new ≡ self.old) }
        ensures kept { self.new.kept ≡ self.old.kept }
        ensures quits { self.new.quits ≡ self.old.quits }
        ensures count { self.new.count ≡ self.old.count }
        ensures cause { HasSinkCause (K.faults sink.old) (K.faults sink.new) result }
    {
        self.waiting.settle_text(alloc, sink)
    }

    /// How the connection ends by what was read, if it does, once all of it is answered: a line that is too long is told.
    /// A fault comes of the sink alone.
    pub fn close<K: Sink>(&self, sink: &mut K) -> Result<Option<End>, ConnectionFault>
        ensures closed { (input : List ℕ) (requests : List Request) → (read : HasRead self.now.kept input requests)
            → list_any is_quit requests ≡ self.now.quits
            → EndsConnection self.now.quits read.rest (K.held sink.old) (K.held sink.new) result }
        ensures cause { HasSinkCause (K.faults sink.old) (K.faults sink.new) result }
    {
        close_at(&self.reader, self.quits, sink)
    }

    /// The end of a connection whose input ended, all that was read being answered.
    pub fn end(&self) -> End
        ensures { (input : List ℕ) (requests : List Request) → (read : HasRead self.now.kept input requests)
            → list_any is_quit requests ≡ false → IsEndAt read.rest result }
    {
        end_at(&self.reader)
    }
}
