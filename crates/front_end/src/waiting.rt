ghost use Rattle.std.specs.Prelude.{◌≡◌, [], false};

use crate::acts::{act_ahead, asks_ahead, count_acts, key_ahead, need_at};
use crate::due::{Due, due_at};
use crate::end::ConnectionFault;
use crate::overlap::Need;
use crate::settle::{settle_at, write_own};
use crate::text::{is_reply, write_text};
use edge_io::{Clock, Sink};
use memc_proto::{CallEnd, FailEnd, Requests, fail_text};
use memc_table::Op;
use std::alloc::{AllocError, Global};
use std::marker::Model;

/// The requests of a connection that were read and aren't answered yet. Of the first some keys may be answered.
#[derive(Drop)]
pub(crate) struct Waiting {
    given: Requests,
    answered: usize,
    keys: usize,
}

impl Model for Waiting {
    ghost use Rattle.std.specs.Prelude.{◌≤◌, List, drop, length};
    ghost use Rattle.memc_proto.specs.declared.request.Request.{Request};
    ghost use Rattle.front_end.specs.Progress.{waiting_behind};

    ghost Value = { List Request };

    ghost view = { λ w. waiting_behind w.keys (drop w.answered w.given) };

    ghost invariant = { λ w. w.answered ≤ length w.given };
}

impl Waiting {
    ghost use Rattle.std.specs.Prelude.{◌≡◌, ◌≢◌, drop, true, Ok, None, IfOk, IfSome, OnOk, OnErr};
    ghost use Rattle.edge_io.specs.Writing.{HasWritten};
    ghost use Rattle.memc_proto.specs.Text.{fail_text};
    ghost use Rattle.front_end.specs.Ahead.{HasNeed, IsDueAhead, NoneIsDueAhead, unneeded_of};
    ghost use Rattle.front_end.specs.Faults.{HasSinkCause};
    ghost use Rattle.front_end.specs.Settling.{CallIsDue, HasSettledDue, HasTold, IsDue, OrderIsDue, TextIsDue, first_text, own_text};

    /// None.
    pub(crate) fn none(alloc: Global) -> Waiting
        ensures { result ≡ [] }
    {
        Waiting::new(Requests::from(Vec::new(alloc)))
    }

    /// All that were given.
    pub(crate) fn new(given: Requests) -> Waiting
        ensures { result ≡ given }
    {
        Waiting {
            given,
            answered: 0,
            keys: 0,
        }
    }

    /// Whether a request waits.
    pub(crate) fn has_some(&self) -> bool
        ensures some { result ≡ true → self.now ≢ [] }
        ensures none { result ≡ false → self.now ≡ [] }
    {
        self.answered < self.given.requests().len()
    }

    /// What the first one needs next.
    pub(crate) fn due<T: Clock>(&self, clock: &T) -> Result<Due, AllocError>
        requires some { self.now ≢ [] }
        ensures due { IfOk result (IsDue (T.moment clock.now) self.now) }
    {
        due_at(&self.given.requests()[self.answered], self.keys, clock)
    }

    /// What the first one needs.
    pub(crate) fn need(&self) -> Need
        requires some { self.now ≢ [] }
        ensures { HasNeed self.now result }
    {
        need_at(&self.given.requests()[self.answered], self.keys)
    }

    /// The call that may begin behind so many that are under way.
    pub(crate) fn ahead<T: Clock>(&self, begun: usize, clock: &T) -> Result<Option<Op>, AllocError>
        ensures due { IfOk result (λ next. IfSome next (IsDueAhead (T.moment clock.now) self.now begun)) }
        ensures none { result ≡ Ok None → NoneIsDueAhead self.now begun }
    {
        let requests = &self.given.requests()[self.answered..];
        let Some(key) = key_ahead(requests, self.keys, begun) else {
            return Ok(None);
        };
        if asks_ahead(requests, self.keys, begun, key) {
            return Ok(None);
        }
        let Some(act) = act_ahead(requests, self.keys, begun)? else {
            return Ok(None);
        };
        Ok(Some(Op::new(clock.now(), act)))
    }

    /// How many calls of the first one needn't be made any more where its next one ended so.
    pub(crate) fn unneeded(&self, end: &CallEnd) -> usize
        requires due { CallIsDue self.now }
        ensures { result ≡ unneeded_of end.now self.now }
    {
        if is_reply(end) {
            return 0;
        }
        count_acts(&self.given.requests()[self.answered], self.keys) - 1
    }

    /// Writes the text of the end of the call that was due. After a fault the request still waits.
    pub(crate) fn settle<K: Sink>(
        &mut self,
        alloc: Global,
        end: &CallEnd,
        sink: &mut K,
    ) -> Result<(), ConnectionFault>
        requires due { CallIsDue self.old }
        ensures settled { OnOk result (HasSettledDue end.now (K.held sink.old) (K.held sink.new) self.old self.new) }
        ensures part { HasWritten (K.held sink.old) (K.held sink.new) (first_text end.now self.old) }
        ensures stays { OnErr result (self.new ≡ self.old) }
        ensures cause { HasSinkCause (K.faults sink.old) (K.faults sink.new) result }
    {
        let request = &self.given.requests()[self.answered];
        if settle_at(alloc, request, self.keys, end, sink)? {
            self.pass(alloc);
        } else {
            self.keys += 1;
        }
        Ok(())
    }

    /// Writes the text of the end of the order that was due. After a fault the request still waits.
    pub(crate) fn settle_fail<K: Sink>(
        &mut self,
        alloc: Global,
        end: FailEnd,
        sink: &mut K,
    ) -> Result<(), ConnectionFault>
        requires due { OrderIsDue self.old }
        ensures told { OnOk result (HasTold (fail_text end) (K.held sink.old) (K.held sink.new) self.old self.new) }
        ensures part { HasWritten (K.held sink.old) (K.held sink.new) (fail_text end) }
        ensures stays { OnErr result (self.new ≡ self.old) }
        ensures cause { HasSinkCause (K.faults sink.old) (K.faults sink.new) result }
    {
        write_text(sink, fail_text(end))?;
        self.pass(alloc);
        Ok(())
    }

    /// Writes the text of a request that needs no call. After a fault it still waits.
    pub(crate) fn settle_text<K: Sink>(
        &mut self,
        alloc: Global,
        sink: &mut K,
    ) -> Result<(), ConnectionFault>
        requires due { TextIsDue self.old }
        ensures told { OnOk result (HasTold (own_text self.old) (K.held sink.old) (K.held sink.new) self.old self.new) }
        ensures part { HasWritten (K.held sink.old) (K.held sink.new) (own_text self.old) }
        ensures stays { OnErr result (self.new ≡ self.old) }
        ensures cause { HasSinkCause (K.faults sink.old) (K.faults sink.new) result }
    {
        write_own(sink, &self.given.requests()[self.answered], self.keys)?;
        self.pass(alloc);
        Ok(())
    }

    // The first one is answered. The memory is given back once all are.
    fn pass(&mut self, alloc: Global)
        requires some { self.old ≢ [] }
        ensures { self.new ≡ drop 1 self.old }
    {
        let given = self.given.requests().len();
        self.answered += 1;
        self.keys = 0;
        if self.answered == given {
            *self = Waiting::none(alloc);
        }
    }
}
