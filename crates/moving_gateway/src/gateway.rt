use crate::call::MovingCall;
use crate::keyed::Keyed;
use crate::numbers::{base_of, end_told, is_get, lowered};
use front_end::Gateway;
use group_types::{Partition, ProcessId, Shape};
use memc_proto::{CallEnd, FailEnd};
use memc_table::Op;
use std::alloc::AllocError;

/// A gateway over another that may be closed, and tells cas numbers with a base for each partition: 0 where none is given. Of the
/// calls that it refuses one is open at a time: its end has come as it begins.
#[derive(Drop)]
pub struct MovingGateway<G> {
    pub(crate) inner: G,
    pub(crate) shape: Shape,
    pub(crate) bases: Vec<u64>,
    pub(crate) is_closed: bool,
    pub(crate) refused: Option<Op>,
}

impl<G> MovingGateway<G> {
    ghost use Rattle.std.specs.Prelude.{◌≡◌, false, None, IfSome};
    ghost use Rattle.group_eras.specs.Told.{with_base};

    /// An open gateway over that of a group of this shape, with these bases.
    pub fn new(inner: G, shape: Shape, bases: Vec<u64>) -> MovingGateway<G>
        ensures inner { result.inner ≡ inner }
        ensures shape { result.shape ≡ shape }
        ensures bases { result.bases ≡ bases }
        ensures open { result.is_closed ≡ false }
        ensures none { result.refused ≡ None }
    {
        MovingGateway {
            inner,
            shape,
            bases,
            is_closed: false,
            refused: None,
        }
    }

    /// The gateway below.
    pub fn inner(&self) -> &G
        ensures { result.now ≡ self.now.inner }
    {
        &self.inner
    }

    /// Whether it refuses changes.
    pub fn is_closed(&self) -> bool
        ensures { result ≡ self.now.is_closed }
    {
        self.is_closed
    }

    /// A number of a partition as it is told, if that has 64 bits.
    pub fn told(&self, partition: Partition, number: u64) -> Option<u64>
        ensures { IfSome result (λ told. told ≡ with_base self.now.bases.items partition.0 number) }
    {
        base_of(&self.bases, partition.0).checked_add(number)
    }
}

impl<G: Keyed> MovingGateway<G> {
    ghost use Rattle.std.specs.Prelude.{◌≡◌, true, None, Some, IfSome, IsSome};
    ghost use Rattle.front_end.specs.Gateway.{IsEndOf, IsNotOpen, KeepsOtherCalls, LendsNone};
    ghost use Rattle.moving_gateway.specs.Rules.{is_refused, moving_rules};
    ghost use Rattle.moving_gateway.specs.declared.call.MovingCall.TheVariants.{Inner, Refused};

    // Refuses a call, where none is open that was refused.
    fn refuse(&mut self, op: Op) -> Option<MovingCall<G::Call>>
        ensures refused { IfSome result (λ call. (call ≡ Refused) × (self.old.refused ≡ None) × (self.new.refused ≡ Some op)) }
        ensures full { result ≡ None → self.new ≡ self.old }
        ensures inner { self.new.inner ≡ self.old.inner }
        ensures bases { self.new.bases ≡ self.old.bases }
        ensures shape { self.new.shape ≡ self.old.shape }
    {
        if self.refused.is_some() {
            drop(op);
            return None;
        }
        self.refused = Some(op);
        Some(MovingCall::Refused)
    }

    // The end of a call of the inner gateway, if it has come, as it is told.
    fn take_inner(&mut self, call: &G::Call) -> Option<CallEnd>
        ensures ended { IfSome result (λ end. IsEndOf (moving_rules G.rules) self.old (Inner call.now) end self.new) }
        ensures over { IsSome result → IsNotOpen (moving_rules G.rules) self.new (Inner call.now) }
        ensures free { IsSome result → ¬ (G.rules.lent self.new.inner call.now) }
        ensures others { KeepsOtherCalls (moving_rules G.rules) (Inner call.now) self.old self.new }
        ensures lends { LendsNone (moving_rules G.rules) self.old self.new }
        ensures still { result ≡ None → self.new ≡ self.old }
        ensures later { (moving_rules G.rules).later self.old self.new }
    {
        let partition = self.inner.hash(call) % self.shape.k();
        let end = self.inner.take_end(call)?;
        Some(end_told(&self.bases, partition, end))
    }

    // The end of the call that was refused.
    fn take_refused(&mut self) -> Option<CallEnd>
        ensures ended { IfSome result (λ end. IsEndOf (moving_rules G.rules) self.old Refused end self.new) }
        ensures over { IsSome result → self.new.refused ≡ None }
        ensures others { KeepsOtherCalls (moving_rules G.rules) Refused self.old self.new }
        ensures lends { LendsNone (moving_rules G.rules) self.old self.new }
        ensures still { result ≡ None → self.new ≡ self.old }
        ensures later { (moving_rules G.rules).later self.old self.new }
    {
        let _ = self.refused.take()?;
        Some(CallEnd::Moves)
    }
}

impl<G: Keyed> Gateway for MovingGateway<G> {
    ghost use Rattle.moving_gateway.specs.Rules.{moving_rules};
    ghost use Rattle.moving_gateway.specs.Order.{moving_order};

    type Call = MovingCall<G::Call>;

    ghost rules = { moving_rules G.rules };

    ghost order = { moving_order G.rules G.order };

    fn turn_of(&mut self, key: usize) {
        self.inner.turn_of(key);
    }

    fn begin(&mut self, op: Op) -> Result<Option<MovingCall<G::Call>>, AllocError> {
        if self.is_closed && !is_get(op.act()) {
            return Ok(self.refuse(op));
        }
        let op = lowered(&self.bases, self.shape.k(), op)?;
        match self.inner.begin(op)? {
            Some(call) => Ok(Some(MovingCall::Inner(call))),
            None => Ok(None),
        }
    }

    fn take_end(&mut self, call: &MovingCall<G::Call>) -> Option<CallEnd> {
        match call {
            MovingCall::Inner(call) => self.take_inner(call),
            MovingCall::Refused => self.take_refused(),
        }
    }

    fn fail(&mut self, at: ProcessId, keep: u32) -> Result<FailEnd, AllocError> {
        self.inner.fail(at, keep)
    }
}
