use crate::open_call::{OpenCall, begin_at};
use front_end::Gateway;
use memc_proto::CallEnd;
use memc_table::Op;
use std::alloc::{AllocError, Global};
use std::collections::VecDeque;
use std::marker::Model;

/// Calls in the order in which they were begun. One by itself takes no memory.
#[derive(Drop)]
pub(crate) struct CallList<K> {
    first: Option<OpenCall<K>>,
    others: VecDeque<OpenCall<K>>,
}

impl<K> Model for CallList<K> {
    ghost use Rattle.std.specs.Prelude.{◌≡◌, ◌++◌, [], List, None};
    ghost use Rattle.std.specs.Option.{option_to_list};
    ghost use Rattle.ready_client.specs.declared.open_call.OpenCall.{OpenCall};

    ghost Value = { List (OpenCall K) };

    ghost view = { λ c. option_to_list c.first ++ c.others.items };

    ghost invariant = { λ c. c.first ≡ None → c.others.items ≡ [] };
}

impl<K: Drop> CallList<K> {
    ghost use Rattle.std.specs.Prelude.{◌≡◌, ◌≢◌, ◌++◌, ◌⊎◌, ◌↔◌, ◌≤◌, ◌+◌, [], ◌∷◌, length, Ok, None, true, false, IfNone, IfOk, IfSome, IsTrue, OnErr};
    ghost use Rattle.front_end.specs.Gateway.{KeepsOpen};
    ghost use Rattle.ready_client.specs.Calling.{StandOnce, IsBegunAs, HasEndOf, KeepsApart, KeepsCalls, LendsApart};
    ghost use Rattle.ready_client.specs.declared.open_call.OpenCall.{OpenCall};

    /// None.
    pub(crate) fn new(alloc: Global) -> CallList<K>
        ensures { result ≡ [] }
    {
        CallList {
            first: None,
            others: VecDeque::new(alloc),
        }
    }

    /// How many there are.
    pub(crate) fn len(&self) -> usize
        ensures { result ≡ length self.now }
    {
        match self.first {
            Some(_) => self.others.len() + 1,
            None => 0,
        }
    }

    /// Whether there is none.
    pub(crate) fn is_empty(&self) -> bool
        ensures { IsTrue result ↔ (self.now ≡ []) }
    {
        self.first.is_none()
    }

    /// Puts one where there is none.
    pub(crate) fn put_only(&mut self, call: K)
        requires none { self.old ≡ [] }
        ensures { self.new ≡ OpenCall.Open call ∷ [] }
    {
        self.first = Some(OpenCall::Open(call));
    }

    /// Begins a call behind those that are there. Says whether a caller was free.
    pub(crate) fn begin<G: Gateway<Call = K>>(
        &mut self,
        gateway: &mut G,
        op: Op,
    ) -> Result<bool, AllocError>
        requires some { self.old ≢ [] }
        ensures begun { result ≡ Ok true → (call : OpenCall K)
            × IsBegunAs G.rules gateway.old op call gateway.new × (self.new ≡ self.old ++ call ∷ []) }
        ensures full { result ≡ Ok false → (self.new ≡ self.old) × (gateway.new ≡ gateway.old) }
        ensures want { OnErr result (self.new ≡ self.old) }
        ensures more { length self.new ≤ length self.old + 1 }
        ensures unasked { OnErr result ((gateway.new ≡ gateway.old) ⊎ G.rules.ways.kept gateway.old op gateway.new) }
        ensures open { KeepsOpen G.rules gateway.old gateway.new }
        ensures apart { KeepsApart G.rules self.old self.new gateway.old gateway.new }
        ensures lends { LendsApart G.rules self.old self.new gateway.old gateway.new }
        ensures onward { G.rules.later gateway.old gateway.new }
    {
        self.others.reserve(1)?;
        let Some(call) = begin_at(gateway, op)? else {
            return Ok(false);
        };
        match self.others.push_back(call) {
            Ok(()) => Ok(true),
            Err(_) => unreachable!(),
        }
    }

    /// Takes the end of the first one, if it has come. It is gone then.
    pub(crate) fn take_end<G: Gateway<Call = K>>(&mut self, gateway: &mut G) -> Option<CallEnd>
        ensures ended { IfSome result (λ end. (call : OpenCall K)
            × HasEndOf G.rules gateway.old call end gateway.new × (self.old ≡ call ∷ self.new)) }
        ensures still { result ≡ None → (self.new ≡ self.old) × (gateway.new ≡ gateway.old) }
        ensures fewer { length self.new ≤ length self.old }
        ensures others { StandOnce self.old → KeepsCalls G.rules self.new gateway.old gateway.new }
        ensures apart { KeepsApart G.rules self.old self.new gateway.old gateway.new }
        ensures lends { LendsApart G.rules self.old self.new gateway.old gateway.new }
        ensures onward { G.rules.later gateway.old gateway.new }
    {
        match self.first.take()? {
            OpenCall::Ended(end) => {
                self.first = self.others.pop_front();
                Some(end)
            }
            OpenCall::Open(call) => match gateway.take_end(&call) {
                Some(end) => {
                    self.first = self.others.pop_front();
                    Some(end)
                }
                None => {
                    self.first = Some(OpenCall::Open(call));
                    None
                }
            },
        }
    }
}
