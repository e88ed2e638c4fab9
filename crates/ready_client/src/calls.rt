ghost use Rattle.std.specs.Prelude.{◌≡◌, ◌<◌, ◌≤◌, ◌-◌, ◌∷◌, [], drop, length, true, false};
ghost use Rattle.ready_client.specs.Calling.{StandOnce, HasEndOf, HasOpen, KeepsApart, KeepsCalls, LendsApart};
ghost use Rattle.memc_proto.specs.declared.end.CallEnd.{CallEnd};
ghost use Rattle.ready_client.specs.declared.open_call.OpenCall.{OpenCall};

use crate::call_list::CallList;
use front_end::Gateway;
use std::alloc::Global;

/// The calls of a connection that are under way, in the order of its requests, at most 16. The ends of the first ones may be
/// wanted no more.
#[derive(Drop)]
pub(crate) struct Calls<K> {
    pub(crate) list: CallList<K>,
    unwanted: usize,
    ghost few: { length list ≤ 16 },
}

impl<K: Drop> Calls<K> {
    /// None.
    pub(crate) fn new(alloc: Global) -> Calls<K>
        ensures list { result.list ≡ [] }
        ensures unwanted { result.unwanted ≡ 0 }
    {
        Calls {
            list: CallList::new(alloc),
            unwanted: 0,
        }
    }

    /// Whether the end of the first one is wanted no more.
    pub(crate) fn has_unwanted(&self) -> bool
        ensures some { result ≡ true → 0 < self.now.unwanted }
        ensures none { result ≡ false → self.now.unwanted ≡ 0 }
    {
        self.unwanted != 0
    }

    /// The ends of the next ones, so many, are wanted no more.
    pub(crate) fn leave(&mut self, count: usize)
        ensures list { self.new.list ≡ self.old.list }
        ensures unwanted { drop self.new.unwanted self.new.list ≡ drop count self.old.list }
        ensures most { self.new.unwanted ≤ count }
    {
        self.unwanted = count.min(self.list.len());
    }

    /// Lets the first one go, whose end is wanted no more, if it has ended. Says whether one was let go.
    pub(crate) fn let_go<G: Gateway<Call = K>>(&mut self, gateway: &mut G) -> bool
        ensures unwanted { 0 < self.old.unwanted → drop self.new.unwanted self.new.list ≡ drop self.old.unwanted self.old.list }
        ensures gone { result ≡ true → (call : OpenCall K) × (end : CallEnd)
            × HasEndOf G.rules gateway.old call end gateway.new × (self.old.list ≡ call ∷ self.new.list)
            × (self.new.unwanted ≡ self.old.unwanted - 1) }
        ensures still { result ≡ false → (self.new ≡ self.old) × (gateway.new ≡ gateway.old) }
        ensures fewer { (call : K) → HasOpen self.new.list call → HasOpen self.old.list call }
        ensures distinct { StandOnce self.old.list → StandOnce self.new.list }
        ensures others { StandOnce self.old.list → KeepsCalls G.rules self.new.list gateway.old gateway.new }
        ensures apart { KeepsApart G.rules self.old.list self.new.list gateway.old gateway.new }
        ensures lends { LendsApart G.rules self.old.list self.new.list gateway.old gateway.new }
        ensures onward { G.rules.later gateway.old gateway.new }
    {
        if self.list.take_end(gateway).is_none() {
            return false;
        }
        self.unwanted = self.unwanted.saturating_sub(1);
        true
    }
}
