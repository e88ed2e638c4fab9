use group_config::{CarryKey, CarrySettings, MemberKey, MemberSettings, WatchSettings};
use member_machine::{Carrier, CarryEnd, Machine, MemberEnd, Watcher};

/// What runs a member, what watches one, and what carries a group's items.
#[derive(Drop)]
pub(crate) struct System<M, W, C> {
    pub(crate) member: M,
    pub(crate) watcher: W,
    pub(crate) carrier: C,
}

impl<M: Machine, W, C> Machine for System<M, W, C> {
    ghost use Rattle.std.specs.Prelude.{⊤};

    ghost ran = { λ _ _ _ _. ⊤ };

    fn run(&mut self, settings: &MemberSettings) -> MemberEnd {
        self.member.run(settings)
    }

    fn refuse(&self, key: MemberKey) {
        self.member.refuse(key);
    }
}

impl<M, W: Watcher, C> Watcher for System<M, W, C> {
    ghost use Rattle.std.specs.Prelude.{⊤};

    ghost watched = { λ _ _ _ _ _. ⊤ };

    fn watch(&mut self, settings: &MemberSettings, watch: &WatchSettings) -> MemberEnd {
        self.watcher.watch(settings, watch)
    }
}

impl<M, W, C: Carrier> Carrier for System<M, W, C> {
    ghost use Rattle.std.specs.Prelude.{⊤};

    ghost carried = { λ _ _ _ _. ⊤ };

    fn carry(&mut self, settings: &CarrySettings) -> CarryEnd {
        self.carrier.carry(settings)
    }

    fn refuse_carry(&self, key: CarryKey) {
        self.carrier.refuse_carry(key);
    }
}
