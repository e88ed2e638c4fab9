use crate::carrier::Carrier;
use crate::carry_end::CarryEnd;
use crate::end::MemberEnd;
use crate::machine::Machine;
use crate::watcher::Watcher;
use group_config::{CarryKey, CarrySettings, MemberKey, MemberSettings, WatchSettings};

/// A machine in memory: it runs nothing, ends as it is told to, and notes which member it was to run or to watch.
#[derive(Debug, Drop)]
pub struct MemoryMachine {
    end: MemberEnd,
    asked: Option<u32>,
}

impl MemoryMachine {
    ghost use Rattle.std.specs.Prelude.{◌≡◌, None};

    /// A machine on which each run ends so.
    pub fn new(end: MemberEnd) -> MemoryMachine
        ensures end { result.end ≡ end }
        ensures asked { result.asked ≡ None }
    {
        MemoryMachine { end, asked: None }
    }

    /// The index of the member that it was to run or to watch last.
    pub fn asked(&self) -> Option<u32>
        ensures { result ≡ self.now.asked }
    {
        self.asked
    }
}

impl Machine for MemoryMachine {
    ghost use Rattle.std.specs.Prelude.{◌≡◌, Some};

    ghost ran = { λ before settings end now.
        (end ≡ before.end) × (now.end ≡ before.end) × (now.asked ≡ Some settings.own) };

    fn run(&mut self, settings: &MemberSettings) -> MemberEnd {
        self.asked = Some(settings.own);
        self.end
    }

    fn refuse(&self, _key: MemberKey) {}
}

impl Watcher for MemoryMachine {
    ghost use Rattle.std.specs.Prelude.{◌≡◌, Some};

    ghost watched = { λ before settings watch end now.
        (end ≡ before.end) × (now.end ≡ before.end) × (now.asked ≡ Some settings.own) };

    fn watch(&mut self, settings: &MemberSettings, _watch: &WatchSettings) -> MemberEnd {
        self.asked = Some(settings.own);
        self.end
    }
}

impl Carrier for MemoryMachine {
    ghost use Rattle.std.specs.Prelude.{◌≡◌};
    ghost use Rattle.member_machine.specs.declared.carry_end.CarryEnd.TheVariants.{Stopped};

    ghost carried = { λ before _ end now. (end ≡ Stopped) × (now ≡ before) };

    fn carry(&mut self, _settings: &CarrySettings) -> CarryEnd {
        CarryEnd::Stopped
    }

    fn refuse_carry(&self, _key: CarryKey) {}
}
