use crate::carry_end::CarryEnd;
use group_config::{CarryKey, CarrySettings};

/// What can carry the items of a group over machines into a fresh one.
pub trait Carrier {
    ghost use Rattle.group_config.specs.declared.carry_settings.CarrySettings.{CarrySettings};
    ghost use Rattle.member_machine.specs.declared.carry_end.CarryEnd.{CarryEnd};

    // What carrying by settings made of a carrier: before, the settings, how it ended, after.
    ghost carried: { Self → CarrySettings → CarryEnd → Self → Type 0 };

    /// Carries all items of the old group into the new one.
    fn carry(&mut self, settings: &CarrySettings) -> CarryEnd
        ensures { Self.carried self.old settings.now result self.new };

    /// Tells a person that the settings are refused at this key. It changes nothing else.
    fn refuse_carry(&self, key: CarryKey);
}
