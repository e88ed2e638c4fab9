use crate::end::MemberEnd;
use group_config::{MemberKey, MemberSettings};

/// A machine on which a member can run.
pub trait Machine {
    ghost use Rattle.group_config.specs.MemberReading.{HasMembers};
    ghost use Rattle.group_config.specs.declared.member_settings.MemberSettings.{MemberSettings};
    ghost use Rattle.member_machine.specs.declared.end.MemberEnd.{MemberEnd};

    // What running a member by settings made of a machine: before, the settings, how it ended, after.
    ghost ran: { Self → MemberSettings → MemberEnd → Self → Type 0 };

    /// Runs the member of these settings until a word ends it or it has to stop.
    fn run(&mut self, settings: &MemberSettings) -> MemberEnd
        requires { HasMembers settings.now }
        ensures { Self.ran self.old settings.now result self.new };

    /// Tells a person that the settings are refused at this key. It changes nothing else.
    fn refuse(&self, key: MemberKey);
}
