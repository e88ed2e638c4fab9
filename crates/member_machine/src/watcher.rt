use crate::end::MemberEnd;
use group_config::{MemberSettings, WatchSettings};

/// What can watch a member of a group beside its program.
pub trait Watcher {
    ghost use Rattle.group_config.specs.MemberReading.{HasMembers};
    ghost use Rattle.group_config.specs.Watching.{HasLease};
    ghost use Rattle.group_config.specs.declared.member_settings.MemberSettings.{MemberSettings};
    ghost use Rattle.group_config.specs.declared.watch_settings.WatchSettings.{WatchSettings};
    ghost use Rattle.member_machine.specs.declared.end.MemberEnd.{MemberEnd};

    // What watching a member by settings made of a watcher: before, the settings, how it ended, after.
    ghost watched: { Self → MemberSettings → WatchSettings → MemberEnd → Self → Type 0 };

    /// Watches the member of these settings until it has ended.
    fn watch(&mut self, settings: &MemberSettings, watch: &WatchSettings) -> MemberEnd
        requires members { HasMembers settings.now }
        requires lease { HasLease watch.now.seconds }
        ensures { Self.watched self.old settings.now watch.now result self.new };
}
