use group_config::{Finding, Settings};
use group_types::ProcessId;

/// Tells a person what becomes of settings, and of the group. It changes nothing else.
pub trait Notice: Sync {
    /// A group is served by these settings, which is told between `listen` and the first connection.
    fn tell(&self, settings: &Settings);

    /// Settings are refused, and this is wrong with them.
    fn refuse(&self, finding: &Finding);

    /// A client let a process fail. It is this one of all that are lost, of a group that can lose so many: where there are
    /// more the group is down.
    fn lose(&self, at: ProcessId, lost: u64, most: u32);
}

/// The notice that tells nobody.
#[derive(Clone, Copy, Debug)]
pub struct Silent;

impl Notice for Silent {
    fn tell(&self, _settings: &Settings) {}

    fn refuse(&self, _finding: &Finding) {}

    fn lose(&self, _at: ProcessId, _lost: u64, _most: u32) {}
}
