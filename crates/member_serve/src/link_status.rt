use crate::machine_links::MachineLinks;
use member_links::{LinkEnd, MemberLinks, Traffic};

impl MachineLinks {
    // The links of a group.
    fn of(&self, group: u32) -> Option<&MemberLinks> {
        self.groups.get(group as usize)
    }

    /// Whether something that came may be there that wasn't taken yet.
    pub(crate) fn has_input(&self) -> bool {
        self.groups.iter().any(|links| links.has_input())
    }

    /// Whether no other member is waited for, in any group.
    pub(crate) fn is_complete(&self) -> bool {
        self.groups.iter().all(|links| links.is_complete())
    }

    /// How many links of a group are up.
    pub(crate) fn up(&self, group: u32) -> u32 {
        self.of(group).map_or(0, |links| links.up())
    }

    /// How many links are up in the group that has the fewest.
    pub(crate) fn fewest_up(&self) -> u32 {
        let mut fewest = u32::MAX;
        'groups: for links in &self.groups {
            fewest = fewest.min(links.up());
        }
        fewest
    }

    /// Whether the link of a group to the process at an index is up.
    pub(crate) fn is_up(&self, group: u32, x: u32) -> bool {
        self.of(group).is_some_and(|links| links.is_up(x))
    }

    /// Whether the link of a group to the process at an index was cut.
    pub(crate) fn has_cut(&self, group: u32, x: u32) -> bool {
        self.of(group).is_some_and(|links| links.has_cut(x))
    }

    /// How much went over the link of a group to the process at an index.
    pub(crate) fn traffic(&self, group: u32, x: u32) -> Option<Traffic> {
        self.of(group).map(|links| links.traffic(x))
    }

    /// Why a member of a group has to stop, if it has to.
    pub(crate) fn end(&self, group: u32) -> Option<LinkEnd> {
        match self.of(group) {
            Some(links) => links.end(),
            None => None,
        }
    }
}
