use crate::callers::Callers;
use crate::names::{MOST_MEMBERS, with};
use crate::seats::{member_of, own_in};
use crate::serving::Serving;
use member_links::process_of;

/// All members that there may be.
const ALL: u32 = u32::MAX;

impl<R, W, G: Callers> Serving<'_, R, W, G> {
    /// Who is cut in a group, or was said to be dead here.
    pub(crate) fn condemned(&self) -> u32 {
        let mut set = self.said;
        'groups: for group in 0..self.settings.groups {
            set |= self.cut_in(group);
        }
        set
    }

    /// Who is cut in each group.
    pub(crate) fn cut_in_all(&self) -> u32 {
        let mut set = ALL;
        'groups: for group in 0..self.settings.groups {
            set &= self.cut_in(group);
        }
        set
    }

    /// Who is cut in a group.
    pub(crate) fn cut_in(&self, group: u32) -> u32 {
        let mut set = 0;
        'processes: for x in 0..MOST_MEMBERS {
            if self.links.has_cut(group, x) {
                set = with(set, member_of(self.settings.shape, group, x));
            }
        }
        set
    }

    /// Whose deaths are taken in each group.
    pub(crate) fn taken(&self) -> u32 {
        let mut set = ALL;
        'groups: for group in 0..self.settings.groups {
            set &= self.taken_in(group);
        }
        set
    }

    /// Whose deaths are taken in a group.
    pub(crate) fn taken_in(&self, group: u32) -> u32 {
        let mut set = 0;
        'processes: for x in 0..MOST_MEMBERS {
            if self.has_taken(group, x) {
                set = with(set, member_of(self.settings.shape, group, x));
            }
        }
        set
    }

    /// Who isn't cut in a group and has no link to this member there.
    pub(crate) fn unlinked_in(&self, group: u32) -> u32 {
        let mut set = 0;
        'processes: for x in 0..MOST_MEMBERS {
            if self.is_peer(group, x)
                && !self.links.is_up(group, x)
                && !self.links.has_cut(group, x)
            {
                set = with(set, member_of(self.settings.shape, group, x));
            }
        }
        set
    }

    /// Whether a group has a process at this index, another than this member's.
    pub(crate) fn is_peer(&self, group: u32, x: u32) -> bool {
        x != own_in(self.settings, group) && process_of(self.settings.shape, x).is_some()
    }

    /// Whether the death of the process at an index of a group is taken.
    pub(crate) fn has_taken(&self, group: u32, x: u32) -> bool {
        match process_of(self.settings.shape, x) {
            Some(name) => self.worker.gateway().has_taken(group, name),
            None => false,
        }
    }
}
