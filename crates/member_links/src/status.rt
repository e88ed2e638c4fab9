ghost use Rattle.member_links.specs.Ages.{NoneGoesBack};

use crate::link::Link;
use crate::link_end::LinkEnd;
use crate::link_event::LinkEvent;
use crate::links::MemberLinks;
use crate::stage::Stage;
use crate::traffic::Traffic;

#[tactic(auto, using(crate::proofs::Aging::aging))]
impl MemberLinks {
    /// Whether something that came may be there that wasn't taken yet.
    pub fn has_input(&self) -> bool {
        self.links.iter().any(|link| link.has_input())
    }

    /// How many links are up.
    pub fn up(&self) -> u32 {
        let mut up: u32 = 0;
        'links: for link in &self.links {
            if link.is_up() {
                up = up.saturating_add(1);
            }
        }
        up
    }

    /// Whether the link to the member at an index is up.
    pub fn is_up(&self, x: u32) -> bool {
        matches!(self.stage(x), Stage::Up)
    }

    /// How much went over the link to the member at an index: none where it isn't up any more.
    pub fn traffic(&self, x: u32) -> Traffic {
        match self.link(x) {
            Some(link) => link.traffic(),
            None => Traffic::none(),
        }
    }

    /// Whether no other member is waited for: each was linked once, or was cut.
    pub fn is_complete(&self) -> bool {
        !self.links.iter().any(|link| link.is_awaited())
    }

    /// Whether the link to the member at an index was cut.
    pub fn has_cut(&self, x: u32) -> bool {
        matches!(self.stage(x), Stage::Cut)
    }

    /// Why the member has to stop, if it has to.
    pub fn end(&self) -> Option<LinkEnd> {
        self.end
    }

    /// What became of a link that wasn't told yet.
    pub fn next_event(&mut self) -> Option<LinkEvent>
        ensures { NoneGoesBack self.old.links.items self.new.links.items }
    {
        self.events.pop_front()
    }

    /// How far the link to the member at an index is.
    pub(crate) fn stage(&self, x: u32) -> Stage {
        match self.link(x) {
            Some(link) => link.stage(),
            None => Stage::Own,
        }
    }

    /// The link to the member at an index.
    pub(crate) fn link(&self, x: u32) -> Option<&Link> {
        self.links.get(x as usize)
    }
}
