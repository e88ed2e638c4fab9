// Parked requests are treated, once they can go on.
ghost use Rattle.member_gateway.specs.Calls.{GoesQuietly};

use crate::links::Links;
use crate::work::MemberWork;
use group_member::Treatment;
use head_service::Settlement;
use link_frames::Told;

impl MemberWork {
    /// Treats the requests that can go on, in their order.
    pub(crate) fn treat<L: Links>(&mut self, links: &mut L)
        ensures goes { GoesQuietly self.old self.new }
    {
        if !self.parking.some_can() {
            return;
        }
        self.parking.begin_pass();
        let mut place: usize = 0;
        'parked: for _ in 0..self.member.parked() {
            if !self.is_clear() {
                self.parking.leave_pass();
                return;
            }
            if !self.treats_at(links, place) {
                place = place.wrapping_add(1);
            }
        }
    }

    // Whether the request at a place was treated, so that the next stands there.
    fn treats_at<L: Links>(&mut self, links: &mut L, place: usize) -> bool
        ensures goes { GoesQuietly self.old self.new }
    {
        if !self.parking.can_go_on(place) {
            return false;
        }
        match self.treat_one(place) {
            Err(_) => {
                self.parking.leave_pass();
                false
            }
            Ok(None) => false,
            Ok(Some(Treatment::Early(answer))) => {
                self.parking.wait_on(place, &answer);
                false
            }
            Ok(Some(Treatment::Made { told, settled, .. })) => {
                self.parking.remove(place);
                self.finish(links, told, settled);
                true
            }
        }
    }

    // What a request that was treated tells goes out, before what settled by it is collected.
    fn finish<L: Links>(&mut self, links: &mut L, told: Option<Told>, settled: Vec<Settlement>)
        ensures goes { GoesQuietly self.old self.new }
    {
        if let Some(told) = told {
            self.tell(links, told);
        }
        self.settle(settled);
        self.collect(links);
    }
}
