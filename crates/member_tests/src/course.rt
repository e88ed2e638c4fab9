use crate::crowd::Fault;
use crate::gateway::TestGateway;
use crate::group::{Group, lines_of};
use edge_io::FixedClock;
use group_types::Shape;
use std::alloc::{AllocError, Global};

/// What happens to a group.
#[derive(Clone, Copy)]
pub(crate) enum Course {
    /// So many turns, as chance has it.
    Turns(u32),
    /// A counter is raised while its head dies.
    Count,
    /// A member ends while its clients wait.
    Lose(usize),
    /// A head ends before it hears what the client of a member asked of it.
    Succeed(usize),
    /// Members live on that are said to be dead.
    Haunt,
    /// Clients leave while their calls are open.
    Leave,
    /// A client takes nothing of what it asked for, and then leaves.
    Stall,
    /// A member's program stands still.
    Hang,
}

/// How many connections a member may have.
const EACH: usize = 64;

/// Plays a course, by the chance that a number makes: what wasn't as it was to be.
pub(crate) fn play<G: TestGateway>(
    alloc: Global,
    shape: Shape,
    number: u64,
    course: Course,
) -> Result<Option<Fault>, AllocError> {
    let lines = lines_of(alloc, shape, EACH)?;
    let clock = FixedClock::new(0);
    let mut group = Group::<G>::new(alloc, shape, &lines, &clock, number)?;
    group.follow(course);
    Ok(group.crowd.fault)
}

impl<G: TestGateway> Group<'_, G> {
    fn follow(&mut self, course: Course) {
        match course {
            Course::Turns(turns) => self.play_turns(turns),
            Course::Count => self.count(),
            Course::Lose(lost) => self.lose(lost),
            Course::Succeed(seat) => self.succeed(seat),
            Course::Haunt => self.haunt(),
            Course::Leave => self.leave(),
            Course::Stall => self.stall(),
            Course::Hang => self.hang(),
        }
    }
}
