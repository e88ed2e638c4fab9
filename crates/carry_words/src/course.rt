ghost use Rattle.std.specs.Prelude.{◌≡◌};
ghost use Rattle.carry_words.specs.Courses.{checked, course_of, has_ended, missed, read, set};

use crate::heard::Heard;
use crate::listed::Listed;
use crate::stage::Stage;
use crate::transfer::Transfer;
use group_types::Payload;

/// For how many seconds a clock of this program may be behind that of a member.
const MOST_BEHIND: u64 = 60;

/// Why items can't be carried.
#[derive(Clone, Copy, Debug, PartialEq, Eq)]
pub enum CarryFault {
    /// An item that was listed and hasn't ended isn't there.
    Lost,
    /// An item has other flags or another length than were listed.
    Changed,
    /// What is read back isn't what was set.
    Differs,
    /// An item was listed, or answered, at a place where it can't be.
    Misplaced,
}

/// What becomes of an item on its way.
#[derive(Debug, Drop)]
pub enum Course {
    /// It goes on.
    Goes { transfer: Transfer },
    /// It was set, and read back equal.
    Carried,
    /// It has ended.
    Gone,
    /// It can't be carried.
    Fails { fault: CarryFault },
}

impl Transfer {
    /// What becomes of the item by what was heard at the moment `now`.
    pub(crate) fn hear(self, heard: Heard, now: u64) -> Course
        ensures { result ≡ course_of now self heard }
    {
        let Transfer { item, stage } = self;
        match stage {
            Stage::Unread => read(item, heard, now),
            Stage::Read { value } => set(item, value, heard),
            Stage::Stored { value } => checked(item, value, heard, now),
        }
    }
}

/// The item was asked for in the old group.
fn read(item: Listed, heard: Heard, now: u64) -> Course
    ensures { result ≡ read now item heard }
{
    match heard {
        Heard::Found { value } => goes(item, Stage::Read { value }),
        Heard::Missing => missed(item, Stage::Unread, now),
        Heard::Other => fails(CarryFault::Changed),
        Heard::Stored | Heard::Refused => goes(item, Stage::Unread),
    }
}

/// It was set in the new group.
fn set(item: Listed, value: Payload, heard: Heard) -> Course
    ensures { result ≡ set item value heard }
{
    match heard {
        Heard::Stored => goes(item, Stage::Stored { value }),
        _ => goes(item, Stage::Read { value }),
    }
}

/// It was asked for in the new group.
fn checked(item: Listed, value: Payload, heard: Heard, now: u64) -> Course
    ensures { result ≡ checked now item value heard }
{
    match heard {
        Heard::Found { value: back } => {
            if back.bytes() == value.bytes() {
                Course::Carried
            } else {
                fails(CarryFault::Differs)
            }
        }
        Heard::Missing => missed(item, Stage::Stored { value }, now),
        Heard::Other => fails(CarryFault::Differs),
        Heard::Stored | Heard::Refused => goes(item, Stage::Stored { value }),
    }
}

/// The item isn't there, which is right once it has ended.
fn missed(item: Listed, stage: Stage, now: u64) -> Course
    ensures { result ≡ missed now item stage }
{
    if has_ended(now, item.until) {
        Course::Gone
    } else if has_ended(now.saturating_add(MOST_BEHIND), item.until) {
        goes(item, stage)
    } else {
        fails(CarryFault::Lost)
    }
}

/// Whether an item has ended by a moment.
fn has_ended(now: u64, until: Option<u64>) -> bool
    ensures { result ≡ has_ended now until }
{
    match until {
        Some(until) => until <= now,
        None => false,
    }
}

fn goes(item: Listed, stage: Stage) -> Course
    ensures { result ≡ Course.Goes (record { item = item; stage = stage }) }
{
    Course::Goes {
        transfer: Transfer { item, stage },
    }
}

fn fails(fault: CarryFault) -> Course
    ensures { result ≡ Course.Fails fault }
{
    Course::Fails { fault }
}
