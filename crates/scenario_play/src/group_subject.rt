ghost use Rattle.std.specs.Prelude.{◌≡◌};
ghost use Rattle.scenario_play.specs.Group.{log_len};
ghost use Rattle.scenario_play.specs.Status.{told_at};

use crate::next::treat;
use crate::playing::Play;
use crate::status::Status;
use crate::subject::Subject;
use scenario_text::LineFault;
use std::alloc::Global;

impl Subject for Play {
    ghost use Rattle.group_calls.specs.Turns.{Turn};
    ghost use Rattle.scenario_play.specs.Group.{group_script, group_told};

    type Fault = LineFault;

    ghost Turn = { Turn };

    ghost script = { group_script };

    fn treat(
        subject: &mut Option<Play>,
        alloc: Global,
        _number: u64,
        line: &[u8],
    ) -> Result<Option<Vec<u8>>, LineFault> {
        treat(alloc, subject, line)
    }

    fn told(fault: LineFault, number: u64) -> Status {
        status_of(fault, number)
    }

    ghost tells = { group_told };
}

/// What is told of a line of this number that is refused, where a group is played.
pub fn status_of(fault: LineFault, number: u64) -> Status
    ensures { result ≡ told_at number fault }
{
    match fault {
        LineFault::BadLine => Status::BadLine(number),
        LineFault::BadShape(field) => Status::BadShape(field),
        LineFault::Want => Status::Want,
    }
}

/// How many entries a script's group has logged.
pub(crate) fn logged(subject: &Option<Play>) -> usize
    ensures { result ≡ log_len subject.now }
{
    match subject {
        Some(play) => play.world.log().len(),
        None => 0,
    }
}
