ghost use Rattle.std.specs.Prelude.{◌≡◌, ◌≤◌};
ghost use Rattle.scenario_play.specs.Player.{HasMetEnd, HasTreatedLine, bytes_in_text, telling};
ghost use Rattle.scenario_play.specs.Script.{TellsCauses, HasDone, LeavesReady, Scripts};

use crate::status::Status;
use std::alloc::Global;

/// What the lines of a script are about, once one of them has named it.
pub trait Subject: Sized + Drop {
    /// Why a line is refused.
    type Fault: Copy;

    // What its lines make.
    ghost Turn: { Type 0 };

    // What they do, and what is told of them.
    ghost script: { Scripts Self Turn Self.Fault };

    /// Treats a line: the text that it writes, or none where the script ends.
    fn treat(
        subject: &mut Option<Self>,
        alloc: Global,
        number: u64,
        line: &[u8],
    ) -> Result<Option<Vec<u8>>, Self::Fault>
        requires number { number ≤ 16777217 }
        requires ready { script.Ready number subject.old }
        ensures done { HasDone script.want subject.old (script.rules subject.old line.now) subject.new
            (bytes_in_text result) }
        ensures onward { LeavesReady script };

    /// What is told of a line of this number that is refused.
    fn told(fault: Self::Fault, number: u64) -> Status
        ensures { result ≡ script.told number fault };

    // Each cause is told of as a refusal, but for want of memory.
    ghost tells: { TellsCauses script };
}

/// Treats a line, and tells of it where it is refused.
pub(crate) fn treat_line<P: Subject>(
    subject: &mut Option<P>,
    alloc: Global,
    number: u64,
    line: &[u8],
) -> Result<Option<Vec<u8>>, Status>
    requires number { number ≤ 16777217 }
    requires ready { P.script.Ready number subject.old }
    ensures { HasTreatedLine (telling P.script) number subject.old subject.new line.now (bytes_in_text result) }
{
    match P::treat(subject, alloc, number, line) {
        Ok(text) => Ok(text),
        Err(fault) => Err(P::told(fault, number)),
    }
}

/// What there is to say behind the last line.
pub(crate) fn end_lines<P: Subject>(subject: &Option<P>, number: u64) -> Result<(), Status>
    ensures { HasMetEnd (telling P.script) number subject.now result }
{
    match subject {
        Some(_) => Ok(()),
        None => Err(Status::BadLine(number)),
    }
}
