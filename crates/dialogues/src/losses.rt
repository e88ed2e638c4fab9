// A process of a group 3 2 is lost before an event of a run: before each event each process, with none, one or all of
// its messages kept. Behind the run each key is read twice. The script must be played to its end, `verify` must find its
// transcript right, and the second read must give what was stored.
mod key;
mod loss;

use crate::dialogue::Dialogue;
use crate::playing::played_whole;
use key::are_read;
use loss::{Loss, losses_of};
use std::alloc::{AllocError, Global};
use std::str::from_utf8;
use std::sync::Wait;
use std::thread::Threads;

/// How many losses end as they must, or the first that doesn't.
pub(crate) fn told<R: Threads + Wait + Sync>(
    rt: &R,
    alloc: Global,
    events: &str,
) -> Result<String, AllocError> {
    let losses = losses_of(alloc, events)?;
    'losses: for loss in &losses {
        if !is_right(rt, alloc, loss, events)? {
            let (before, process, kept) = (loss.before, loss.process, loss.kept);
            return format!(in alloc;
                "a loss of {process} before event {before}, {kept} kept: wrong\n"
            );
        }
    }
    let count = losses.len();
    format!(in alloc; "{count} losses: right\n")
}

fn is_right<R: Threads + Wait + Sync>(
    rt: &R,
    alloc: Global,
    loss: &Loss,
    events: &str,
) -> Result<bool, AllocError> {
    let script = loss.script(alloc, events)?;
    let (status, transcript) = written_by(rt, alloc, "play", &script)?;
    let right = status == 0 && are_read(&transcript, loss.process);
    let whole = format!(in alloc; "{script}====\n{transcript}")?;
    let (verdict, _) = written_by(rt, alloc, "verify", &whole)?;
    Ok(right && verdict == 0)
}

// The number of the status that a command ends with, and what it writes.
fn written_by<R: Threads + Wait + Sync>(
    rt: &R,
    alloc: Global,
    word: &str,
    input: &str,
) -> Result<(u8, String), AllocError> {
    let dialogue = Dialogue::of_command(alloc, word, input)?;
    let (status, written) = played_whole(rt, alloc, &dialogue)?;
    let text = from_utf8(&written).unwrap_or("");
    Ok((status, String::from_str(alloc, text)?))
}
