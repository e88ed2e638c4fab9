// Runs of items that updates leave on a key, and that they give back.
ghost use Rattle.std.specs.Prelude.{◌≡◌, true};
ghost use Rattle.std.specs.Option.{option_map};
ghost use Rattle.group_types.specs.Lists.{same_key};
ghost use Rattle.group_run.specs.Replica.{run_in};
ghost use Rattle.partition_replica.specs.Coming.{freed_from, run_after, run_behind, runs_behind};

use group_message::{Body, Update};
use group_types::{Key, Run};
use item_index::Slot;

/// The run of an item, if there is one.
pub fn run_in(item: Option<Slot>) -> Option<Run>
    ensures { result ≡ option_map run_in item }
{
    let slot = item?;
    Some(Run {
        at: slot.at,
        len: slot.len,
    })
}

/// The run that an update gives back, from the one that the item on its key had.
pub fn freed_from(body: &Body, run: Option<Run>) -> Option<Run>
    ensures { result ≡ freed_from body.now run }
{
    match body {
        Body::Put { .. } | Body::Remove => run,
        Body::Touch { .. } => None,
    }
}

/// The run that an update leaves on a key, from the one that the item there had.
pub fn run_behind(update: &Update, key: &Key, old: Option<Run>) -> Option<Run>
    ensures { result ≡ run_behind key.now update.now old }
{
    if is_on(update, key) {
        run_after(&update.body, old)
    } else {
        old
    }
}

// Whether an update is on a key. Keys that differ mostly do so at their ends, which are compared first.
fn is_on(update: &Update, key: &Key) -> bool
    ensures { result ≡ same_key update.now.key key.now }
{
    ends_alike(update.key.bytes(), key.bytes()) && update.key == *key
}

fn ends_alike(one: &[u8], other: &[u8]) -> bool
    ensures { one.now ≡ other.now → result ≡ true }
{
    one.last().copied() == other.last().copied()
}

fn run_after(body: &Body, old: Option<Run>) -> Option<Run>
    ensures { result ≡ run_after body.now old }
{
    match body {
        Body::Put { run, .. } => Some(*run),
        Body::Remove => None,
        Body::Touch { .. } => old,
    }
}

/// The run that these updates leave on a key, from the one that the item there had.
pub fn runs_behind(updates: &[Update], key: &Key, old: Option<Run>) -> Option<Run>
    ensures { result ≡ runs_behind key.now updates.now old }
{
    let mut run = old;
    'updates: for update in updates {
        run = run_behind(update, key, run);
    }
    run
}
