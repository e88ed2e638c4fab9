ghost use Rattle.std.specs.Prelude.{◌≡◌, ◌<◌, ◌≤◌, ◌+◌, ◌++◌, [], ◌∷◌, length, vec_len, vec_capacity, map, ◌==◌, ◌&&◌, nat_lt, All};
ghost use Rattle.std.specs.List.{range_with_len};
ghost use Rattle.group_run.specs.Replica.{run_of};
ghost use Rattle.group_run.specs.World.{entry_then, op_in, settled_in, update_name};
ghost use Rattle.group_ledger.specs.Accounts.{accounts_after, accounts_of, news_of, update_runs};
ghost use Rattle.group_ledger.specs.Taking.{Differ, entries_taken, op_taken, ops_taken};

use crate::room::add;
use crate::tickets::{Ticket, take_op};
use group_calls::Entry;
use group_message::{Body, Update};
use group_types::Run;
use head_service::Settlement;
use head_service::held::reply;
use memc_table::Op;

/// Logs what is settled and isn't logged yet, partition by partition. It takes no memory.
pub(crate) fn settle_all(
    settled: &[Settlement],
    places: &mut [Vec<Option<Run>>],
    log: &mut Vec<Entry>,
    tickets: &mut [Ticket],
)
    requires differ { Differ tickets.old }
    requires log_room { vec_len log.old + length settled.now ≤ vec_capacity log.old }
    requires places_room { All (λ p. vec_len p + length settled.now ≤ vec_capacity p) places.old }
    ensures accounts { accounts_of log.new.items (map (λ p. p.items) places.new) tickets.new
        ≡ accounts_after settled.now (range_with_len 0 (length places.old)) (accounts_of log.old.items (map (λ p. p.items) places.old) tickets.old) }
    ensures many { length places.new ≡ length places.old }
{
    'partitions: for d in 0..places.len() {
        settle_partition(d, settled, &mut places[d], log, tickets);
    }
}

// The same of one partition.
fn settle_partition(
    partition: usize,
    settled: &[Settlement],
    places: &mut Vec<Option<Run>>,
    log: &mut Vec<Entry>,
    tickets: &mut [Ticket],
)
    requires differ { Differ tickets.old }
    requires log_room { vec_len log.old + length (settled_in partition settled.now) ≤ vec_capacity log.old }
    requires places_room { vec_len places.old + length settled.now ≤ vec_capacity places.old }
    ensures log { log.new.items ≡ log.old.items
        ++ entries_taken tickets.old (news_of partition (vec_len places.old) settled.now) }
    ensures places { places.new.items ≡ places.old.items
        ++ update_runs (news_of partition (vec_len places.old) settled.now) }
    ensures tickets { tickets.new ≡ ops_taken (news_of partition (vec_len places.old) settled.now) tickets.old }
    ensures differ { Differ tickets.new }
    ensures few { vec_len log.new ≤ vec_len log.old + length (settled_in partition settled.now) }
    ensures log_capacity { vec_capacity log.old ≤ vec_capacity log.new }
{
    let count = places.len() as u64;
    'settled: for settlement in settled {
        if !is_new(partition, count, settlement) {
            continue;
        }
        settle(&settlement.update, places, log, tickets);
    }
}

// Whether it is an update of this partition, which has the first `count` in the log.
fn is_new(partition: usize, count: u64, settlement: &Settlement) -> bool
    ensures { result ≡ (settlement.now.partition == partition && nat_lt count settlement.now.update.number) }
{
    settlement.partition.0 as usize == partition && count < settlement.update.number
}

fn settle(
    update: &Update,
    places: &mut Vec<Option<Run>>,
    log: &mut Vec<Entry>,
    tickets: &mut [Ticket],
)
    requires differ { Differ tickets.old }
    requires log_room { vec_len log.old < vec_capacity log.old }
    requires places_room { vec_len places.old < vec_capacity places.old }
    ensures log { log.new.items ≡ log.old.items
        ++ entry_then update.now (op_in (update_name update.now) tickets.old) [] }
    ensures places { places.new.items ≡ places.old.items ++ run_of update.now.body ∷ [] }
    ensures tickets { tickets.new ≡ map (op_taken (update_name update.now)) tickets.old }
    ensures log_capacity { vec_capacity log.old ≤ vec_capacity log.new }
    ensures places_capacity { vec_capacity places.old ≤ vec_capacity places.new }
{
    add(places, run_of(update));
    let op = take_op(tickets, update.caller, update.call);
    add_entry(update, op, log);
}

fn run_of(update: &Update) -> Option<Run>
    ensures { result ≡ run_of update.now.body }
{
    match update.body {
        Body::Put { run, .. } => Some(run),
        Body::Remove | Body::Touch { .. } => None,
    }
}

// The entry of a settled update, if its call has an op.
fn add_entry(update: &Update, op: Option<Op>, log: &mut Vec<Entry>)
    requires room { vec_len log.old < vec_capacity log.old }
    ensures log { log.new.items ≡ log.old.items ++ entry_then update.now op [] }
    ensures capacity { vec_capacity log.old ≤ vec_capacity log.new }
{
    match op {
        None => {}
        Some(op) => add(
            log,
            Entry {
                caller: update.caller,
                call: update.call,
                op,
                reply: reply(update.outcome),
            },
        ),
    }
}
