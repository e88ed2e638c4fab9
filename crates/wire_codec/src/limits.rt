ghost use Rattle.std.specs.Prelude.{◌≡◌, ◌<◌, ◌↔◌, length, IsTrue};
ghost use Rattle.std.specs.List.{AllByRecursion};
ghost use Rattle.wire_codec.specs.Fits.{IsOne, IsTwo, IsFour, IsEight, IsLong, FitsProcess, FitsSession, FitsBody, FitsMaybe, FitsOutcome, FitsRun, FitsUpdate, FitFields, HasFrame};

use crate::length::text_length;
use group_message::{Body, Message, Outcome, Session, Update};
use group_types::{ProcessId, Run};

/// Whether a message has a frame.
pub fn has_frame(message: &Message) -> bool
    ensures { IsTrue result ↔ HasFrame message.now }
{
    fit_fields(message) && text_length(message).is_some()
}

fn fit_fields(message: &Message) -> bool
    ensures { IsTrue result ↔ FitFields message.now }
{
    match message {
        Message::Update {
            rank,
            partition,
            update,
            stable,
        } => { fit_numbers(rank.0, partition.0, *stable) && fits_update(update) }
        Message::Ack {
            rank,
            partition,
            number,
        } => fit_numbers(rank.0, partition.0, *number),
        Message::Stable {
            rank,
            partition,
            number,
        } => fit_numbers(rank.0, partition.0, *number),
        Message::Adopt {
            rank,
            partition,
            base,
            list,
        } => { fit_numbers(rank.0, partition.0, *base) && fit_updates(list.updates()) }
        Message::ReadBlock {
            session,
            block,
            rows,
        } => { fits_session(*session) && fits_four(*block) && fit_rows(rows.rows()) }
        Message::Block {
            session,
            bytes,
            number,
        } => { fits_session(*session) && is_long(bytes.bytes()) && fits_eight(*number) }
        Message::Mark {
            session,
            rank,
            block,
            partition,
            number,
        } => {
            fits_session(*session) && fits_four(*block) && fit_numbers(rank.0, partition.0, *number)
        }
        Message::Row {
            session,
            bytes,
            stamp,
        } => { fits_session(*session) && is_long(bytes.bytes()) && fits_stamp(stamp.numbers()) }
        Message::Cease { upto } => fits_eight(*upto),
        Message::Notice { dead } => fits_process(*dead),
    }
}

fn fit_numbers(rank: u32, partition: u32, number: u64) -> bool
    ensures { IsTrue result ↔ (IsOne rank × IsOne partition × IsEight number) }
{
    rank < 256 && partition < 256 && fits_eight(number)
}

fn fits_four(n: u32) -> bool
    ensures { IsTrue result ↔ IsFour n }
{
    n <= u32::MAX
}

fn fits_eight(n: u64) -> bool
    ensures { IsTrue result ↔ IsEight n }
{
    n <= u64::MAX
}

fn is_long(bytes: &[u8]) -> bool
    ensures { IsTrue result ↔ IsLong bytes.now }
{
    bytes.len() <= u32::MAX as usize
}

fn fits_process(process: ProcessId) -> bool
    ensures { IsTrue result ↔ FitsProcess process }
{
    match process {
        ProcessId::DataNode(d) => d < 256,
        ProcessId::ParityNode(i) => i < 256,
    }
}

fn fits_session(session: Session) -> bool
    ensures { IsTrue result ↔ FitsSession session }
{
    fits_process(session.leader)
}

fn fit_rows(rows: &[u32]) -> bool
    ensures { IsTrue result ↔ (IsOne (length rows.now) × AllByRecursion IsOne rows.now) }
{
    rows.len() < 256 && rows.iter().all(|&row| row < 256)
}

fn fits_stamp(numbers: &[u64]) -> bool
    ensures { IsTrue result ↔ (IsOne (length numbers.now) × AllByRecursion IsEight numbers.now) }
{
    numbers.len() < 256
}

fn fits_update(u: &Update) -> bool
    ensures { IsTrue result ↔ FitsUpdate u.now }
{
    let _key = u.key.bytes();
    fits_name(u.number, u.caller, u.call) && fits_body(&u.body) && fits_effect(u.frees, u.outcome)
}

fn fits_name(number: u64, caller: u32, call: u64) -> bool
    ensures { IsTrue result ↔ (IsEight number × IsOne caller × IsEight call) }
{
    let _ = (number, call);
    caller < 256
}

fn fits_effect(frees: Option<Run>, outcome: Outcome) -> bool
    ensures { IsTrue result ↔ (FitsMaybe FitsRun frees × FitsOutcome outcome) }
{
    fits_frees(frees) && fits_outcome(outcome)
}

fn fits_frees(frees: Option<Run>) -> bool
    ensures { IsTrue result ↔ FitsMaybe FitsRun frees }
{
    match frees {
        None => true,
        Some(run) => fits_run(run),
    }
}

fn fits_run(run: Run) -> bool
    ensures { IsTrue result ↔ FitsRun run }
{
    fits_four(run.at) && fits_four(run.len)
}

fn fits_outcome(outcome: Outcome) -> bool
    ensures { IsTrue result ↔ FitsOutcome outcome }
{
    match outcome {
        Outcome::Number(number) => fits_eight(number),
        _ => true,
    }
}

fn fits_until(until: Option<u64>) -> bool
    ensures { IsTrue result ↔ FitsMaybe IsEight until }
{
    match until {
        None => true,
        Some(until) => fits_eight(until),
    }
}

fn fits_body(body: &Body) -> bool
    ensures { IsTrue result ↔ FitsBody body.now }
{
    match body {
        Body::Put {
            flags,
            until,
            run,
            delta,
        } => *flags <= u32::MAX
            && fits_until(*until)
            && fits_run(*run)
            && delta.len() == run.len as usize,
        Body::Remove => true,
        Body::Touch { until } => fits_until(*until),
    }
}

fn fit_updates(updates: &[Update]) -> bool
    ensures { IsTrue result ↔ (IsTwo (length updates.now) × AllByRecursion FitsUpdate updates.now) }
{
    if updates.len() > 65_535 {
        return false;
    }
    'updates: for u in updates {
        if !fits_update(u) {
            return false;
        }
    }
    true
}
