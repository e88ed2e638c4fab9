ghost use Rattle.std.specs.Prelude.{◌≡◌, ◌<◌, ◌∷◌, ◌++◌, ◌^◌, length, OnOk};
ghost use Rattle.std.specs.List.{AllByRecursion, flat_map};
ghost use Rattle.wire_codec.specs.Fits.{IsOne, FitFields, FitsProcess, FitsSession, FitsUpdate};
ghost use Rattle.wire_codec.specs.Frame as spec;
ghost use Rattle.wire_codec.specs.Frame.{one, two, four, eight, short, update};
ghost use Rattle.wire_codec.specs.Parts.{text_before, text_behind};

use crate::put_numbers::{put_eight, put_four, put_one, put_two};
use crate::put_update::{put_effect, put_update, put_update_before};
use group_message::{Message, RowList, Session, Update, UpdateList};
use group_types::{Partition, ProcessId, Rank};
use std::alloc::AllocError;
use vector_stamp::Stamp;

/// The text of a message up to its value.
pub fn put_text_before(out: &mut Vec<u8>, message: &Message) -> Result<(), AllocError>
    requires { FitFields message.now }
    ensures { OnOk result (out.new.items ≡ out.old.items ++ text_before message.now) }
{
    match message {
        Message::Update {
            rank,
            partition,
            update,
            ..
        } => {
            put_heading(out, 1, *rank, *partition)?;
            put_update_before(out, update)?;
            Ok(())
        }
        Message::Ack {
            rank,
            partition,
            number,
        } => {
            put_heading(out, 2, *rank, *partition)?;
            put_eight(out, *number)
        }
        Message::Stable {
            rank,
            partition,
            number,
        } => {
            put_heading(out, 3, *rank, *partition)?;
            put_eight(out, *number)
        }
        Message::Adopt {
            rank,
            partition,
            base,
            list,
        } => {
            put_heading(out, 4, *rank, *partition)?;
            put_eight(out, *base)?;
            put_list(out, list)?;
            Ok(())
        }
        Message::ReadBlock {
            session,
            block,
            rows,
        } => {
            put_session(out, 5, *session)?;
            put_four(out, *block)?;
            put_rows(out, rows)
        }
        Message::Block { session, bytes, .. } => {
            put_session(out, 6, *session)?;
            put_four(out, bytes.bytes().len() as u32)
        }
        Message::Mark {
            session,
            rank,
            block,
            partition,
            number,
        } => put_mark(out, *session, *rank, *block, (*partition, *number)),
        Message::Row { session, bytes, .. } => {
            put_session(out, 8, *session)?;
            put_four(out, bytes.bytes().len() as u32)
        }
        Message::Cease { upto } => {
            put_one(out, 9)?;
            put_eight(out, *upto)
        }
        Message::Notice { dead } => {
            put_one(out, 10)?;
            put_process(out, *dead)
        }
    }
}

/// The text of a message behind its value.
pub fn put_text_behind(out: &mut Vec<u8>, message: &Message) -> Result<(), AllocError>
    requires { FitFields message.now }
    ensures { OnOk result (out.new.items ≡ out.old.items ++ text_behind message.now) }
{
    match message {
        Message::Update { update, stable, .. } => {
            put_effect(out, update.frees, update.outcome)?;
            put_eight(out, *stable)
        }
        Message::Block { number, .. } => put_eight(out, *number),
        Message::Row { stamp, .. } => put_stamp(out, stamp),
        _ => Ok(()),
    }
}

fn put_heading(
    out: &mut Vec<u8>,
    kind: u32,
    rank: Rank,
    partition: Partition,
) -> Result<(), AllocError>
    requires kind { kind < 256 }
    requires rank { rank.0 < 256 }
    requires partition { partition.0 < 256 }
    ensures { OnOk result (out.new.items ≡ out.old.items ++ (kind ∷ one rank.0 ++ one partition.0)) }
{
    put_one(out, kind)?;
    put_one(out, rank.0)?;
    put_one(out, partition.0)
}

/// A process.
pub fn put_process(out: &mut Vec<u8>, process: ProcessId) -> Result<(), AllocError>
    requires { FitsProcess process }
    ensures { OnOk result (out.new.items ≡ out.old.items ++ spec.process process) }
{
    match process {
        ProcessId::DataNode(d) => {
            put_one(out, 0)?;
            put_one(out, d)
        }
        ProcessId::ParityNode(i) => {
            put_one(out, 1)?;
            put_one(out, i)
        }
    }
}

fn put_session(out: &mut Vec<u8>, kind: u32, session: Session) -> Result<(), AllocError>
    requires kind { kind < 256 }
    requires session { FitsSession session }
    ensures { OnOk result (out.new.items ≡ out.old.items ++ (kind ∷ spec.session session)) }
{
    put_one(out, kind)?;
    put_process(out, session.leader)?;
    put_eight(out, session.number)
}

fn put_mark(
    out: &mut Vec<u8>,
    session: Session,
    rank: Rank,
    block: u32,
    mark: (Partition, u64),
) -> Result<(), AllocError>
    requires session { FitsSession session }
    requires rank { rank.0 < 256 }
    requires partition { mark.0.0 < 256 }
    ensures { OnOk result (out.new.items ≡ out.old.items ++ (7 ∷ spec.session session ++ one rank.0
        ++ four block ++ one mark.0.0 ++ eight mark.1)) }
{
    put_session(out, 7, session)?;
    put_one(out, rank.0)?;
    put_four(out, block)?;
    put_one(out, mark.0.0)?;
    put_eight(out, mark.1)?;
    Ok(())
}

fn put_list(out: &mut Vec<u8>, list: &UpdateList) -> Result<(), AllocError>
    requires count { length list.now < 2 ^ 16 }
    requires fits { AllByRecursion FitsUpdate list.now }
    ensures { OnOk result (out.new.items ≡ out.old.items ++ (two (length list.now) ++ flat_map update list.now)) }
{
    put_two(out, list.updates().len() as u16)?;
    put_updates(out, list.updates())
}

fn put_updates(out: &mut Vec<u8>, updates: &[Update]) -> Result<(), AllocError>
    requires { AllByRecursion FitsUpdate updates.now }
    ensures { OnOk result (out.new.items ≡ out.old.items ++ flat_map update updates.now) }
{
    'updates: for u in updates {
        put_update(out, u)?;
    }
    Ok(())
}

fn put_rows(out: &mut Vec<u8>, rows: &RowList) -> Result<(), AllocError>
    requires count { length rows.now < 256 }
    requires fits { AllByRecursion IsOne rows.now }
    ensures { OnOk result (out.new.items ≡ out.old.items ++ short rows.now) }
{
    put_one(out, rows.rows().len() as u32)?;
    put_ones(out, rows.rows())
}

fn put_ones(out: &mut Vec<u8>, numbers: &[u32]) -> Result<(), AllocError>
    requires { AllByRecursion IsOne numbers.now }
    ensures { OnOk result (out.new.items ≡ out.old.items ++ numbers.now) }
{
    'numbers: for &n in numbers {
        put_one(out, n)?;
    }
    Ok(())
}

fn put_stamp(out: &mut Vec<u8>, stamp: &Stamp) -> Result<(), AllocError>
    requires { length stamp.now < 256 }
    ensures { OnOk result (out.new.items ≡ out.old.items ++ (one (length stamp.now) ++ flat_map eight stamp.now)) }
{
    put_one(out, stamp.numbers().len() as u32)?;
    put_eights(out, stamp.numbers())
}

fn put_eights(out: &mut Vec<u8>, numbers: &[u64]) -> Result<(), AllocError>
    ensures { OnOk result (out.new.items ≡ out.old.items ++ flat_map eight numbers.now) }
{
    'numbers: for &n in numbers {
        put_eight(out, n)?;
    }
    Ok(())
}
