ghost use Rattle.std.specs.Prelude.{◌↔◌, IsTrue};
ghost use Rattle.memc_table.specs.declared.reply.Reply.TheVariants.{Value};
ghost use Rattle.link_frames.specs.Limits.{FitsToldAnswer, FitsToldCause, FitsTold, FitsToldReply};

use crate::fits_number::{fits_eight, fits_four, fits_value};
use crate::told::Told;
use group_calls::{Answer, Cause};
use memc_table::{Item, Reply};

pub(crate) fn fits_told(told: &Told) -> bool
    ensures { IsTrue result ↔ FitsTold told.now }
{
    told.caller() < 256 && fits_eight(told.call()) && fits_answer(told.answer())
}

fn fits_answer(answer: &Answer) -> bool
    ensures { IsTrue result ↔ FitsToldAnswer answer.now }
{
    match answer {
        Answer::Reply(reply) => fits_reply(reply),
        Answer::Ticket(call) => fits_eight(*call),
        Answer::NotYet => true,
        Answer::NoSpace => true,
        Answer::Retry(cause) => fits_cause(cause),
        Answer::Moved => true,
        Answer::Lost => true,
        Answer::Down => true,
        Answer::Idle => true,
        Answer::Stranger => true,
        Answer::Done => true,
        Answer::AlreadyDead => true,
        Answer::Gone => true,
        Answer::Stale(number) => fits_eight(*number),
    }
}

fn fits_cause(cause: &Cause) -> bool
    ensures { IsTrue result ↔ FitsToldCause cause.now }
{
    match cause {
        Cause::Pending { partition, number } => partition.0 < 256 && fits_eight(*number),
        Cause::Block { block } => fits_four(*block),
    }
}

fn fits_reply(reply: &Reply) -> bool
    ensures { IsTrue result ↔ FitsToldReply reply.now }
{
    match reply {
        Reply::Value(item) => fits_shown(item),
        Reply::Miss => true,
        Reply::Stored => true,
        Reply::NotStored => true,
        Reply::Exists => true,
        Reply::NotFound => true,
        Reply::Deleted => true,
        Reply::Touched => true,
        Reply::Number(n) => fits_eight(*n),
        Reply::NotNumber => true,
        Reply::TooLarge => true,
    }
}

fn fits_shown(item: &Item) -> bool
    ensures { IsTrue result ↔ FitsToldReply (Value item.now) }
{
    fits_four(item.flags) && fits_eight(item.cas) && fits_value(&item.value)
}
