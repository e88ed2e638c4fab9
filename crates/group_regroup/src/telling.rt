ghost use Rattle.std.specs.Prelude.{◌≡◌, ◌+◌, ◌<◌, ◌^◌, ℕ, List};
ghost use Rattle.group_types.specs.Lists.{at};
ghost use Rattle.group_calls.specs.declared.event.Answer.TheVariants as says;
ghost use Rattle.group_eras.specs.Told.{based_reply, told_answer};
ghost use Rattle.group_regroup.specs.Fitting.{AnswerFits, ReplyFits};

use crate::changing::base_of;
use group_calls::{Answer, Cause};
use memc_table::{Item, Reply};

/// An answer to an ask of a partition, as it is told.
pub(crate) fn told_answer(bases: &[u64], partition: u32, answer: Answer) -> Answer
    requires { AnswerFits bases.now partition answer }
    ensures { result ≡ told_answer bases.now partition answer }
{
    match answer {
        Answer::Reply(reply) => {
            let base = base_of(bases, partition);
            Answer::Reply(told_reply(base, reply))
        }
        Answer::Ticket(number) => Answer::Ticket(base_of(bases, partition) + number),
        Answer::Retry(cause) => Answer::Retry(told_cause(bases, cause)),
        other => other,
    }
}

fn told_reply(base: u64, reply: Reply) -> Reply
    requires { ReplyFits base reply }
    ensures { (bases : List ℕ) (d : ℕ) → at 0 bases d ≡ base → result ≡ based_reply bases d reply }
{
    match reply {
        Reply::Value(item) => Reply::Value(Item {
            flags: item.flags,
            cas: base + item.cas,
            value: item.value,
        }),
        other => other,
    }
}

fn told_cause(bases: &[u64], cause: Cause) -> Cause
    requires { (d : ℕ) → AnswerFits bases.now d (says.Retry cause) }
    ensures { (d : ℕ) → says.Retry result ≡ told_answer bases.now d (says.Retry cause) }
{
    match cause {
        Cause::Pending { partition, number } => Cause::Pending {
            partition,
            number: base_of(bases, partition.0) + number,
        },
        Cause::Block { block } => Cause::Block { block },
    }
}
