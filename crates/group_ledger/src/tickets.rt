ghost use Rattle.std.specs.Prelude.{◌≡◌, None, map};
ghost use Rattle.group_run.specs.World.{op_in, same_call};
ghost use Rattle.group_ledger.specs.Taking.{Differ, op_taken};

use memc_table::Op;
use std::marker::Model;

/// A call whose update was issued: the length of the log as it was asked, and its op until that moves into
/// the log.
#[derive(Debug, Drop)]
pub(crate) struct Ticket {
    pub(crate) caller: u32,
    pub(crate) call: u64,
    pub(crate) since: usize,
    pub(crate) op: Option<Op>,
}

impl Model for Ticket {
    ghost use Rattle.group_run.specs.World as machine;

    ghost Value = { machine.Ticket };

    ghost view = { λ t. record { name = record { caller = t.caller; call = t.call }; since = t.since; op = t.op } };
}

impl Ticket {
    fn is_of(&self, caller: u32, call: u64) -> bool
        ensures { result ≡ same_call self.now.name (record { caller = caller; call = call }) }
    {
        self.caller == caller && self.call == call
    }

    fn take_op(&mut self) -> Option<Op>
        ensures op { result ≡ self.old.op }
        ensures ticket { self.new ≡ record { name = self.old.name; since = self.old.since; op = None } }
    {
        self.op.take()
    }
}

/// The op of a call moves out of its ticket, if it is still there.
pub(crate) fn take_op(tickets: &mut [Ticket], caller: u32, call: u64) -> Option<Op>
    requires differ { Differ tickets.old }
    ensures op { result ≡ op_in (record { caller = caller; call = call }) tickets.old }
    ensures tickets { tickets.new ≡ map (op_taken (record { caller = caller; call = call })) tickets.old }
{
    let mut place = tickets.len();
    'tickets: while 0 < place {
        place -= 1;
        if tickets[place].is_of(caller, call) {
            return tickets[place].take_op();
        }
    }
    None
}
