// One table behind a lock, which all connections of a test share.
use front_end::Caller;
use group_types::ProcessId;
use memc_proto::{CallEnd, FailEnd};
use memc_table::{Op, Table};
use node_worker::Port;
use std::alloc::AllocError;
use std::sync::atomic::{AtomicU64, Ordering};
use std::sync::{Mutex, Wait};

/// How many updates of one partition the table takes.
const WORN: u64 = 1 << 62;

/// A port over a table: every second time that it is asked it has no caller.
#[derive(Drop)]
pub struct Shop<'t, R> {
    rt: R,
    table: &'t Mutex<Table>,
    asked: AtomicU64,
}

impl<'t, R> Shop<'t, R> {
    pub fn new(rt: R, table: &'t Mutex<Table>) -> Shop<'t, R> {
        Shop {
            rt,
            table,
            asked: AtomicU64::new(0),
        }
    }
}

impl<'t, R: Wait + Copy + Sync + Send> Port for Shop<'t, R> {
    type Lent = Till<'t, R>;

    fn lend(&self) -> Option<Till<'t, R>> {
        if self.asked.fetch_add(1, Ordering::SeqCst) % 2 == 0 {
            return None;
        }
        Some(Till {
            rt: self.rt,
            table: self.table,
        })
    }

    fn give_back(&self, _lent: Till<'t, R>) {}
}

/// A caller over the table of a shop.
#[derive(Drop)]
pub struct Till<'t, R> {
    rt: R,
    table: &'t Mutex<Table>,
}

impl<'t, R> Till<'t, R> {
    pub fn new(rt: R, table: &'t Mutex<Table>) -> Till<'t, R> {
        Till { rt, table }
    }
}

impl<R: Wait> Caller for Till<'_, R> {
    ghost use Rattle.std.specs.Prelude.{⊤};

    ghost ways = { record { made = λ _ _ _ _. ⊤; failed = λ _ _ _ _ _. ⊤; kept = λ _ _ _. ⊤; unmade = λ _ _. ⊤ } };

    ghost later = { λ _ _. ⊤ };

    ghost order = { record { same = λ _. tt; on = λ _ _ _ _ _. tt } };

    ghost onward = { record { made = λ _ _ _ _ _. tt; failed = λ _ _ _ _ _ _. tt; kept = λ _ _ _ _. tt; unmade = λ _ _ _. tt } };

    fn call(&mut self, op: &Op) -> Result<CallEnd, AllocError> {
        let mut table = self.table.lock(&self.rt);
        if table.count(op.act().key()) >= WORN {
            return Ok(CallEnd::Worn);
        }
        Ok(CallEnd::Reply(table.apply(op)?))
    }

    fn fail(&mut self, _at: ProcessId, _keep: u32) -> Result<FailEnd, AllocError> {
        Ok(FailEnd::Off)
    }
}
