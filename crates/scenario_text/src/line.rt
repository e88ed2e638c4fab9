use group_types::{BadShape, Field, Partition, ProcessId, Run, Shape};
use memc_table::Act;
use std::alloc::AllocError;
use std::error::Error;
use std::fmt;

/// What a line of a script means.
#[derive(Debug, Drop, PartialEq, Eq)]
pub enum Line {
    /// An empty line, or one that begins with `#`.
    Skipped,
    /// The group that the script is about.
    Group {
        shape: Shape,
    },
    /// A call of a caller, 0 to 255, at a process.
    Ask {
        caller: u32,
        at: ProcessId,
        act: Act,
    },
    /// The end of a call that was asked.
    Collect {
        caller: u32,
        call: u64,
        at: ProcessId,
    },
    /// The oldest message of the link between two different processes.
    Deliver {
        from: ProcessId,
        to: ProcessId,
    },
    /// The death of a process: each of its links keeps so many messages.
    Fail {
        at: ProcessId,
        keep: u32,
    },
    /// The settled number of a process, told to those behind it.
    Flush {
        at: ProcessId,
    },
    /// The fate of a call in a partition.
    Trace {
        caller: u32,
        call: u64,
        partition: Partition,
        at: ProcessId,
    },
    /// Deliveries until there is no message left.
    Drain,
    /// A look at the bytes of a run in the space of a process.
    Show {
        at: ProcessId,
        run: Run,
    },
    /// The runs of the updates that were logged.
    Places,
    /// The moment of the asks that follow.
    Time {
        moment: u64,
    },
    /// The end: nothing more is looked at.
    Stop,
}

/// Why a line was not read: it is no script line, it is a group line with this field out of range, or
/// there was no memory.
#[derive(Clone, Copy, Debug, PartialEq, Eq)]
pub enum LineFault {
    BadLine,
    BadShape(Field),
    Want,
}

impl fmt::Display for LineFault {
    fn fmt<W: fmt::Write>(&self, f: &mut fmt::Formatter<W>) -> fmt::Result {
        match self {
            LineFault::BadLine => f.write_str("no line of a script"),
            LineFault::BadShape(field) => BadShape { field: *field }.fmt(f),
            LineFault::Want => f.write_str("no memory for the line"),
        }
    }
}

impl Error for LineFault {}

impl From<AllocError> for LineFault {
    ghost use Rattle.std.specs.Prelude.{◌≡◌};
    ghost use Rattle.scenario_text.specs.declared.line.LineFault.TheVariants.{Want};

    ghost from_gives = { λ _ fault. fault ≡ Want };

    fn from(_: AllocError) -> LineFault {
        LineFault::Want
    }
}
