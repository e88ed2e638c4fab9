ghost use Rattle.std.specs.Prelude.{◌≡◌};
ghost use Rattle.scenario_play.specs.Status.{config_line};

use edge_io::ReadFault;
use group_types::{ConfigKey, Field};
use std::alloc::AllocError;

/// What is counted where groups stand on nodes.
#[derive(Clone, Copy, Debug, PartialEq, Eq)]
pub enum Count {
    Groups,
    Nodes,
}

/// How a command ended.
#[derive(Clone, Copy, Debug, PartialEq, Eq)]
pub enum Status {
    /// All the work was done.
    Done,
    /// The words name no command.
    BadWords,
    /// The number of the first line, from 1, that is no line of a script.
    BadLine(u64),
    /// The first field of the group's shape, in the order k, m, block, blocks, that is out of range.
    BadShape(Field),
    /// There are too few or too many groups, or else nodes for them.
    BadCount(Count),
    /// The input has more bytes than its limit.
    TooLong,
    /// The first key of the settings that is wrong.
    BadConfig(ConfigKey),
    /// The source counted a fault.
    ReadFault,
    /// The sink counted a fault.
    WriteFault,
    /// The listener counted a fault.
    AcceptFault,
    /// There was no memory.
    Want,
    /// The connection's input ended inside a request.
    Cut,
    /// A line of the connection was longer than a line may be.
    LineTooLong,
    /// As many bytes were read as a connection may have.
    Worn,
    /// The place in the input at which the first frame begins that is no spelling of a message.
    BadFrame(u64),
    /// The first line of a transcript that fails.
    Refused(u64),
}

impl Status {
    ghost use Rattle.scenario_play.specs.Status.{number_of_status, text_of_status};

    /// The number with which the program ends.
    pub fn number(self) -> u8
        ensures { result ≡ number_of_status self }
    {
        self.row().0
    }

    /// The last line that is written, with its end: of `BadLine`, `BadFrame` and `Refused` what stands
    /// before the number, and nothing where no line is written.
    pub(crate) fn text(self) -> &'static str
        ensures { result.now ≡ text_of_status self }
    {
        self.row().1
    }

    fn row(self) -> (u8, &'static str)
        ensures number { result.0 ≡ number_of_status self }
        ensures text { result.1.now ≡ text_of_status self }
    {
        match self {
            Status::Done => (0, ""),
            Status::BadWords => (1, "fault: words\n"),
            Status::BadLine(_) => (2, "fault: line "),
            Status::BadShape(Field::K) => (3, "fault: shape k\n"),
            Status::BadShape(Field::M) => (3, "fault: shape m\n"),
            Status::BadShape(Field::Block) => (3, "fault: shape block\n"),
            Status::BadShape(Field::Blocks) => (3, "fault: shape blocks\n"),
            Status::BadCount(Count::Groups) => (3, "fault: shape groups\n"),
            Status::BadCount(Count::Nodes) => (3, "fault: shape nodes\n"),
            Status::TooLong => (4, "fault: length\n"),
            Status::BadConfig(key) => (5, config_line(key)),
            Status::ReadFault => (6, "fault: read\n"),
            Status::WriteFault => (7, ""),
            Status::AcceptFault => (8, "fault: accept\n"),
            Status::Want => (9, "fault: memory\n"),
            Status::Cut => (10, ""),
            Status::LineTooLong => (11, ""),
            Status::Worn => (12, ""),
            Status::BadFrame(_) => (13, "fault: frame "),
            Status::Refused(_) => (14, "refused "),
        }
    }
}

/// The last line of settings that are refused at this key.
pub fn config_line(key: ConfigKey) -> &'static str
    ensures { result.now ≡ config_line key }
{
    match key {
        ConfigKey::Syntax => "fault: config syntax\n",
        ConfigKey::K => "fault: config k\n",
        ConfigKey::M => "fault: config m\n",
        ConfigKey::Blocks => "fault: config blocks\n",
        ConfigKey::Block => "fault: config block\n",
        ConfigKey::Address => "fault: config address\n",
        ConfigKey::Workers => "fault: config workers\n",
        ConfigKey::Connections => "fault: config connections\n",
        ConfigKey::Control => "fault: config control\n",
        ConfigKey::Unknown => "fault: config unknown\n",
    }
}

impl From<ReadFault> for Status {
    ghost use Rattle.std.specs.Prelude.{◌≡◌};
    ghost use Rattle.scenario_play.specs.Status.{status_of_read};

    ghost from_gives = { λ fault status. status ≡ status_of_read fault };

    fn from(fault: ReadFault) -> Status {
        match fault {
            ReadFault::TooLong => Status::TooLong,
            ReadFault::Failed => Status::ReadFault,
            ReadFault::Want => Status::Want,
        }
    }
}

impl From<AllocError> for Status {
    ghost use Rattle.std.specs.Prelude.{◌≡◌};
    ghost use Rattle.scenario_play.specs.declared.status.Status.TheVariants.{Want};

    ghost from_gives = { λ _ status. status ≡ Want };

    fn from(_: AllocError) -> Status {
        Status::Want
    }
}
