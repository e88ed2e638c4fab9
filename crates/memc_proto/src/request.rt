use crate::key_list::KeyList;
use group_types::ProcessId;
use memc_table::Act;
use std::marker::Model;

/// A request of a connection.
#[derive(Debug, Drop)]
pub enum Request {
    /// `get`, or `gets` with the cas numbers: one call per key.
    Get { keys: KeyList, with_cas: bool },
    /// A call that may change an item; with `noreply` its answer is not written.
    Change { act: Act, noreply: bool },
    /// The version.
    Version,
    /// The end of the connection.
    Quit,
    /// A process is to fail, and each of its links to keep this many messages.
    Fail { at: ProcessId, keep: u32 },
    /// What was asked is no request here.
    Refused(Refusal),
}

impl Request {
    ghost use Rattle.std.specs.Prelude.{◌≡◌};
    ghost use Rattle.memc_proto.specs.Reads.{is_quit};

    /// Whether the connection ends here.
    pub fn is_quit(&self) -> bool
        ensures { result ≡ is_quit self.now }
    {
        matches!(self, Request::Quit)
    }
}

/// Why a line, or a line with its data block, is no request here.
#[derive(Clone, Copy, Debug, PartialEq, Eq)]
pub enum Refusal {
    /// No words, another first word, or a number of words that the command doesn't have.
    Unknown,
    /// The first word that is not what stands at its place.
    BadLine { which: Word },
    /// The data block has more bytes than a value may have.
    TooLarge { len: u32 },
    /// The data block doesn't end with its line end.
    BadChunk,
}

/// The place of a word in a line.
#[derive(Clone, Copy, Debug, PartialEq, Eq)]
pub enum Word {
    Key,
    Flags,
    Exptime,
    Bytes,
    CasUnique,
    Number,
    Last,
    Process,
    Keep,
}

/// Requests, in the order in which they came.
#[derive(Debug, Drop)]
pub struct Requests {
    requests: Vec<Request>,
}

impl Model for Requests {
    ghost use Rattle.std.specs.Prelude.{List};
    ghost use Rattle.memc_proto.specs.declared.request.Request.{Request};

    ghost Value = { List Request };

    ghost view = { λ list. list.requests.items };
}

impl Requests {
    ghost use Rattle.std.specs.Prelude.{◌≡◌};

    /// The requests, in order.
    pub fn requests(&self) -> &[Request]
        ensures { result.now ≡ self.now }
    {
        &self.requests
    }
}

impl From<Vec<Request>> for Requests {
    ghost use Rattle.std.specs.Prelude.{◌≡◌};

    ghost from_gives = { λ requests list. list ≡ requests.items };

    fn from(requests: Vec<Request>) -> Requests {
        Requests { requests }
    }
}

impl From<Requests> for Vec<Request> {
    ghost use Rattle.std.specs.Prelude.{◌≡◌};

    ghost from_gives = { λ list requests. requests.items ≡ list };

    fn from(list: Requests) -> Vec<Request> {
        list.requests
    }
}
