use crate::request::Refusal;
use crate::store::Store;

/// What a reader is in the midst of.
#[derive(Drop)]
pub enum Mode {
    /// A line, of which the bytes so far are kept.
    InLine,
    /// A data block, of which the bytes so far are kept.
    InBlock(Store),
    /// The bytes that a refused line skips, of which so many are left.
    Skipping { refusal: Refusal, left: u64 },
    /// A line that is too long: nothing more is read.
    TooLong,
    /// A `quit` was read: nothing more is.
    Ended,
}

impl Mode {
    ghost use Rattle.std.specs.Prelude.{◌≡◌};
    ghost use Rattle.memc_proto.specs.Reader.{is_ended};

    /// Whether a `quit` was read.
    pub(crate) fn is_ended(&self) -> bool
        ensures { result ≡ is_ended self.now }
    {
        matches!(self, Mode::Ended)
    }
}
