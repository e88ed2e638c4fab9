//! Laws about readings.
ghost use Rattle.std.specs.Prelude.{◌≡◌, ℕ, ◌++◌, List};
ghost use Rattle.memc_proto.specs.Reader.{IsTooLong};
ghost use Rattle.memc_proto.specs.Reads.{HasNoRequest, Reads};
ghost use Rattle.memc_proto.specs.declared.request.Request.{Request};

/// An input is read as one list of requests with one rest, and no other. That there is one shows a
/// reader that is fed the input.
pub fn input_reads_once()
    ensures { (input : List ℕ) (requests others : List Request) (rest left : List ℕ) → Reads input requests rest → Reads input others left → (requests ≡ others) × (rest ≡ left) }
{}

/// Nothing is read from a line on that is too long, whatever follows.
pub fn long_line_ends_reading()
    ensures { (rest more : List ℕ) → IsTooLong rest → HasNoRequest (rest ++ more) }
{}
