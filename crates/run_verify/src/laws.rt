ghost use Rattle.run_verify.specs.Exact.{CheckedTranscriptsPass, VerdictsAreExact};

/// A checked transcript of at most `LONGEST_SHEET` bytes, with its script, has no line that fails: each passes, and nothing
/// is lacking behind the last.
#[tactic(auto, using(crate::proofs::Exact::checked_transcripts_pass))]
pub fn checked_transcripts_pass()
    ensures { CheckedTranscriptsPass }
{}

/// So `verify` answers `Verified` exactly where the transcript is checked, and `Refused` exactly where it isn't.
#[tactic(auto, using(crate::proofs::Exact::verdicts_are_exact))]
pub fn verdicts_are_exact()
    ensures { VerdictsAreExact }
{}
