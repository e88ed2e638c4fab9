ghost use Rattle.law_told.specs.Verified.{NumbersAreCounts, SheetsAreCut};

/// A script, the line `====` and a transcript in one text are read as this script and this transcript.
#[tactic(auto, using(crate::proofs::Verified::sheets_are_cut))]
pub fn sheets_are_cut()
    ensures { SheetsAreCut }
{}

/// The numbers of a text that is verified are how many lines of its transcript begin with `=`, and how many with `shown `.
#[tactic(auto, using(crate::proofs::Verified::numbers_are_counts))]
pub fn numbers_are_counts()
    ensures { NumbersAreCounts }
{}
