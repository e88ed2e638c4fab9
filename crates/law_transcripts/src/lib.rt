//! Every transcript that `play` writes is one that `verify` says yes to: where a script that ends with its places was
//! played to its end, all that `verify` checks of its transcript holds. What a yes means is left to `run_verify`, what
//! the lines mean to `scenario_run`.
#![tactic(auto)]

ghost use Rattle.law_transcripts.specs.Transcripts.{TranscriptsAreChecked, TranscriptsAreVerified};

/// Where `play` ends with `Done` and `verify` takes the script, the transcript is checked.
pub fn transcripts_are_checked()
    ensures { TranscriptsAreChecked }
{}

/// So the verdict on the script, the line `====` and the transcript, in one text of at most 64 MiB, is a yes.
pub fn transcripts_are_verified()
    ensures { TranscriptsAreVerified }
{}
