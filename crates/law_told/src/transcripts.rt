ghost use Rattle.law_told.specs.ClusterTexts.{ClusterLinesTell, ClusterTranscriptsTell};
ghost use Rattle.law_told.specs.EraTexts.{EraLinesTell, EraTranscriptsTell};
ghost use Rattle.law_told.specs.Regroups.{RegroupsTell};

/// A line of a script over eras writes the answer of its event, or how many deliveries it made or items it carried, and what
/// was logged.
#[tactic(auto, using(crate::proofs::EraTexts::era_lines_tell))]
pub fn era_lines_tell()
    ensures { EraLinesTell }
{}

/// Of a line `regroup` that names a shape, each reason not to carry is told exactly where it is true, and where there is none
/// all is carried.
pub fn regroups_tell()
    ensures { RegroupsTell }
{}

/// The lines of its transcript that begin with `=` are the log over all eras in order.
#[tactic(auto, using(crate::proofs::EraTexts::era_transcripts_tell))]
pub fn era_transcripts_tell()
    ensures { EraTranscriptsTell }
{}

/// A line of a script of several groups writes the answer of its event, or how many deliveries it made, and what was logged.
#[tactic(auto, using(crate::proofs::ClusterTexts::cluster_lines_tell))]
pub fn cluster_lines_tell()
    ensures { ClusterLinesTell }
{}

/// The lines of its transcript that begin with `=` are the log of all groups in order.
#[tactic(auto, using(crate::proofs::ClusterTexts::cluster_transcripts_tell))]
pub fn cluster_transcripts_tell()
    ensures { ClusterTranscriptsTell }
{}
