//! The code of a coding group as definitions: each parity process keeps a sum of the partitions'
//! bytes, with coefficients that are a Cauchy matrix over the field of `field_byte`. The functions'
//! contracts are the law that as many rows as columns are lost give the lost columns; whole slices
//! at the speed of the processor are left to `cauchy_code`.
#![tactic(auto)]

ghost use Rattle.erasure_code.specs.Laws.{LostAreDecoded, OnlyOneAgrees};
ghost use Rattle.erasure_code.specs.Spaces.{SpacesAreSums};

/// The columns that agree with rows and known columns have in their lost places what these decode to.
#[tactic(auto, using(crate::proofs::Decoding::lost_are_decoded))]
pub fn lost_are_decoded()
    ensures { LostAreDecoded }
{}

/// No two families of columns agree with the same rows and known columns.
pub fn only_one_agrees()
    ensures { OnlyOneAgrees }
{}

/// A space is at each address the sum of all differences that were ever added to it.
#[tactic(auto, using(crate::proofs::Sums::spaces_are_sums))]
pub fn spaces_are_sums()
    ensures { SpacesAreSums }
{}
