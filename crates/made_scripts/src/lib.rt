//! The scripts that numbers make are scripts: no line of them is refused, and each names its group first. So what is
//! told of one is never that a line or a shape is bad. How a script is made, and what its lines do, is left to the
//! crates below.
#![tactic(auto)]

ghost use Rattle.made_scripts.specs.Clean.{MadeAreClean};

/// No line of a made script is refused, whatever the number; its group is of the shape that its first line says, and it
/// is shorter than the longest script that is read.
pub fn made_are_clean()
    ensures { MadeAreClean }
{}
