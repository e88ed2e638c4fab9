ghost use Rattle.scenario_play.specs.Language.{group_scripts};
ghost use Rattle.scenario_play.specs.Whole.{PlaysAllAlways};

/// Where its source told what was to come, a script that is played is all of that, and nothing is left of it once it was
/// read to its end; where it is too long, what is left is all behind the first 16,777,217 bytes.
pub fn scripts_are_whole()
    ensures { PlaysAllAlways group_scripts }
{}
