ghost use Rattle.scenario_play.specs.Whole.{PlaysAllAlways};
ghost use Rattle.regroup_play.specs.Language.{era_scripts};

/// Where its source told what was to come, a script that is played is all of that, as with scripts of one group.
#[tactic(auto, using(crate::proofs::Lines::plays_all))]
pub fn scripts_are_whole()
    ensures { PlaysAllAlways era_scripts }
{}
