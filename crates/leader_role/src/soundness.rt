ghost use Rattle.group_types.specs.Dimensions.{Dimensions};
ghost use Rattle.leader_role.specs.Laws.{SoundCanStart, StaysSound};

/// A parity process of the machine is sound from the start, and after every step.
#[tactic(auto, using(crate::proofs::Laws::stays_sound))]
pub fn parity_processes_stay_sound()
    ensures { (s : Dimensions) → StaysSound s }
{}

/// A sound process that heads a partition can start a session, and is one of its rows.
pub fn sound_processes_can_start()
    ensures { SoundCanStart }
{}
