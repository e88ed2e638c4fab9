use crate::next::treat;
use crate::playing::EraPlay;
use scenario_play::group_subject::status_of;
use scenario_play::{Status, Subject};
use scenario_text::LineFault;
use std::alloc::Global;

impl Subject for EraPlay {
    ghost use Rattle.group_eras.specs.Promise.{EraMove};
    ghost use Rattle.regroup_play.specs.Doing.{era_script, era_told};

    type Fault = LineFault;

    ghost Turn = { EraMove };

    ghost script = { era_script };

    fn treat(
        subject: &mut Option<EraPlay>,
        alloc: Global,
        _number: u64,
        line: &[u8],
    ) -> Result<Option<Vec<u8>>, LineFault> {
        treat(alloc, subject, line)
    }

    fn told(fault: LineFault, number: u64) -> Status {
        status_of(fault, number)
    }

    ghost tells = { era_told };
}
