ghost use Rattle.transcript_text.specs.Reading.{ReadsAs};
ghost use Rattle.transcript_text.specs.Texts.{FitsPlace, text_of_place};

use crate::number::{number_below, number_below_up_to, number_up_to};
use crate::word::after;
use group_types::Run;

/// The run of an update of a partition, by its number.
#[derive(Clone, Copy, Debug, PartialEq, Eq)]
pub struct Place {
    pub partition: u32,
    pub number: u64,
    pub run: Run,
}

/// The place that a line tells.
pub fn read_place(line: &[u8]) -> Option<Place>
    ensures { ReadsAs FitsPlace text_of_place line.now result }
{
    let numbers = after(b"place ", line)?;
    let (partition, numbers) = number_below_up_to(b' ', numbers, 1 << 32)?;
    let (number, numbers) = number_up_to(b' ', numbers)?;
    let (at, word) = number_below_up_to(b' ', numbers, 1 << 32)?;
    let len = number_below(word, 1 << 32)?;
    let partition = partition as u32;
    let run = Run {
        at: at as u32,
        len: len as u32,
    };
    Some(Place {
        partition,
        number,
        run,
    })
}
