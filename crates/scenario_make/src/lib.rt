//! The script that a number makes: calls, deliveries and drains that look random, with two losses among them. The
//! contract says every byte of it, by the numbers that are drawn for each round. What the script does to a group is
//! left to the crates that play it.
#![tactic(auto)]

pub mod draws;
pub mod line;
pub mod round;

ghost use Rattle.std.specs.Prelude.{◌≡◌, ◌++◌, IfOk, OnOk};
ghost use Rattle.scenario_make.specs.Script.{rounds_text, script_text};

use crate::draws::Draws;
use crate::line::{losses_before, write_line};
use crate::round::Round;
use std::alloc::{AllocError, Global};

const ROUNDS: u32 = 4000;

/// The script that the number n makes.
#[tactic(auto, unfolding(crate::specs::Script::script_text))]
pub fn make_script(alloc: Global, n: u64) -> Result<Vec<u8>, AllocError>
    ensures { IfOk result (λ text. text.items ≡ script_text n) }
{
    let mut text = Vec::from_slice(alloc, b"group 3 2 64 64\n")?;
    write_rounds(alloc, n, ROUNDS, &mut text)?;
    text.extend_from_slice(b"drain\nstop\n")?;
    Ok(text)
}

#[tactic(auto, unfolding(crate::specs::Script::rounds_text))]
fn write_rounds(alloc: Global, n: u64, rounds: u32, text: &mut Vec<u8>) -> Result<(), AllocError>
    ensures { OnOk result (text.new.items ≡ text.old.items ++ rounds_text n rounds) }
{
    let mut draws = Draws::new(n);
    'rounds: for past in 0..rounds {
        let round = Round::draw(&mut draws);
        text.extend_from_slice(losses_before(past + 1))?;
        text.extend_from_slice(write_line(alloc, past + 1, round)?.as_bytes())?;
    }
    Ok(())
}
