//! Whole dialogues with the program, each told by two files: what is given to it, and what it must write. Standard
//! input has a line for each, with its name, the status that it must end with, the call that fails, if one does, and the
//! words of the command line;
//! each line is printed with what came of it. What must be written was told by another program than this one.
//! Behind them stand rows of text, each with what it must give: texts of settings in `settings.rows`, and streams of
//! frames of links in `links.rows`. Standard output has a line for each, those of the settings first.
//! The last line tells of a run of a group whose events are `losses.rows`: a process is lost before one of them, which is
//! tried with each event, each process, and none, one or all of its messages kept, 360 times in all.
#![tactic(auto)]

mod dialogue;
mod fault;
mod links;
mod losses;
mod playing;
mod settings;

use dialogue::Dialogue;
use playing::told;
use std::alloc::Global;
use std::rt::Files;
use std::{fs, io};

fn main(rt: HostRuntime) -> io::Result<()> {
    for line in rt.lines(rt.alloc()) {
        let line = line?;
        let dialogue = Dialogue::named(&rt, rt.alloc(), &line)?;
        let text = told(&rt, rt.alloc(), &dialogue)?;
        println!(rt; "{line}: {text}")?;
    }
    let rows = told_rows(&rt, rt.alloc())?;
    print!(rt; "{rows}")?;
    let events = fs::read_to_string(&rt, "losses.rows")?;
    let text = losses::told(&rt, rt.alloc(), &events)?;
    print!(rt; "{text}")?;
    Ok(())
}

/// A line for each row.
fn told_rows<R: Files + AllocGlobal>(rt: &R, alloc: Global) -> io::Result<String> {
    let texts = fs::read_to_string(rt, "settings.rows")?;
    let streams = fs::read_to_string(rt, "links.rows")?;
    let mut told = settings::told_each(alloc, &texts)?;
    told.push_str(&links::told_each(alloc, &streams)?)?;
    Ok(told)
}
