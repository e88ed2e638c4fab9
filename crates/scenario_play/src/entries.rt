ghost use Rattle.std.specs.Prelude.{◌≡◌, ◌-◌, ◌≤◌, ◌++◌, codes, drop, length, OnOk};
ghost use Rattle.std.specs.Fmt.{decimal};
ghost use Rattle.scenario_run.specs.Marks.{marked, marked_entries};

use group_calls::Entry;
use scenario_text::write_entry::write_entry;
use std::alloc::{AllocError, Global};

/// Writes the last entries of a log, so many, each on a line under this mark.
pub fn write_last(
    alloc: Global,
    mark: &[u8],
    log: &[Entry],
    count: u64,
    text: &mut Vec<u8>,
) -> Result<(), AllocError>
    requires { count ≤ length log.now }
    ensures { OnOk result (text.new.items ≡ text.old.items
        ++ marked_entries mark.now (drop (length log.now - count) log.now)) }
{
    write_entries(alloc, mark, &log[log.len() - count as usize..], text)
}

fn write_entries(
    alloc: Global,
    mark: &[u8],
    entries: &[Entry],
    text: &mut Vec<u8>,
) -> Result<(), AllocError>
    ensures { OnOk result (text.new.items ≡ text.old.items ++ marked_entries mark.now entries.now) }
{
    'entries: for entry in entries {
        write_marked(alloc, mark, entry, text)?;
        text.push(b'\n')?;
    }
    Ok(())
}

fn write_marked(
    alloc: Global,
    mark: &[u8],
    entry: &Entry,
    text: &mut Vec<u8>,
) -> Result<(), AllocError>
    ensures { OnOk result (text.new.items ≡ text.old.items ++ marked mark.now entry.now) }
{
    let line = write_entry(alloc, entry)?;
    text.extend_from_slice(mark)?;
    text.extend_from_slice(&line[2..])
}

/// Writes how many messages were delivered, on a line.
pub fn write_count(alloc: Global, count: u64, text: &mut Vec<u8>) -> Result<(), AllocError>
    ensures { OnOk result (text.new.items ≡ text.old.items ++ (codes "drained " ++ (decimal count ++ codes "\n"))) }
{
    text.extend_from_slice(format!(in alloc; "drained {count}\n")?.as_bytes())
}
