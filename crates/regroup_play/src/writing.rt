ghost use Rattle.std.specs.Prelude.{◌≡◌, ◌≤◌, ◌++◌, drop, IfOk, OnOk};
ghost use Rattle.group_regroup.specs.Last.{entries_of_era};
ghost use Rattle.scenario_run.specs.Marks.{marked_entries};
ghost use Rattle.regroup_run.specs.Texts.{era_mark};

use group_regroup::Regroup;
use scenario_play::entries::write_last;
use std::alloc::{AllocError, Global};

/// Writes the entries of an era's log from a place on, as they are told, each on a line.
pub(crate) fn write_since(
    alloc: Global,
    regroup: &Regroup,
    era: usize,
    from: usize,
    text: &mut Vec<u8>,
) -> Result<(), AllocError>
    requires { era ≤ regroup.now.era }
    ensures { OnOk result (text.new.items ≡ text.old.items
        ++ marked_entries (era_mark era) (drop from (entries_of_era era regroup.now.log))) }
{
    let mark = write_mark(alloc, era)?;
    let entries = regroup.told(era, from)?;
    write_last(alloc, &mark, &entries, entries.len() as u64, text)
}

/// What stands in front of an entry of an era's log.
fn write_mark(alloc: Global, era: usize) -> Result<Vec<u8>, AllocError>
    ensures { IfOk result (λ text. text.items ≡ era_mark era) }
{
    if era == 0 {
        Vec::from_slice(alloc, b"= ")
    } else {
        Ok(format!(in alloc; "= e{era} ")?.into_bytes())
    }
}
