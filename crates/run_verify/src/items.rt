ghost use Rattle.std.specs.Prelude.{ℕ, List, ◌≡◌, ◌↔◌, ◌≤◌, ◌+◌, None, Some, length, IfOk, OnOk, IsTrue, IfSome};
ghost use Rattle.group_types.specs.Dimensions.{space_of};
ghost use Rattle.run_verify.specs.Items.{IsMarked, IsOff, cleared, filled, item_runs_of, with_run};

use group_types::{Key, Run, Shape};
use memchr::memchr;
use std::alloc::{AllocError, Global};
use std::collections::BTreeMap;

/// The runs of a partition's items, and for each address of its space 1 where an item has it, else 0.
#[derive(Drop)]
pub(crate) struct Items {
    pub(crate) alloc: Global,
    pub(crate) shape: Shape,
    runs: BTreeMap<Key, Run>,
    marks: Vec<u8>,
}

impl Items {
    /// No items.
    pub(crate) fn new(alloc: Global, shape: Shape) -> Result<Items, AllocError>
        ensures shape { IfOk result (λ items. items.shape ≡ shape) }
        ensures marked { IfOk result IsMarked }
        ensures none { IfOk result (λ items. (key : List ℕ) → item_runs_of items key ≡ None) }
    {
        Ok(Items {
            alloc,
            shape,
            runs: BTreeMap::new(alloc),
            marks: vec![in alloc; 0; shape.space() as usize]?,
        })
    }

    /// Whether no item has an address of this run.
    pub(crate) fn is_off(&self, run: Run) -> bool
        requires marked { IsMarked self.now }
        requires inside { run.at + run.len ≤ space_of self.now.shape }
        ensures { IsTrue result ↔ IsOff (item_runs_of self.now) run }
    {
        let from = run.at as usize;
        memchr(1, &self.marks[from..from + run.len as usize]).is_none()
    }

    /// The item on a key now has this run.
    pub(crate) fn put(&mut self, key: &Key, run: Run) -> Result<(), AllocError>
        requires marked { IsMarked self.old }
        requires inside { run.at + run.len ≤ space_of self.old.shape }
        requires off { IsOff (item_runs_of self.old) run }
        ensures marked { OnOk result (IsMarked self.new) }
        ensures runs { OnOk result ((other : List ℕ)
            → item_runs_of self.new other ≡ with_run key.now (Some run) (item_runs_of self.old) other) }
        ensures shape { self.new.shape ≡ self.old.shape }
    {
        let old = self.runs.insert(key.clone()?, run)?;
        clear(&mut self.marks, old);
        fill(&mut self.marks, run, 1);
        Ok(())
    }

    /// There is no item on a key any more.
    pub(crate) fn remove(&mut self, key: &Key)
        requires marked { IsMarked self.old }
        ensures marked { IsMarked self.new }
        ensures runs { (other : List ℕ) → item_runs_of self.new other ≡ with_run key.now None (item_runs_of self.old) other }
        ensures shape { self.new.shape ≡ self.old.shape }
    {
        let old = self.runs.remove(key);
        clear(&mut self.marks, old);
    }
}

/// Clears the marks at the addresses of a run, if there is one.
fn clear(marks: &mut Vec<u8>, run: Option<Run>)
    requires inside { IfSome run (λ run. run.at + run.len ≤ length marks.old.items) }
    ensures marks { marks.new.items ≡ cleared run marks.old.items }
    ensures long { length marks.new.items ≡ length marks.old.items }
{
    if let Some(run) = run {
        fill(marks, run, 0);
    }
}

/// Sets the marks at the addresses of a run.
fn fill(marks: &mut Vec<u8>, run: Run, mark: u8)
    requires inside { run.at + run.len ≤ length marks.old.items }
    ensures marks { marks.new.items ≡ filled mark run marks.old.items }
    ensures long { length marks.new.items ≡ length marks.old.items }
{
    let from = run.at as usize;
    marks[from..from + run.len as usize].fill(mark);
}
