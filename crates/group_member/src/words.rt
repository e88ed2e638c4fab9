ghost use Rattle.std.specs.Prelude.{◌≡◌, ◌↔◌, ◌+◌, ◌≢◌, ◌||◌, false, IsTrue, IfOk, ℕ, ◌<◌};
ghost use Rattle.group_types.specs.Lists.{at};
ghost use Rattle.group_types.specs.declared.process.ProcessId as named;
ghost use Rattle.group_types.specs.Names as names;
ghost use Rattle.group_types.specs.Names.{IsProcess};
ghost use Rattle.membership.specs.Members.{all_living, knows_dead, with_dead};
ghost use Rattle.group_member.specs.Opening.{opening_words};
ghost use Rattle.group_member.specs.Standing.{heard_of};
ghost use Rattle.group_member.specs.Words.{AreWords, CanCut, CanPermit, CanReadFrom, CanTakeDeath, HasSaidAll};

use crate::names::is_of;
use group_node::{index_of, process_at};
use group_types::{ProcessId, Shape};
use membership::Members;
use std::alloc::{AllocError, Global};
use std::marker::Model;

/// What a member and the others said of whom they cut: a value, with nothing of its process.
#[derive(Drop)]
pub struct OwnWords {
    shape: Shape,
    name: ProcessId,
    cut: Members,
    heard: Vec<Members>,
    permitted: Members,
    taken: Members,
}

impl Model for OwnWords {
    ghost use Rattle.group_member.specs.Standing as standing;
    ghost use Rattle.group_member.specs.Words.{AreWords};

    ghost Value = { standing.OwnWords };

    ghost view = { λ w. record {
      shape = w.shape;
      name = w.name;
      cut = w.cut;
      heard = w.heard.items;
      permitted = w.permitted;
      taken = w.taken;
    } };

    ghost invariant = { λ w. AreWords (record {
      shape = w.shape;
      name = w.name;
      cut = w.cut;
      heard = w.heard.items;
      permitted = w.permitted;
      taken = w.taken;
    }) };
}

impl OwnWords {
    /// Those of a member at the start: nobody is cut.
    pub fn new(alloc: Global, shape: Shape, name: ProcessId) -> Result<OwnWords, AllocError>
        requires { IsProcess shape name }
        ensures opening { IfOk result (λ w. w ≡ opening_words shape name) }
        ensures words { IfOk result (λ w. AreWords w) }
    {
        let none = Members::new(shape);
        Ok(OwnWords {
            shape,
            name,
            cut: none,
            heard: vec![in alloc; none; (shape.k() + shape.m()) as usize]?,
            permitted: none,
            taken: none,
        })
    }

    /// The shape of the group.
    pub fn shape(&self) -> Shape
        ensures { result ≡ self.now.shape }
    {
        self.shape
    }

    /// Which process it is.
    pub fn name(&self) -> ProcessId
        ensures name { result ≡ self.now.name }
        ensures process { IsProcess self.now.shape result }
    {
        self.name
    }

    /// Whom the member has cut.
    pub fn all_cut(&self) -> Members
        ensures { result ≡ self.now.cut }
    {
        self.cut
    }

    /// Whether the member has cut a process.
    pub fn has_cut(&self, x: ProcessId) -> bool
        ensures { result ≡ knows_dead self.now.cut x }
    {
        self.cut.is_dead(x)
    }

    /// Whether the member has taken the death of a process.
    pub fn has_taken(&self, x: ProcessId) -> bool
        ensures { result ≡ knows_dead self.now.taken x }
    {
        self.taken.is_dead(x)
    }

    /// Whether what a process sends is read: it is another of the group, and isn't cut.
    pub fn may_read(&self, from: ProcessId) -> bool
        ensures { IsTrue result ↔ CanReadFrom self.now from }
    {
        from != self.name && is_of(self.shape, from) && !self.cut.is_dead(from)
    }

    /// Whether another can be cut.
    pub fn may_cut(&self, x: ProcessId) -> bool
        ensures { IsTrue result ↔ CanCut self.now x }
    {
        if x == self.name || !is_of(self.shape, x) {
            return false;
        }
        let mut more = self.cut;
        more.fail(x).is_ok() && more.lost() <= self.shape.m()
    }

    /// Another is cut, for ever.
    pub fn cut(&mut self, x: ProcessId)
        requires { CanCut self.old x }
        ensures cut { self.new ≡ record self.old { cut = with_dead self.old.cut x } }
        ensures words { AreWords self.new }
    {
        let _ = self.cut.fail(x);
    }

    /// Another has said whom it has cut.
    pub fn hear(&mut self, from: ProcessId, set: &Members)
        requires { IsProcess self.old.shape from }
        ensures words { AreWords self.new }
        ensures rest { self.new ≡ record self.old { heard = self.new.heard } }
        ensures others { (q : ℕ) → q ≢ names.index_of self.old.shape from
            → at (all_living self.old.shape) self.new.heard q ≡ at (all_living self.old.shape) self.old.heard q }
        ensures heard { (x : named.ProcessId) → knows_dead (heard_of self.new from) x
            ≡ (knows_dead (heard_of self.old from) x || knows_dead set.now x) }
    {
        let at = index_of(self.shape, from) as usize;
        self.heard[at].add_all(set);
    }

    /// Whether each that isn't cut has said that it has cut all that the member has.
    pub fn may_permit(&self) -> bool
        ensures { IsTrue result ↔ CanPermit self.now }
    {
        'others: for x in 0..self.shape.k() + self.shape.m() {
            if !self.may_permit_by(x) {
                return false;
            }
        }
        true
    }

    /// The member permits itself the deaths of all that it has cut.
    pub fn permit(&mut self)
        requires { CanPermit self.old }
        ensures permitted { self.new ≡ record self.old { permitted = self.old.cut } }
        ensures words { AreWords self.new }
    {
        self.permitted = self.cut;
    }

    /// Whether a death is permitted, and isn't taken.
    pub fn may_take(&self, x: ProcessId) -> bool
        ensures { IsTrue result ↔ CanTakeDeath self.now x }
    {
        self.permitted.is_dead(x) && !self.taken.is_dead(x)
    }

    /// A death is taken.
    pub fn take(&mut self, x: ProcessId)
        requires { CanTakeDeath self.old x }
        ensures taken { self.new ≡ record self.old { taken = with_dead self.old.taken x } }
        ensures words { AreWords self.new }
    {
        let _ = self.taken.fail(x);
    }

    // Whether nothing that the process at an index has left unsaid stands against a permit.
    fn may_permit_by(&self, x: u32) -> bool
        requires { x < self.now.shape.k + self.now.shape.m }
        ensures { IsTrue result ↔ HasSaidAll self.now (names.process_at self.now.shape x) }
    {
        let r = process_at(self.shape, x);
        if r == self.name || self.cut.is_dead(r) {
            return true;
        }
        self.cut.is_within(&self.heard[x as usize])
    }
}
