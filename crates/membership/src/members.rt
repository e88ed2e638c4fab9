ghost use Rattle.std.specs.Prelude.{ℕ, ◌≡◌, ◌≢◌, ◌↔◌, ◌<◌, ◌≤◌, ◌+◌, ◌||◌, Bool, true, false, List, length, replicate, IsTrue, IfSome, IfNone, OnOk, OnErr, is_err};
ghost use Rattle.group_types.specs.declared.process.ProcessId as named;
ghost use Rattle.group_types.specs.Names.{IsProcess, IsHead, of_rank};
ghost use Rattle.group_types.specs.Lists.{at};
ghost use Rattle.membership.specs.Members.{count_dead_words};

use group_types::{Partition, ProcessId, Shape};
use std::error::Error;
use std::fmt;
use std::marker::Model;

/// The process was known dead before.
#[derive(Clone, Copy, Debug, PartialEq, Eq)]
pub struct AlreadyDead;

impl fmt::Display for AlreadyDead {
    fn fmt<W: fmt::Write>(&self, f: &mut fmt::Formatter<W>) -> fmt::Result {
        f.write_str("the process is known dead already")
    }
}

impl Error for AlreadyDead {}

/// The processes of a group that are known dead: a small value that is copied.
#[derive(Clone, Copy, Debug)]
pub struct Members {
    shape: Shape,
    data_dead: [bool; 16],
    parity_dead: [bool; 4],
}

impl Model for Members {
    ghost use Rattle.membership.specs.Members.{Membership};

    ghost Value = { Membership };

    ghost view = { λ m. record { shape = m.shape; data_dead = m.data_dead; parity_dead = m.parity_dead } };

    ghost inverse = { λ m. record { shape = m.shape; data_dead = m.data_dead; parity_dead = m.parity_dead } };
}

impl Members {
    ghost use Rattle.membership.specs.Members.{all_living, knows_dead, with_dead, count_known_dead, NoHead};

    /// A group in which no process is known dead.
    pub fn new(shape: Shape) -> Members
        ensures { result ≡ all_living shape }
    {
        Members {
            shape,
            data_dead: [false; 16],
            parity_dead: [false; 4],
        }
    }

    /// Whether the process is known dead.
    pub fn is_dead(&self, p: ProcessId) -> bool
        ensures { result ≡ knows_dead self.now p }
    {
        match p {
            ProcessId::DataNode(d) => says_dead(&self.data_dead, d),
            ProcessId::ParityNode(i) => says_dead(&self.parity_dead, i),
        }
    }

    /// Notes that a process is dead, unless that is known.
    #[tactic(auto, using(group_types::proofs::Lists::set_put))]
    pub fn fail(&mut self, p: ProcessId) -> Result<(), AlreadyDead>
        requires { IsProcess self.old.shape p }
        ensures known { is_err result ≡ knows_dead self.old p }
        ensures ok { OnOk result (self.new ≡ with_dead self.old p) }
        ensures err { OnErr result (self.new ≡ self.old) }
    {
        if self.is_dead(p) {
            return Err(AlreadyDead);
        }
        match p {
            ProcessId::DataNode(d) => self.data_dead[d as usize] = true,
            ProcessId::ParityNode(i) => self.parity_dead[i as usize] = true,
        }
        Ok(())
    }

    /// Notes all that are among others.
    pub fn add_all(&mut self, others: &Members)
        ensures shape { self.new.shape ≡ self.old.shape }
        ensures known { (p : named.ProcessId) → knows_dead self.new p ≡ (knows_dead self.old p || knows_dead others.now p) }
    {
        add_words(&mut self.data_dead, &others.data_dead);
        add_words(&mut self.parity_dead, &others.parity_dead);
    }

    /// Whether all that it has are among others.
    pub fn is_within(&self, others: &Members) -> bool
        ensures { IsTrue result ↔ ((p : named.ProcessId) → knows_dead self.now p ≡ true → knows_dead others.now p ≡ true) }
    {
        are_within(&self.data_dead, &others.data_dead)
            && are_within(&self.parity_dead, &others.parity_dead)
    }

    /// How many processes are known dead.
    pub fn lost(&self) -> u32
        ensures { result ≡ count_known_dead self.now }
    {
        count(&self.data_dead) + count(&self.parity_dead)
    }

    /// Whether the group is down: more than m processes are dead.
    pub fn is_down(&self) -> bool
        ensures { IsTrue result ↔ (self.now.shape.m < count_known_dead self.now) }
    {
        self.shape.m() < self.lost()
    }

    /// The process of lowest rank in the partition that isn't known dead, if there is one.
    pub fn head_of(&self, d: Partition) -> Option<ProcessId>
        ensures some { IfSome result (λ p. (r : ℕ) × (p ≡ of_rank d.0 r) × IsHead self.now.shape.m (knows_dead self.now) d.0 r) }
        ensures none { IfNone result (NoHead self.now d.0) }
    {
        let first = ProcessId::DataNode(d.0);
        if !self.is_dead(first) {
            return Some(first);
        }
        'ranks: for i in 0..self.shape.m() {
            let next = ProcessId::ParityNode(i);
            if !self.is_dead(next) {
                return Some(next);
            }
        }
        None
    }
}

// Whether the word at an index says dead; behind the end nobody does.
#[tactic(auto, using(group_types::proofs::Lists::at_index, group_types::proofs::Lists::at_behind))]
fn says_dead(words: &[bool], index: u32) -> bool
    ensures { result ≡ at false words.now index }
{
    (index as usize) < words.len() && words[index as usize]
}

fn count(words: &[bool]) -> u32
    requires { length words.now ≤ 16 }
    ensures value { result ≡ count_dead_words words.now }
    ensures few { result ≤ length words.now }
{
    let mut dead = 0;
    'words: for &word in words {
        if word {
            dead += 1;
        }
    }
    dead
}

// Each word says dead where one of the two at its place does.
fn add_words(words: &mut [bool], others: &[bool])
    requires { length words.old ≡ length others.now }
    ensures { (i : ℕ) → at false words.new i ≡ (at false words.old i || at false others.now i) }
{
    'words: for i in 0..words.len() {
        words[i] |= others[i];
    }
}

// Whether each word that says dead does so among others.
fn are_within(words: &[bool], others: &[bool]) -> bool
    requires { length words.now ≡ length others.now }
    ensures { IsTrue result ↔ ((i : ℕ) → at false words.now i ≡ true → at false others.now i ≡ true) }
{
    'words: for i in 0..words.len() {
        if words[i] && !others[i] {
            return false;
        }
    }
    true
}
