ghost use Rattle.std.specs.Prelude.{◌≡◌, ◌<◌, None, length, IfOk};
ghost use Rattle.group_run.specs.Heading.{acked_by, acknowledged};
ghost use Rattle.group_run.specs.Process.{new_head};
ghost use Rattle.group_types.specs.Lists.{at, put};

use group_types::{Rank, Shape};
use std::alloc::{AllocError, Global};
use std::marker::Model;

/// The head of a partition: its rank, the last number that it inherited, and the number that each parity
/// process acknowledged under this rank.
#[derive(Debug, Drop)]
pub struct Head {
    rank: Rank,
    inherited: u64,
    acks: Vec<Option<u64>>,
}

impl Model for Head {
    ghost use Rattle.group_run.specs.Process as machine;

    ghost Value = { machine.Head };

    ghost view = { λ h. record { rank = h.rank.0; inherited = h.inherited; acks = h.acks.items } };
}

impl Head {
    /// A head that nobody has acknowledged anything.
    pub fn new(alloc: Global, shape: Shape, rank: Rank, inherited: u64) -> Result<Head, AllocError>
        ensures { IfOk result (λ head. head ≡ new_head shape rank.0 inherited) }
    {
        Ok(Head {
            rank,
            inherited,
            acks: vec![in alloc; None; shape.m() as usize]?,
        })
    }

    /// Under which rank it heads the partition.
    pub fn rank(&self) -> Rank
        ensures { result.0 ≡ self.now.rank }
    {
        self.rank
    }

    /// The last number that it inherited.
    pub fn inherited(&self) -> u64
        ensures { result ≡ self.now.inherited }
    {
        self.inherited
    }

    /// Notes what a parity process acknowledged.
    pub fn acknowledge(&mut self, parity: u32, number: u64)
        requires { parity < length self.old.acks }
        ensures { self.new ≡ acknowledged parity number self.old }
    {
        self.acks[parity as usize] = Some(number);
    }

    /// Takes back what a parity process acknowledged, where this is what it had acknowledged before.
    pub fn restore(&mut self, parity: u32, acked: Option<u64>)
        requires { parity < length self.old.acks }
        ensures { self.new ≡ record self.old { acks = put None self.old.acks parity acked } }
    {
        self.acks[parity as usize] = acked;
    }

    /// What a parity process acknowledged last, if it did.
    pub fn acked(&self, parity: u32) -> Option<u64>
        requires { parity < length self.now.acks }
        ensures { result ≡ at None self.now.acks parity }
    {
        self.acks[parity as usize]
    }
}
