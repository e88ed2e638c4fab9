//! A stamp: one update number per partition, as far as a process has applied each.
//! Its contract sees the list of the numbers. What the numbers count is left to the caller.
#![tactic(auto)]

ghost use Rattle.std.specs.Prelude.{◌≡◌, ◌<◌, ◌≤◌, ◌↔◌, length, replicate, slice_index, slice_set, IsTrue, IfOk};
ghost use Rattle.vector_stamp.specs.Numbers.{Covers, IsLeast};

use std::alloc::{AllocError, Global};
use std::marker::Model;

/// One number per partition.
#[derive(Debug, Drop)]
pub struct Stamp {
    numbers: Vec<u64>,
}

impl Model for Stamp {
    ghost use Rattle.std.specs.Prelude.{ℕ, List};

    ghost Value = { List ℕ };

    ghost view = { λ stamp. stamp.numbers.items };
}

impl Stamp {
    /// The number 0 for each of `k` partitions.
    pub fn zero(alloc: Global, k: u32) -> Result<Self, AllocError>
        ensures { IfOk result (λ stamp. stamp ≡ replicate k 0) }
    {
        Ok(Self {
            numbers: vec![in alloc; 0; k as usize]?,
        })
    }

    /// An equal stamp.
    pub fn copy(&self) -> Result<Self, AllocError>
        ensures { IfOk result (λ stamp. stamp ≡ self.now) }
    {
        Ok(Self {
            numbers: self.numbers.clone()?,
        })
    }

    /// The numbers, in the order of the partitions.
    pub fn numbers(&self) -> &[u64]
        ensures { result.now ≡ self.now }
    {
        &self.numbers
    }

    /// The number of partition `p`.
    pub fn at(&self, p: u32) -> u64
        requires { p < length self.now }
        ensures { result ≡ slice_index self.now p }
    {
        self.numbers[p as usize]
    }

    /// Sets the number of partition `p`, which is not above `number` before.
    pub fn raise(&mut self, p: u32, number: u64)
        requires partition { p < length self.old }
        requires rises { slice_index self.old p ≤ number }
        ensures { self.new ≡ slice_set self.old p number }
    {
        self.numbers[p as usize] = number;
    }

    /// Whether each number is at least that of `other`.
    pub fn covers(&self, other: &Stamp) -> bool
        requires { length self.now ≡ length other.now }
        ensures { IsTrue result ↔ Covers self.now other.now }
    {
        'partitions: for p in 0..self.numbers.len() {
            if self.numbers[p] < other.numbers[p] {
                return false;
            }
        }
        true
    }

    /// The least of the numbers.
    pub fn least(&self) -> u64
        requires { 0 < length self.now }
        ensures { IsLeast self.now result }
    {
        let mut least = self.numbers[0];
        'numbers: for &number in &self.numbers {
            if number < least {
                least = number;
            }
        }
        least
    }
}

impl From<Vec<u64>> for Stamp {
    ghost from_gives = { λ numbers stamp. stamp ≡ numbers.items };

    fn from(numbers: Vec<u64>) -> Stamp {
        Stamp { numbers }
    }
}
