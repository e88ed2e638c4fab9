ghost use Rattle.std.specs.Prelude.{◌≡◌, ◌+◌, ◌-◌, ◌*◌, ◌<◌, ◌≤◌, None, IfOk, IsOk, IsTrue, OnOk, OnErr, ℕ, replicate};
ghost use Rattle.std.specs.List.Sorted.{IsStrictlyIncreasing};
ghost use Rattle.page_map.specs.Pages.{AreMissing, HasPage, HasPages, IsUnion, MakesZeros, SameDimensions, byte_in, numbers_in, page_in, pages_made};

use crate::Pages;
use group_types::ByteList;
use std::alloc::{AllocError, Global};

impl Pages {
    /// Makes the pages of the `len` addresses from `at` on that aren't there, all zero, where no room was made for others.
    pub fn reserve(&mut self, at: u32, len: u32) -> Result<(), AllocError>
        requires within { at + len ≤ self.old.blocks * self.old.block }
        requires room { self.old.room ≡ 0 }
        ensures pages { OnOk result (MakesZeros self.old self.new at len) }
        ensures there { OnOk result (HasPages self.new at len) }
        ensures bytes { (a : ℕ) → byte_in self.new a ≡ byte_in self.old a }
        ensures rising { OnOk result (IsStrictlyIncreasing (numbers_in self.new)) }
        ensures room { OnOk result (self.new.room ≡ 0) }
        ensures dimensions { SameDimensions self.old self.new }
        ensures err { OnErr result (self.new ≡ self.old) }
        ensures succeeds { HasPages self.old at len → IsOk result }
    {
        if self.has_all(at, len) {
            self.numbers_rise();
            return Ok(());
        }
        self.make_missing(at, len)
    }

    fn make_missing(&mut self, at: u32, len: u32) -> Result<(), AllocError>
        requires within { at + len ≤ self.old.blocks * self.old.block }
        requires room { self.old.room ≡ 0 }
        ensures pages { OnOk result (MakesZeros self.old self.new at len) }
        ensures there { OnOk result (HasPages self.new at len) }
        ensures bytes { (a : ℕ) → byte_in self.new a ≡ byte_in self.old a }
        ensures rising { OnOk result (IsStrictlyIncreasing (numbers_in self.new)) }
        ensures room { OnOk result (self.new.room ≡ 0) }
        ensures dimensions { SameDimensions self.old self.new }
        ensures err { OnErr result (self.new ≡ self.old) }
    {
        let fresh = self.missing(at, len)?;
        self.make_room(fresh.made() as usize)?;
        self.add_all(fresh);
        self.numbers_rise();
        Ok(())
    }

    // Whether each block of the range has a page.
    fn has_all(&self, at: u32, len: u32) -> bool
        requires { at + len ≤ self.now.blocks * self.now.block }
        ensures all { IsTrue result → HasPages self.now at len }
        ensures some { HasPages self.now at len → IsTrue result }
    {
        if len == 0 {
            return true;
        }
        let block = self.block();
        'numbers: for number in at / block..(at + len - 1) / block + 1 {
            if !self.has(number) {
                return false;
            }
        }
        true
    }

    // A page of zeros for each block of the range that has none.
    fn missing(&self, at: u32, len: u32) -> Result<Pages, AllocError>
        requires { at + len ≤ self.now.blocks * self.now.block }
        ensures missing { IfOk result (λ fresh. AreMissing self.now fresh at len) }
        ensures long { 0 < self.now.block }
    {
        let block = self.block();
        let mut fresh = Pages::new(self.alloc(), self.blocks(), block)?;
        if len == 0 {
            return Ok(fresh);
        }
        'numbers: for number in at / block..(at + len - 1) / block + 1 {
            if !self.has(number) {
                fresh.make_room(1)?;
                fresh.place(number, zeros(self.alloc(), block)?);
            }
        }
        Ok(fresh)
    }

    // Takes over the pages of others, of blocks that have none here.
    fn add_all(&mut self, others: Pages)
        requires apart { (b : ℕ) → HasPage others b → page_in self.old b ≡ None }
        requires room { pages_made others ≤ self.old.room }
        requires dimensions { SameDimensions self.old others }
        ensures pages { IsUnion others self.old self.new }
        ensures room { self.new.room ≡ self.old.room - pages_made others }
        ensures dimensions { SameDimensions self.old self.new }
    {
        let mut others = others;
        'pages: while let Some(page) = others.pop() {
            self.place(page.number, page.bytes);
        }
    }
}

fn zeros(alloc: Global, len: u32) -> Result<ByteList, AllocError>
    ensures { IfOk result (λ bytes. bytes ≡ replicate len 0) }
{
    Ok(ByteList::from(vec![in alloc; 0u8; len as usize]?))
}
