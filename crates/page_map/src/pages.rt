ghost use Rattle.std.specs.Prelude.{◌≡◌, ◌↔◌, ◌+◌, ◌-◌, ◌*◌, ◌<◌, ◌≤◌, max, length, IsTrue, IfOk, IsOk, IfErr, OnOk, OnErr, IfSome, IfNone, vec_len, vec_capacity, option_copied, Some, None, IsSome};
ghost use Rattle.std.specs.Borrow.{sem};
ghost use Rattle.std.specs.List.Sorted.{IsStrictlyIncreasing};
ghost use Rattle.page_map.specs.Order.{IsAt, IsGapFor, IsStrictlySorted};
ghost use Rattle.page_map.specs.Pages.{look_up};

use crate::Page;
use group_types::ByteList;
use std::alloc::{AllocError, Global};
use std::marker::Model;

/// Blocks of bytes by their numbers. Only the pages that were made are there.
#[derive(Debug, Drop)]
pub struct Pages {
    blocks: u32,
    block: u32,
    pages: Vec<Page>,
    room: usize,
}

impl Model for Pages {
    ghost use Rattle.std.specs.Prelude.{◌+◌, ◌≤◌, vec_len, vec_capacity};
    ghost use Rattle.page_map.specs.Pages.{PageContents};
    ghost use Rattle.page_map.specs.Order.{ArePages};

    ghost Value = { PageContents };

    ghost view = { λ p. record { blocks = p.blocks; block = p.block; pages = p.pages.items; room = p.room } };

    ghost invariant = { λ p. ArePages p.blocks p.block p.pages.items × (vec_len p.pages + p.room ≤ vec_capacity p.pages) };
}

impl Pages {
    ghost use Rattle.page_map.specs.Pages.{ArePageDimensions, HasPage, IsTakenOut, PageContents, PlacesOnly, SameDimensions, no_pages, numbers_in, page_in, pages_made};
    ghost use Rattle.page_map.specs.Loans.{LendsPage};

    /// No page of `blocks` blocks of `block` bytes.
    pub fn new(alloc: Global, blocks: u32, block: u32) -> Result<Pages, AllocError>
        requires { ArePageDimensions blocks block }
        ensures { IfOk result (λ pages. pages ≡ no_pages blocks block) }
    {
        Ok(Pages {
            blocks,
            block,
            pages: Vec::new(alloc),
            room: 0,
        })
    }

    /// How many pages there are. No two have one number.
    pub fn made(&self) -> u32
        ensures count { result ≡ pages_made self.now }
        ensures rising { IsStrictlyIncreasing (numbers_in self.now) }
    {
        self.pages.len() as u32
    }

    /// Whether the page of this block is there.
    pub fn has(&self, number: u32) -> bool
        ensures { IsTrue result ↔ HasPage self.now number }
    {
        search(&self.pages, number).is_ok()
    }

    /// The page of this block, if it is there.
    pub fn page(&self, number: u32) -> Option<&[u8]>
        ensures page { option_copied result ≡ page_in self.now number }
        ensures whole { IfSome result (λ bytes. length bytes.now ≡ self.now.block) }
    {
        match search(&self.pages, number) {
            Ok(place) => Some(self.pages[place].bytes.bytes()),
            Err(_) => None,
        }
    }

    /// The page of this block, to write into.
    pub fn page_mut(&mut self, number: u32) -> &mut [u8]
        requires { HasPage self.old number }
        ensures* writes_back { sem 𝓛 (LendsPage self.entry number result) }
        ensures page { Some result.now ≡ page_in self.old number }
        ensures whole { length result.now ≡ self.old.block }
    {
        let place = place_of(&self.pages, number);
        let page = &mut self.pages[place];
        page.bytes.bytes_mut()
    }

    /// Makes room for at least `count` further pages.
    pub fn make_room(&mut self, count: usize) -> Result<(), AllocError>
        ensures ok { OnOk result (self.new ≡ record self.old { room = max self.old.room count }) }
        ensures err { OnErr result (self.new ≡ self.old) }
        ensures succeeds { count ≤ self.old.room → IsOk result }
    {
        let room = self.room.max(count);
        self.pages.reserve(room)?;
        self.room = room;
        Ok(())
    }

    /// Sets a page of these bytes in where there was none. It takes no memory.
    pub fn place(&mut self, number: u32, bytes: ByteList)
        requires room { 1 ≤ self.old.room }
        requires below { number < self.old.blocks }
        requires absent { page_in self.old number ≡ None }
        requires whole { length bytes ≡ self.old.block }
        ensures pages { PlacesOnly self.old self.new number bytes }
        ensures made { pages_made self.new ≡ pages_made self.old + 1 }
        ensures room { self.new.room ≡ self.old.room - 1 }
        ensures dimensions { SameDimensions self.old self.new }
    {
        let place = gap_for(&self.pages, number);
        self.room -= 1;
        match self.pages.insert(place, Page { number, bytes }) {
            Ok(()) => {}
            Err(_) => unreachable!(),
        }
    }

    /// What the pages take their memory from.
    pub(crate) fn alloc(&self) -> Global {
        *self.pages.allocator()
    }

    /// The bytes of a block.
    pub fn block(&self) -> u32
        ensures length { result ≡ self.now.block }
        ensures dimensions { ArePageDimensions self.now.blocks self.now.block }
    {
        self.block
    }

    /// The number of blocks.
    pub fn blocks(&self) -> u32
        ensures { result ≡ self.now.blocks }
    {
        self.blocks
    }

    // What sorted pages are to those who see their numbers.
    pub(crate) fn numbers_rise(&self)
        ensures { IsStrictlyIncreasing (numbers_in self.now) }
    {
        let _pages = &self.pages;
    }

    // Takes a page out, if there is one.
    pub(crate) fn pop(&mut self) -> Option<Page>
        ensures none { IfNone result (pages_made self.old ≡ 0) }
        ensures page { IfSome result (IsTakenOut self.old self.new) }
    {
        self.pages.pop()
    }
}

// Where the page of this number is, or where it would go.
fn search(pages: &[Page], number: u32) -> Result<usize, usize>
    requires { IsStrictlySorted pages.now }
    ensures found { IfOk result (IsAt pages.now number) }
    ensures absent { IfErr result (IsGapFor pages.now number) }
{
    // A page stands at the place of its number where none below it is missing.
    let place = number as usize;
    if place < pages.len() && pages[place].number == number {
        return Ok(place);
    }
    pages.binary_search_by_key(&number, |page| page.number)
}

fn place_of(pages: &[Page], number: u32) -> usize
    requires sorted { IsStrictlySorted pages.now }
    requires there { IsSome (look_up pages.now number) }
    ensures { IsAt pages.now number result }
{
    match search(pages, number) {
        Ok(place) => place,
        Err(_) => unreachable!(),
    }
}

fn gap_for(pages: &[Page], number: u32) -> usize
    requires sorted { IsStrictlySorted pages.now }
    requires absent { look_up pages.now number ≡ None }
    ensures { IsGapFor pages.now number result }
{
    match search(pages, number) {
        Ok(_) => unreachable!(),
        Err(gap) => gap,
    }
}
