//! The outgoing links of a process: one list of messages per target, in the order of sending.
//! Its contract says what each call leaves in the list of its target, that every other list stays,
//! and how many more messages fit without memory. What a message means is left to the caller.
#![tactic(auto)]

ghost use Rattle.std.specs.Prelude.{◌≡◌, ◌↔◌, ℕ, ◌-◌, ◌<◌, ◌≤◌, ◌==◌, max, [], ◌∷◌, ◌++◌, length, take, drop, replicate, slice_get, All, IsTrue, IfOk, IsOk, OnOk, option_copied};
ghost use Rattle.link_core.specs.Outgoing.{link_to, empty_link, with_link_to};

use link::Link;
use std::alloc::{AllocError, Global};
use std::marker::Model;

mod link;

/// The links of one process to all targets.
#[derive(Drop)]
pub struct Links<M> {
    links: Vec<Link<M>>,
}

impl<M> Model for Links<M> {
    ghost use Rattle.std.specs.Prelude.{List};
    ghost use Rattle.link_core.specs.Outgoing as outgoing;

    ghost Value = { List (outgoing.Link M) };

    ghost view = { λ links. links.links.items };
}

impl<M: Drop> Links<M> {
    /// Empty links to `targets` targets, without room.
    pub fn new(alloc: Global, targets: u32) -> Result<Self, AllocError>
        ensures { IfOk result (λ links. links ≡ replicate targets empty_link) }
    {
        let mut links = Vec::with_capacity(alloc, targets as usize)?;
        'targets: for _ in 0..targets {
            links.push(Link::new(alloc))?;
        }
        Ok(Self { links })
    }

    /// Makes room for `each` messages to every target. Where memory runs out, some targets may have
    /// it already.
    pub fn reserve(&mut self, each: u32) -> Result<(), AllocError>
        ensures many { length self.new ≡ length self.old }
        ensures messages { (to : ℕ) → (link_to self.new to).messages ≡ (link_to self.old to).messages }
        ensures spare { (to : ℕ) → (link_to self.old to).spare ≤ (link_to self.new to).spare }
        ensures most { (to : ℕ) → (link_to self.new to).spare ≤ max (link_to self.old to).spare each }
        ensures succeeds { ((to : ℕ) → to < length self.old → each ≤ (link_to self.old to).spare) → IsOk result }
        ensures ok { OnOk result ((to : ℕ) → to < length self.new → (link_to self.new to).spare ≡ max (link_to self.old to).spare each) }
    {
        'targets: for to in 0..self.links.len() {
            self.links[to].reserve(each as usize)?;
        }
        Ok(())
    }

    /// Adds a message behind those to this target. It takes no memory.
    pub fn send(&mut self, to: u32, message: M)
        requires target { to < length self.old }
        requires room { 0 < (link_to self.old to).spare }
        ensures { self.new ≡ with_link_to self.old to ((link_to self.old to).messages ++ message ∷ []) ((link_to self.old to).spare - 1) }
    {
        self.links[to as usize].send(message);
    }

    /// The first message to this target.
    pub fn peek(&self, to: u32) -> Option<&M>
        requires { to < length self.now }
        ensures { option_copied result ≡ slice_get (link_to self.now to).messages 0 }
    {
        self.links[to as usize].peek()
    }

    /// Takes the first message to this target.
    pub fn pop(&mut self, to: u32) -> Option<M>
        requires { to < length self.old }
        ensures first { result ≡ slice_get (link_to self.old to).messages 0 }
        ensures rest { self.new ≡ with_link_to self.old to (drop 1 (link_to self.old to).messages) (link_to self.old to).spare }
    {
        self.links[to as usize].pop()
    }

    /// Keeps the first `keep` messages to this target, all of them if there are fewer.
    pub fn cut(&mut self, to: u32, keep: u32)
        requires { to < length self.old }
        ensures { self.new ≡ with_link_to self.old to (take keep (link_to self.old to).messages) (link_to self.old to).spare }
    {
        self.links[to as usize].cut(keep as usize);
    }

    /// Whether no message waits for any target.
    pub fn is_idle(&self) -> bool
        ensures { IsTrue result ↔ All (λ link. link.messages ≡ []) self.now }
    {
        self.links.iter().all(|link| link.is_empty())
    }

    /// Whether no message waits for this target.
    pub fn is_empty(&self, to: u32) -> bool
        requires { to < length self.now }
        ensures { result ≡ (length (link_to self.now to).messages == 0) }
    {
        self.links[to as usize].is_empty()
    }
}
