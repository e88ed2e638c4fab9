ghost use Rattle.std.specs.Prelude.{◌≡◌, ◌↔◌, ◌≤◌, ℕ, IsTrue, IfSome, IfNone};
ghost use Rattle.group_types.specs.Dimensions.{processes_of};
ghost use Rattle.group_types.specs.Names.{IsProcess, process_at};
ghost use Rattle.group_types.specs.Names as names;
ghost use Rattle.member_links.specs.Greetings.{Greets, IsMeant};

use group_types::{ProcessId, Shape};
use link_frames::{GroupId, Hello};

/// The version of what is said on links.
const VERSION: u16 = 1;

/// Who a member is, to those that it greets.
#[derive(Clone, Copy, Debug, PartialEq, Eq)]
pub struct Greeting {
    /// The group.
    pub group: GroupId,
    /// The group's shape.
    pub shape: Shape,
    /// The member's index.
    pub own: u32,
    /// What its program drew when it started.
    pub drawn: u64,
}

impl Greeting {
    /// The greeting of the member at an index, if the group has one there.
    pub(crate) fn hello_to(&self, x: u32) -> Option<Hello> {
        Some(Hello {
            version: VERSION,
            group: self.group,
            shape: self.shape,
            from: process_of(self.shape, self.own)?,
            to: process_of(self.shape, x)?,
            drawn: self.drawn,
        })
    }

    /// Who greets this member so: none where that is no other member of its group.
    pub(crate) fn sender_of(&self, hello: &Hello) -> Option<u32>
        ensures greets { IfSome result (Greets self.now hello.now) }
        ensures none { IfNone result ((x : ℕ) → ¬ (Greets self.now hello.now x)) }
    {
        if !self.is_meant(hello) {
            return None;
        }
        match index_of(self.shape, hello.from) {
            Some(x) if x != self.own => Some(x),
            _ => None,
        }
    }

    // Whether a greeting of this version and group is to this member.
    fn is_meant(&self, hello: &Hello) -> bool
        ensures { IsTrue result ↔ IsMeant self.now hello.now }
    {
        hello.version == VERSION
            && hello.group == self.group
            && hello.shape == self.shape
            && index_of(self.shape, hello.to) == Some(self.own)
    }
}

/// The index of a process, if it is one of the group.
pub(crate) fn index_of(shape: Shape, name: ProcessId) -> Option<u32>
    ensures index { IfSome result (λ x. x ≡ names.index_of shape name) }
    ensures within { IfSome result (λ _. IsProcess shape name) }
    ensures none { IfNone result (¬ (IsProcess shape name)) }
{
    match name {
        ProcessId::DataNode(d) if d < shape.k() => Some(d),
        ProcessId::ParityNode(i) if i < shape.m() => Some(shape.k() + i),
        _ => None,
    }
}

/// The process at an index, if the group has one there.
pub fn process_of(shape: Shape, x: u32) -> Option<ProcessId>
    ensures at { IfSome result (λ name. name ≡ process_at shape x) }
    ensures within { IfSome result (IsProcess shape) }
    ensures none { IfNone result (processes_of shape ≤ x) }
{
    let k = shape.k();
    if x < k {
        Some(ProcessId::DataNode(x))
    } else if x - k < shape.m() {
        Some(ProcessId::ParityNode(x - k))
    } else {
        None
    }
}
