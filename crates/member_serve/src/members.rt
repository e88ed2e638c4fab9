// The members of one machine, one of each group.
ghost use Rattle.std.specs.Prelude.{◌≡◌, vec_len, IfOk};
ghost use Rattle.group_config.specs.MemberReading.{HasMembers};
ghost use Rattle.group_types.specs.Names.{IsProcess};

use crate::callers::Own;
use crate::seats::{member_of, own_in};
use group_config::MemberSettings;
use group_types::ProcessId;
use link_frames::GroupId;
use member_gateway::MemberGateway;
use member_links::{Greeting, LinkTokens, MemberLinks, process_of};
use moving_gateway::MovingGateway;
use std::alloc::{AllocError, Global};

/// The callers of the settings' own member, of each group.
pub(crate) fn all_callers(alloc: Global, settings: &MemberSettings) -> Result<Vec<Own>, AllocError>
    requires { HasMembers settings.now }
    ensures { IfOk result (λ callers. vec_len callers ≡ settings.now.groups) }
{
    let mut callers = Vec::new(alloc);
    'groups: for group in 0..settings.groups {
        callers.push(callers_in(alloc, settings, group)?)?;
    }
    Ok(callers)
}

/// Those of a group.
fn callers_in(alloc: Global, settings: &MemberSettings, group: u32) -> Result<Own, AllocError> {
    match process_of(settings.shape, own_in(settings, group)) {
        Some(name) => callers_of(alloc, settings, group, name),
        None => Err(AllocError),
    }
}

/// Those of the member of this name, whose numbers go on from the bases of its group.
fn callers_of(
    alloc: Global,
    settings: &MemberSettings,
    group: u32,
    name: ProcessId,
) -> Result<Own, AllocError>
    requires { IsProcess settings.now.shape name }
{
    let shape = settings.shape;
    let bases = Vec::from_slice(alloc, bases_in(settings, group))?;
    let callers = MemberGateway::new(alloc, shape, name)?;
    Ok(MovingGateway::new(callers, shape, bases))
}

/// The bases of a group's partitions: none where there are none.
fn bases_in(settings: &MemberSettings, group: u32) -> &[u64] {
    let (bases, k) = (settings.base.as_slice(), settings.shape.k() as usize);
    let from = bases.len().min((group as usize).saturating_mul(k));
    let until = bases.len().min(from.saturating_add(k));
    &bases[from..until]
}

/// The links of a group's member to the others, before the first is there, by a number that this start drew.
pub(crate) fn links_in(
    alloc: Global,
    settings: &MemberSettings,
    group: u32,
    drawn: u64,
) -> Result<MemberLinks, AllocError> {
    let greeting = Greeting {
        group: id_of(settings.group, group),
        shape: settings.shape,
        own: own_in(settings, group),
        drawn,
    };
    let tokens = LinkTokens::of(group.saturating_add(1));
    let mut links = MemberLinks::new(alloc, greeting, tokens);
    'processes: for x in 0..settings.shape.k() + settings.shape.m() {
        links.add(address_of(settings, group, x))?;
    }
    Ok(links)
}

/// Where the member is reached that has the process at an index of a group.
fn address_of(settings: &MemberSettings, group: u32, x: u32) -> &str {
    let member = member_of(settings.shape, group, x);
    match settings.members.entries().get(member as usize) {
        Some(entry) => entry.link.as_str(),
        None => "",
    }
}

/// What a group is called, by what the first is called: its number is added.
fn id_of(first: [u8; 16], group: u32) -> GroupId {
    let [a, b, c, d, e, f, g, h, i, j, k, l, m, n, o, p] = first;
    let low = u64::from_be_bytes([i, j, k, l, m, n, o, p]);
    GroupId {
        high: u64::from_be_bytes([a, b, c, d, e, f, g, h]),
        low: low.wrapping_add(u64::from(group)),
    }
}
