ghost use Rattle.std.specs.Prelude.{◌≤◌, vec_len};

use crate::call::GroupCall;
use front_end::Gateway;
use group_layout::layout::group_of;
use group_types::{Key, ProcessId};
use memc_proto::{CallEnd, FailEnd};
use memc_table::Op;
use std::alloc::AllocError;

/// A gateway over those of several groups of k data processes each, in their order: each call is one of the group of its key. It
/// takes no orders that a process fail.
#[derive(Drop)]
pub struct GroupGateways<G> {
    pub(crate) gateways: Vec<G>,
    k: u32,
    ghost some: { 1 ≤ vec_len gateways },
    ghost few: { vec_len gateways ≤ 16 },
    ghost wide: { 1 ≤ k },
}

impl<G> GroupGateways<G> {
    ghost use Rattle.std.specs.Prelude.{◌≡◌, ◌<◌};
    ghost use Rattle.group_layout.specs.Layout.{group_of};

    /// A gateway over those of groups of k data processes each.
    pub fn new(gateways: Vec<G>, k: u32) -> GroupGateways<G>
        requires some { 1 ≤ vec_len gateways }
        requires few { vec_len gateways ≤ 16 }
        requires wide { 1 ≤ k }
        ensures gateways { result.gateways ≡ gateways }
        ensures k { result.k ≡ k }
    {
        GroupGateways { gateways, k }
    }

    /// The gateways of the groups.
    pub fn groups(&self) -> &[G]
        ensures { result.now ≡ self.now.gateways.items }
    {
        self.gateways.as_slice()
    }

    // The number of the group of a key.
    fn group_of(&self, key: &Key) -> usize
        ensures group { result ≡ group_of key.now self.now.k (vec_len self.now.gateways) }
        ensures within { result < vec_len self.now.gateways }
    {
        group_of(key, self.k, self.gateways.len() as u32) as usize
    }
}

impl<G: Gateway> Gateway for GroupGateways<G> {
    ghost use Rattle.group_gateways.specs.Rules.{group_rules};
    ghost use Rattle.group_gateways.specs.Order.{group_order};

    type Call = GroupCall<G::Call>;

    ghost rules = { group_rules G.rules };

    ghost order = { group_order G.rules G.order };

    fn turn_of(&mut self, key: usize) {
        'groups: for group in 0..self.gateways.len() {
            self.turn_in(group, key);
        }
    }

    fn begin(&mut self, op: Op) -> Result<Option<GroupCall<G::Call>>, AllocError> {
        let group = self.group_of(op.act().key());
        match self.gateways[group].begin(op)? {
            Some(inner) => Ok(Some(GroupCall { group, inner })),
            None => Ok(None),
        }
    }

    fn take_end(&mut self, call: &GroupCall<G::Call>) -> Option<CallEnd> {
        match self.gateways.get_mut(call.group) {
            Some(gateway) => gateway.take_end(&call.inner),
            None => None,
        }
    }

    fn fail(&mut self, _at: ProcessId, _keep: u32) -> Result<FailEnd, AllocError> {
        Ok(FailEnd::Off)
    }
}
