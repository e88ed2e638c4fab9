use crate::gateway::TestGateway;
use group_types::{ProcessId, Shape};
use member_gateway::MemberGateway;
use std::alloc::{AllocError, Global};

impl TestGateway for MemberGateway {
    fn open(alloc: Global, shape: Shape, name: ProcessId) -> Result<MemberGateway, AllocError> {
        MemberGateway::new(alloc, shape, name)
    }

    fn open_calls(&self) -> usize {
        MemberGateway::open_calls(self)
    }

    fn parked(&self) -> usize {
        MemberGateway::parked(self)
    }

    fn unshown(&self) -> usize {
        MemberGateway::unshown(self)
    }
}
