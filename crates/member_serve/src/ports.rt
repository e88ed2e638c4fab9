use crate::report::Report;
use crate::telling::tell_address;
use group_config::MemberEntry;
use member_links::Port;
use member_machine::MemberEnd;
use std::alloc::Global;
use std::net::Net;

/// The ports of a member.
#[derive(Drop)]
pub(crate) struct Ports {
    pub(crate) link: Port,
    pub(crate) client: Port,
    pub(crate) control: Port,
}

impl Ports {
    /// Listens where a member is reached.
    pub(crate) fn listen<N: Net, W: Report>(
        net: &N,
        alloc: Global,
        report: &W,
        entry: &MemberEntry,
    ) -> Result<Ports, MemberEnd> {
        Ok(Ports {
            link: port(net, alloc, report, entry.link.as_str())?,
            client: port(net, alloc, report, entry.client.as_str())?,
            control: port(net, alloc, report, entry.control.as_str())?,
        })
    }
}

/// Listens at an address: a person is told why it can't be.
fn port<N: Net, W: Report>(
    net: &N,
    alloc: Global,
    report: &W,
    address: &str,
) -> Result<Port, MemberEnd> {
    match Port::listen(net, address) {
        Ok(port) => Ok(port),
        Err(error) => {
            tell_address(alloc, report, address, &error);
            Err(MemberEnd::AddressFault)
        }
    }
}
