ghost use Rattle.std.specs.Prelude.{◌≡◌};
ghost use Rattle.group_config.specs.MemberReading.{HasMembers};

use crate::callers::{Callers, Own};
use crate::client_port::ClientPort;
use crate::control::Control;
use crate::deaths::ToldDeaths;
use crate::machine_links::MachineLinks;
use crate::members::{all_callers, links_in};
use crate::ports::Ports;
use crate::readiness::MemberReadiness;
use crate::report::{Level, Report};
use crate::serving::Serving;
use crate::space::ToldSpace;
use crate::tally::Tally;
use crate::turn_clock::TurnClock;
use group_config::{CallOrder, MemberKey, MemberSettings};
use group_gateways::GroupGateways;
use member_links::{Door, LinkTokens, Port};
use member_machine::{Machine, MemberEnd};
use mio::Poll;
use ready_worker::{Crowd, Overlap, Station, Watch, Worker};
use std::alloc::{AllocError, Global};
use std::net::Net;
use std::random::RandomSource;
use std::sync::Wait;
use std::time;

/// The machine that a program runs on: its sockets, its clock, and who hears of it.
#[derive(Drop)]
pub struct NetMachine<'a, R, W> {
    alloc: Global,
    rt: &'a R,
    report: &'a W,
}

impl<'a, R, W> NetMachine<'a, R, W> {
    /// The machine of this runtime value.
    pub fn new(alloc: Global, rt: &'a R, report: &'a W) -> NetMachine<'a, R, W> {
        NetMachine { alloc, rt, report }
    }
}

impl<R: Net + RandomSource, W: Report> NetMachine<'_, R, W> {
    // The callers of the settings' own member, of each group.
    fn callers(&self, settings: &MemberSettings) -> Result<GroupGateways<Own>, MemberEnd>
        requires { HasMembers settings.now }
    {
        match all_callers(self.alloc, settings) {
            Ok(callers) => Ok(GroupGateways::new(callers, settings.shape.k())),
            Err(_) => Err(MemberEnd::Want),
        }
    }

    // Runs a member with these callers.
    fn run_over<G: Callers + Drop>(&self, settings: &MemberSettings, callers: G) -> MemberEnd
    where
        R: time::Clock + Wait,
        W: Watch,
    {
        let clock = TurnClock::new();
        match self.begun(settings, &clock, callers) {
            Ok(mut serving) => serving.run(),
            Err(end) => end,
        }
    }

    // A member before its first turn, whose ports are open.
    fn begun<'s, G: Callers + Drop>(
        &'s self,
        settings: &'s MemberSettings,
        clock: &'s TurnClock,
        callers: G,
    ) -> Result<Serving<'s, R, W, G>, MemberEnd> {
        let Some(entry) = settings.members.entries().get(settings.own as usize) else {
            return Err(MemberEnd::AddressFault);
        };
        let ports = Ports::listen(self.rt, self.alloc, self.report, entry)?;
        let Ok(poll) = Poll::new(self.rt) else {
            return Err(MemberEnd::LinkFault);
        };
        let Ok(mut serving) = self.serving(settings, clock, callers, ports, poll) else {
            return Err(MemberEnd::Want);
        };
        match serving.watch() {
            Ok(()) => Ok(serving),
            Err(_) => Err(MemberEnd::LinkFault),
        }
    }

    // A member before its first turn.
    fn serving<'s, G: Callers + Drop>(
        &'s self,
        settings: &'s MemberSettings,
        clock: &'s TurnClock,
        callers: G,
        ports: Ports,
        poll: Poll,
    ) -> Result<Serving<'s, R, W, G>, AllocError> {
        let Ports {
            link,
            client,
            control,
        } = ports;
        Ok(Serving {
            alloc: self.alloc,
            rt: self.rt,
            report: self.report,
            settings,
            clock,
            worker: self.worker(settings.order, clock, callers, poll)?,
            links: self.links(settings, link)?,
            control: Control::new(self.alloc, control),
            client_port: ClientPort::new(client),
            now: 0,
            said: 0,
            tally: Tally::new(),
            crowd: Crowd::new(),
            told: ToldDeaths::new(),
            told_space: ToldSpace::new(),
            few_since: None,
            is_stuck: false,
            is_moved: false,
            listings: Vec::new(self.alloc),
        })
    }

    // The worker of a member, with no client.
    fn worker<'s, G: Callers + Drop>(
        &self,
        order: CallOrder,
        clock: &'s TurnClock,
        callers: G,
        poll: Poll,
    ) -> Result<Worker<'s, MemberReadiness, G, TurnClock>, AllocError> {
        let readiness = MemberReadiness::new(self.alloc, poll)?;
        let station = Station::new(self.alloc, readiness)?;
        Ok(Worker::new(station, callers, clock, overlap_of(order)))
    }

    // The links of a member before the first is there, and where others come in at this port.
    fn links(&self, settings: &MemberSettings, port: Port) -> Result<MachineLinks, AllocError> {
        let drawn = self.drawn();
        let mut groups = Vec::new(self.alloc);
        'groups: for group in 0..settings.groups {
            groups.push(links_in(self.alloc, settings, group, drawn)?)?;
        }
        let door = Door::new(self.alloc, settings.shape, port, LinkTokens::of(0));
        Ok(MachineLinks::new(groups, door))
    }

    // A number that this start draws: 0 where the system gives none.
    fn drawn(&self) -> u64 {
        let mut bytes = [0u8; 8];
        let _ = self.rt.fill_bytes(&mut bytes);
        u64::from_be_bytes(bytes)
    }
}

/// Which calls of a client are under way together by this order.
fn overlap_of(order: CallOrder) -> Overlap
    ensures strict { order ≡ CallOrder.Strict → result ≡ Overlap.Never }
    ensures keys { order ≡ CallOrder.Keys → result ≡ Overlap.OtherKeys }
{
    match order {
        CallOrder::Strict => Overlap::Never,
        CallOrder::Keys => Overlap::OtherKeys,
    }
}

impl<R: Net + time::Clock + RandomSource + Wait, W: Report + Watch> Machine
    for NetMachine<'_, R, W> {
    ghost use Rattle.std.specs.Prelude.{⊤};

    ghost ran = { λ _ _ _ _. ⊤ };

    fn run(&mut self, settings: &MemberSettings) -> MemberEnd {
        match self.callers(settings) {
            Ok(callers) => self.run_over(settings, callers),
            Err(end) => end,
        }
    }

    fn refuse(&self, key: MemberKey) {
        self.report.line(Level::Warning, key.allowed());
    }
}
