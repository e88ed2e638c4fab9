use crate::callers::Callers;
use crate::client_port::ClientPort;
use crate::control::Control;
use crate::deaths::ToldDeaths;
use crate::listing::Listing;
use crate::machine_links::MachineLinks;
use crate::readiness::MemberReadiness;
use crate::space::ToldSpace;
use crate::tally::Tally;
use crate::turn_clock::TurnClock;
use group_config::MemberSettings;
use ready_worker::{Crowd, Worker};
use std::alloc::Global;
use std::io;

/// A member that runs: its clients, its links and its operators.
#[derive(Drop)]
pub(crate) struct Serving<'s, R, W, G: Callers> {
    pub(crate) alloc: Global,
    pub(crate) rt: &'s R,
    pub(crate) report: &'s W,
    pub(crate) settings: &'s MemberSettings,
    pub(crate) clock: &'s TurnClock,
    pub(crate) worker: Worker<'s, MemberReadiness, G, TurnClock>,
    pub(crate) links: MachineLinks,
    pub(crate) control: Control,
    pub(crate) client_port: ClientPort,
    pub(crate) now: u64,
    pub(crate) said: u32,
    pub(crate) tally: Tally,
    pub(crate) crowd: Crowd,
    pub(crate) told: ToldDeaths,
    pub(crate) told_space: ToldSpace,
    pub(crate) few_since: Option<u64>,
    pub(crate) is_stuck: bool,
    pub(crate) is_moved: bool,
    pub(crate) listings: Vec<Listing>,
}

impl<R, W, G: Callers> Serving<'_, R, W, G> {
    /// Connections of other members and of operators are told of from now on.
    pub(crate) fn watch(&mut self) -> io::Result<()> {
        let registry = self.worker.readiness().registry();
        self.links.watch(registry)?;
        self.control.watch(registry)
    }
}
