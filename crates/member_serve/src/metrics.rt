use crate::callers::Callers;
use crate::names::{count_of, name_at};
use crate::serving::Serving;
use crate::tally::Tally;
use std::alloc::AllocError;

const SERVING: &str = "Whether clients are served.";

const LOSSES: &str = "How many more members may be said to be dead.";

const CLIENTS: &str = "Connections of clients.";

const CALLS: &str = "Calls of clients that have not ended.";

const PARKED: &str = "Requests that came early, and wait at the process of this member.";

const UNSHOWN: &str = "Answers that the others have yet to confirm.";

const CLOSED: &str = "Whether calls are refused that may change an item.";

const MOVED: &str = "Whether clients are let go, since the items are in another group.";

const CHANGING: &str = "Calls of clients that may change an item, and have not ended.";

const ACCEPTED: &str = "Clients that were accepted.";

const REFUSED: &str = "Clients that were refused.";

const BROKEN: &str = "Links that broke.";

const PINGS: &str = "Rounds of pings by which answers were confirmed.";

const REBUILDS: &str = "Rebuilds that were begun here, each of a block of every lost space.";

/// A number of a member, by the conventions of Prometheus.
#[derive(Clone, Copy)]
struct Metric {
    name: &'static str,
    kind: &'static str,
    help: &'static str,
    value: u64,
}

impl Metric {
    fn gauge(name: &'static str, help: &'static str, value: u64) -> Metric {
        Metric {
            name,
            kind: "gauge",
            help,
            value,
        }
    }

    fn counter(name: &'static str, help: &'static str, value: u64) -> Metric {
        Metric {
            name,
            kind: "counter",
            help,
            value,
        }
    }
}

impl<R, W, G: Callers> Serving<'_, R, W, G> {
    /// What this member counts, in the text format of Prometheus.
    pub(crate) fn metrics(&self) -> Result<String, AllocError> {
        let mut text = self.info()?;
        self.put_all(&self.gauges(), &mut text)?;
        self.put_all(&self.counters(), &mut text)?;
        self.put_ended(&mut text)?;
        self.put_partitions(&mut text)?;
        self.put_all_peers(&mut text)?;
        Ok(text)
    }

    // The member's name, and the group's shape.
    fn info(&self) -> Result<String, AllocError> {
        let name = name_at(self.settings, self.settings.own);
        let (k, m) = (self.settings.shape.k(), self.settings.shape.m());
        format!(in self.alloc;
            "# HELP cocytus_member_info What this member is.\n# TYPE cocytus_member_info gauge\ncocytus_member_info{{member=\"{name}\",k=\"{k}\",m=\"{m}\"}} 1\n"
        )
    }

    // What goes up and down.
    fn gauges(&self) -> [Metric; 9] {
        let gateway = self.worker.gateway();
        let dead = count_of(self.condemned());
        let left = self.settings.shape.m().saturating_sub(dead);
        [
            Metric::gauge("cocytus_serving", SERVING, u64::from(self.is_serving())),
            Metric::gauge("cocytus_losses_left", LOSSES, u64::from(left)),
            Metric::gauge("cocytus_clients", CLIENTS, self.worker.len() as u64),
            Metric::gauge("cocytus_calls_open", CALLS, gateway.open_calls() as u64),
            Metric::gauge("cocytus_requests_parked", PARKED, gateway.parked() as u64),
            Metric::gauge("cocytus_answers_waiting", UNSHOWN, gateway.unshown() as u64),
            Metric::gauge("cocytus_closed", CLOSED, u64::from(gateway.is_closed())),
            Metric::gauge("cocytus_moved", MOVED, u64::from(self.is_moved)),
            Metric::gauge(
                "cocytus_changing_calls",
                CHANGING,
                u64::from(gateway.changing()),
            ),
        ]
    }

    // What only goes up.
    fn counters(&self) -> [Metric; 5] {
        let Tally {
            accepted,
            refused,
            broken,
        } = self.tally;
        let gateway = self.worker.gateway();
        [
            Metric::counter("cocytus_clients_accepted_total", ACCEPTED, accepted),
            Metric::counter("cocytus_clients_refused_total", REFUSED, refused),
            Metric::counter("cocytus_links_broken_total", BROKEN, broken),
            Metric::counter("cocytus_pings_total", PINGS, gateway.pings()),
            Metric::counter("cocytus_rebuilds_total", REBUILDS, gateway.sessions()),
        ]
    }

    fn put_all(&self, metrics: &[Metric], text: &mut String) -> Result<(), AllocError> {
        'metrics: for metric in metrics {
            self.put(*metric, text)?;
        }
        Ok(())
    }

    fn put(&self, metric: Metric, text: &mut String) -> Result<(), AllocError> {
        let Metric {
            name,
            kind,
            help,
            value,
        } = metric;
        let lines = format!(in self.alloc;
            "# HELP {name} {help}\n# TYPE {name} {kind}\n{name} {value}\n"
        )?;
        text.push_str(lines.as_str())
    }

    /// The label that says of which group a number is, in front of others: none where there is one group alone.
    pub(crate) fn group_label(&self, group: u32) -> Result<String, AllocError> {
        if self.settings.groups > 1 {
            format!(in self.alloc; "group=\"{group}\",")
        } else {
            Ok(String::new(self.alloc))
        }
    }

    /// Whether clients are served.
    pub(crate) fn is_serving(&self) -> bool {
        self.client_port.is_open() && !self.is_stuck && !self.is_moved
    }
}
