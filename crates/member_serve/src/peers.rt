use crate::callers::Callers;
use crate::names::{MOST_MEMBERS, has, name_in};
use crate::seats::member_of;
use crate::serving::Serving;
use std::alloc::AllocError;

/// What is told of each other member: a number of bytes, or 1 where it is so and 0 where it isn't.
#[derive(Clone, Copy)]
enum PeerMetric {
    LinkUp,
    Condemned,
    DeathTaken,
    Sent,
    Received,
}

impl PeerMetric {
    fn name(self) -> &'static str {
        match self {
            PeerMetric::LinkUp => "cocytus_link_up",
            PeerMetric::Condemned => "cocytus_member_condemned",
            PeerMetric::DeathTaken => "cocytus_death_taken",
            PeerMetric::Sent => "cocytus_link_sent_bytes_total",
            PeerMetric::Received => "cocytus_link_received_bytes_total",
        }
    }

    fn help(self) -> &'static str {
        match self {
            PeerMetric::LinkUp => "Whether this member is linked to the other.",
            PeerMetric::Condemned => "Whether the other was said to be dead.",
            PeerMetric::DeathTaken => "Whether the group goes on without the other.",
            PeerMetric::Sent => "Bytes that went to the other, while it is linked.",
            PeerMetric::Received => "Bytes that came of the other, while it is linked.",
        }
    }

    fn kind(self) -> &'static str {
        match self {
            PeerMetric::Sent | PeerMetric::Received => "counter",
            _ => "gauge",
        }
    }
}

impl<R, W, G: Callers> Serving<'_, R, W, G> {
    /// Writes what is told of the other members behind a text.
    pub(crate) fn put_all_peers(&self, text: &mut String) -> Result<(), AllocError> {
        'metrics: for metric in [
            PeerMetric::LinkUp,
            PeerMetric::Condemned,
            PeerMetric::DeathTaken,
            PeerMetric::Sent,
            PeerMetric::Received,
        ] {
            self.put_peers(metric, text)?;
        }
        Ok(())
    }

    fn put_peers(&self, metric: PeerMetric, text: &mut String) -> Result<(), AllocError> {
        let (name, help, kind) = (metric.name(), metric.help(), metric.kind());
        let head = format!(in self.alloc; "# HELP {name} {help}\n# TYPE {name} {kind}\n")?;
        text.push_str(head.as_str())?;
        'groups: for group in 0..self.settings.groups {
            self.put_peers_of(metric, group, text)?;
        }
        Ok(())
    }

    fn put_peers_of(
        &self,
        metric: PeerMetric,
        group: u32,
        text: &mut String,
    ) -> Result<(), AllocError> {
        'processes: for x in 0..MOST_MEMBERS {
            if self.is_peer(group, x) {
                self.put_peer(metric, group, x, text)?;
            }
        }
        Ok(())
    }

    fn put_peer(
        &self,
        metric: PeerMetric,
        group: u32,
        x: u32,
        text: &mut String,
    ) -> Result<(), AllocError> {
        let (name, peer) = (metric.name(), name_in(self.settings, group, x));
        let (label, value) = (self.group_label(group)?, self.value_of(metric, group, x));
        let line = format!(in self.alloc; "{name}{{{label}peer=\"{peer}\"}} {value}\n")?;
        text.push_str(line.as_str())
    }

    fn value_of(&self, metric: PeerMetric, group: u32, x: u32) -> u64 {
        let member = member_of(self.settings.shape, group, x);
        match metric {
            PeerMetric::LinkUp => u64::from(self.links.is_up(group, x)),
            PeerMetric::Condemned => u64::from(has(self.condemned(), member)),
            PeerMetric::DeathTaken => u64::from(self.has_taken(group, x)),
            PeerMetric::Sent => self.links.traffic(group, x).map_or(0, |t| t.sent),
            PeerMetric::Received => self.links.traffic(group, x).map_or(0, |t| t.received),
        }
    }
}
