use crate::callers::Callers;
use crate::names::name_in;
use crate::seats::own_in;
use crate::serving::Serving;
use group_types::Partition;
use member_gateway::Usage;
use std::alloc::AllocError;

/// What is told of each partition that this member keeps.
#[derive(Clone, Copy)]
enum PartitionMetric {
    Items,
    Unfinished,
    Longest,
}

impl PartitionMetric {
    fn name(self) -> &'static str {
        match self {
            PartitionMetric::Items => "cocytus_items",
            PartitionMetric::Unfinished => "cocytus_updates_unfinished",
            PartitionMetric::Longest => "cocytus_free_run_longest_bytes",
        }
    }

    fn help(self) -> &'static str {
        match self {
            PartitionMetric::Items => "Items of a partition, with those that have expired.",
            PartitionMetric::Unfinished => "Updates of a partition that aren't settled here.",
            PartitionMetric::Longest => "The longest value that a partition has space for.",
        }
    }

    fn value(self, usage: Usage) -> u64 {
        match self {
            PartitionMetric::Items => usage.items as u64,
            PartitionMetric::Unfinished => usage.unfinished as u64,
            PartitionMetric::Longest => u64::from(usage.longest),
        }
    }
}

impl<R, W, G: Callers> Serving<'_, R, W, G> {
    /// Writes what is told of the partitions that this member keeps behind a text: its own, or all of a parity process.
    pub(crate) fn put_partitions(&self, text: &mut String) -> Result<(), AllocError> {
        'metrics: for metric in [
            PartitionMetric::Items,
            PartitionMetric::Unfinished,
            PartitionMetric::Longest,
        ] {
            self.put_metric(metric, text)?;
        }
        Ok(())
    }

    fn put_metric(&self, metric: PartitionMetric, text: &mut String) -> Result<(), AllocError> {
        let (name, help) = (metric.name(), metric.help());
        let head = format!(in self.alloc; "# HELP {name} {help}\n# TYPE {name} gauge\n")?;
        text.push_str(head.as_str())?;
        'groups: for group in 0..self.settings.groups {
            self.put_metric_of(metric, group, text)?;
        }
        Ok(())
    }

    fn put_metric_of(
        &self,
        metric: PartitionMetric,
        group: u32,
        text: &mut String,
    ) -> Result<(), AllocError> {
        let own = own_in(self.settings, group);
        'partitions: for d in 0..self.settings.shape.k() {
            if own == d || self.settings.shape.k() <= own {
                self.put_partition(metric, group, d, text)?;
            }
        }
        Ok(())
    }

    fn put_partition(
        &self,
        metric: PartitionMetric,
        group: u32,
        d: u32,
        text: &mut String,
    ) -> Result<(), AllocError> {
        let Some(usage) = self.worker.gateway().usage(group, Partition(d)) else {
            return Ok(());
        };
        let (name, partition) = (metric.name(), name_in(self.settings, group, d));
        let (label, value) = (self.group_label(group)?, metric.value(usage));
        let line = format!(in self.alloc; "{name}{{{label}partition=\"{partition}\"}} {value}\n")?;
        text.push_str(line.as_str())
    }
}
