use crate::callers::Callers;
use crate::names::{name_at, put_names};
use crate::seats::number_of;
use crate::serving::Serving;
use group_types::Partition;
use std::alloc::AllocError;

impl<R, W, G: Callers> Serving<'_, R, W, G> {
    /// What this member knows, as lines of a name and a value, and a last line `end`. Where there are several groups, a line that
    /// is of one begins with it.
    pub(crate) fn status(&self) -> Result<String, AllocError> {
        let mut text = self.name_lines()?;
        self.put_all_links(&mut text)?;
        let counts = self.count_lines()?;
        text.push_str(counts.as_str())?;
        self.put_moving(&mut text)?;
        text.push_str("end\n")?;
        Ok(text)
    }

    // The member's name, the groups' shape, and how many groups there are, where they are several.
    fn name_lines(&self) -> Result<String, AllocError> {
        let name = name_at(self.settings, self.settings.own);
        let shape = self.settings.shape;
        let (k, m, blocks, block) = (shape.k(), shape.m(), shape.blocks(), shape.block());
        let groups = self.settings.groups;
        if groups > 1 {
            return format!(in self.alloc;
                "name {name}\nshape {k} {m} {blocks} {block}\ngroups {groups}\n"
            );
        }
        format!(in self.alloc; "name {name}\nshape {k} {m} {blocks} {block}\n")
    }

    // Who was said here to be dead, and the links of each group.
    fn put_all_links(&self, text: &mut String) -> Result<(), AllocError> {
        text.push_str("said ")?;
        put_names(self.settings, self.said, text)?;
        text.push('\n')?;
        'groups: for group in 0..self.settings.groups {
            self.put_links(group, text)?;
        }
        Ok(())
    }

    // Who is cut in a group, whose deaths are taken, who isn't cut and has no link, and how many links there are.
    fn put_links(&self, group: u32, text: &mut String) -> Result<(), AllocError> {
        let prefix = self.group_prefix(group)?;
        self.put_set(&prefix, "cut ", self.cut_in(group), text)?;
        self.put_set(&prefix, "taken ", self.taken_in(group), text)?;
        self.put_set(&prefix, "unlinked ", self.unlinked_in(group), text)?;
        let up = self.links.up(group);
        let line = format!(in self.alloc; "{prefix}links {up}\n")?;
        text.push_str(line.as_str())
    }

    fn put_set(
        &self,
        prefix: &String,
        name: &str,
        set: u32,
        text: &mut String,
    ) -> Result<(), AllocError> {
        text.push_str(prefix.as_str())?;
        text.push_str(name)?;
        put_names(self.settings, set, text)?;
        text.push('\n')
    }

    // What stands in front of a line that is of a group: nothing where there is one alone.
    fn group_prefix(&self, group: u32) -> Result<String, AllocError> {
        if self.settings.groups > 1 {
            format!(in self.alloc; "group {group} ")
        } else {
            Ok(String::new(self.alloc))
        }
    }

    // How many clients, calls and answers there are.
    fn count_lines(&self) -> Result<String, AllocError> {
        let gateway = self.worker.gateway();
        let clients = self.worker.len();
        let serves = if self.is_serving() { "yes" } else { "no" };
        let (calls, parked, unshown) = (gateway.open_calls(), gateway.parked(), gateway.unshown());
        format!(in self.alloc;
            "serves {serves}\nclients {clients}\ncalls {calls}\nparked {parked}\nanswers {unshown}\n"
        )
    }

    // Whether it is closed, how many calls may change an item, and how far the partitions are that it heads.
    fn put_moving(&self, text: &mut String) -> Result<(), AllocError> {
        let gateway = self.worker.gateway();
        let (closed, moved) = (u32::from(gateway.is_closed()), u32::from(self.is_moved));
        let changing = gateway.changing();
        let lines = format!(in self.alloc;
            "closed {closed}\nmoved {moved}\nchanging {changing}\n"
        )?;
        text.push_str(lines.as_str())?;
        'groups: for group in 0..self.settings.groups {
            self.put_all_headed(group, text)?;
        }
        Ok(())
    }

    // How far the partitions of a group are that it heads there.
    fn put_all_headed(&self, group: u32, text: &mut String) -> Result<(), AllocError> {
        'partitions: for d in 0..self.settings.shape.k() {
            if self.worker.gateway().is_head(group, Partition(d)) {
                self.put_headed(group, d, text)?;
            }
        }
        Ok(())
    }

    // How many updates of a partition are unfinished, and the last number that was given in it, as it is told.
    fn put_headed(&self, group: u32, d: u32, text: &mut String) -> Result<(), AllocError> {
        let gateway = self.worker.gateway();
        let Some(usage) = gateway.usage(group, Partition(d)) else {
            return Ok(());
        };
        let (number, unfinished) = (number_of(self.settings.shape, group, d), usage.unfinished);
        let line = format!(in self.alloc; "unfinished {number} {unfinished}\n")?;
        text.push_str(line.as_str())?;
        if let Some(last) = gateway.told(group, Partition(d), usage.last) {
            let line = format!(in self.alloc; "base {number} {last}\n")?;
            text.push_str(line.as_str())?;
        }
        Ok(())
    }
}
