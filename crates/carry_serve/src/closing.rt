use crate::carrying::Carrying;
use crate::group::Head;
use crate::report::CarryReport;
use crate::stop::Stop;
use crate::whole::{is_of_several, is_whole};
use carry_words::{Word, base_at, is_at_rest};
use std::alloc::AllocError;
use std::net::Net;
use std::time;

/// How long the old group has to come to rest, in milliseconds.
const RESTING: u64 = 120_000;

impl<R: Net + time::Clock, W: CarryReport> Carrying<'_, R, W> {
    /// Closes the old group: each member that answers, of which there have to be k.
    pub(crate) fn close(&mut self) -> Result<(), Stop> {
        'members: for x in 0..self.old.len() {
            let address = self.old.control_at(x);
            let answer = self.ask(address, Word::Close)?;
            let is_closed =
                matches!(&answer, Some(text) if text.as_slice() == b"closed\n".as_slice());
            self.old.note(x, is_closed);
            if !is_closed {
                let name = self.old.name_at(x);
                self.warn(format!(in self.alloc;
                    "{name} of the old group doesn't answer that it is closed: it has to be dead"
                )?);
            }
        }
        let (there, k) = (self.old.count_there(), self.settings.k);
        if there < k as usize {
            self.warn(format!(in self.alloc;
                "{there} members of the old group are closed, and {k} have to be"
            )?);
            return Err(Stop::Told);
        }
        self.note(format!(in self.alloc; "{there} members of the old group are closed")?);
        Ok(())
    }

    /// Waits until the old group is at rest, and sees who heads its partitions.
    pub(crate) fn await_rest(&mut self) -> Result<(), Stop> {
        let until = self.now.saturating_add(RESTING);
        'turns: for _ in 0..u64::MAX {
            if self.see_old()? {
                return Ok(());
            }
            if until <= self.now {
                break;
            }
            self.wait(50);
        }
        self.warn(format!(in self.alloc;
            "the old group doesn't come to rest: a member that doesn't answer has to be said to be dead, and its death taken"
        )?);
        Err(Stop::Told)
    }

    // Sees whether the old group is at rest and each partition has a head.
    fn see_old(&mut self) -> Result<bool, Stop> {
        let mut rests = true;
        'members: for x in 0..self.old.len() {
            if !self.old.is_there(x) {
                continue;
            }
            let address = self.old.control_at(x);
            match self.ask(address, Word::Status)? {
                Some(status) => {
                    self.refuse_several(status.as_slice())?;
                    rests = self.rests(status.as_slice())? && rests;
                    self.note_heads_of_old(x, status.as_slice())?;
                }
                None => rests = false,
            }
        }
        Ok(rests && self.old.has_heads())
    }

    // Members of several groups aren't carried: a person is told so.
    fn refuse_several(&self, status: &[u8]) -> Result<(), Stop> {
        if !is_of_several(status) {
            return Ok(());
        }
        self.warn(format!(in self.alloc;
            "a member has several groups, and only the items of one can be carried"
        )?);
        Err(Stop::Told)
    }

    // Whether the status of a member of the old group says that it is at rest, and that each that doesn't answer is dead.
    fn rests(&self, status: &[u8]) -> Result<bool, AllocError> {
        Ok(is_at_rest(self.alloc, status)? && is_whole(status, self.old.count_there()))
    }

    fn note_heads_of_old(&mut self, x: usize, status: &[u8]) -> Result<(), AllocError> {
        'partitions: for d in 0..self.settings.k as usize {
            if let Some(base) = base_at(self.alloc, status, d as u64)? {
                self.old.set_head(d, Head { member: x, base });
            }
        }
        Ok(())
    }

    /// Sees who heads the new group's partitions. Its cas numbers have to begin no lower than the old ones end.
    pub(crate) fn see_new(&mut self) -> Result<(), Stop> {
        'members: for x in 0..self.new.len() {
            let address = self.new.control_at(x);
            let answer = self.ask(address, Word::Status)?;
            self.new.note(x, answer.is_some());
            if let Some(status) = answer {
                self.refuse_several(status.as_slice())?;
                'partitions: for d in 0..self.settings.k as usize {
                    if let Some(base) = base_at(self.alloc, status.as_slice(), d as u64)? {
                        self.new.set_head(d, Head { member: x, base });
                    }
                }
            }
        }
        if !self.new.has_heads() {
            self.warn(format!(in self.alloc;
                "the new group doesn't answer with a head for each partition"
            )?);
            return Err(Stop::Told);
        }
        self.compare_bases()
    }

    fn compare_bases(&mut self) -> Result<(), Stop> {
        let mut enough = true;
        'partitions: for d in 0..self.settings.k as usize {
            if let (Some(old), Some(new)) = (self.old.head_of(d), self.new.head_of(d)) {
                if new.base < old.base {
                    enough = false;
                    let (least, base) = (old.base, new.base);
                    self.warn(format!(in self.alloc;
                        "the base of partition {d} in the new group's settings is {base}, and has to be {least} at least"
                    )?);
                }
            }
        }
        if enough { Ok(()) } else { Err(Stop::Told) }
    }

    /// Lets the clients of the old group go.
    pub(crate) fn move_clients(&mut self) -> Result<(), Stop> {
        'members: for x in 0..self.old.len() {
            if !self.old.is_there(x) {
                continue;
            }
            let address = self.old.control_at(x);
            let answer = self.ask(address, Word::Moved)?;
            let has_moved =
                matches!(&answer, Some(text) if text.as_slice() == b"moved\n".as_slice());
            if !has_moved {
                let name = self.old.name_at(x);
                self.warn(format!(in self.alloc;
                    "{name} of the old group doesn't answer that it has moved: end it"
                )?);
            }
        }
        Ok(())
    }
}
