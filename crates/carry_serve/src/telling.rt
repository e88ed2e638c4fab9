use crate::carrying::Carrying;
use crate::report::CarryReport;
use crate::stop::Stop;
use carry_words::CarryFault;

/// How often it is told how a carry goes on, in milliseconds.
const TELLING: u64 = 1_000;

impl<R, W: CarryReport> Carrying<'_, R, W> {
    /// Tells a person what somebody has to act by.
    pub(crate) fn warn(&self, text: String) {
        self.report.warn(text.as_str());
    }

    /// Tells a person how it goes on.
    pub(crate) fn note(&self, text: String) {
        self.report.note(text.as_str());
    }

    /// Tells each second how it goes on.
    pub(crate) fn tell_progress(&mut self) -> Result<(), Stop> {
        if self.now.saturating_sub(self.told) < TELLING {
            return Ok(());
        }
        self.told = self.now;
        self.tell_counts()
    }

    /// Tells how many items are carried.
    pub(crate) fn tell_counts(&mut self) -> Result<(), Stop> {
        let (carried, gone) = (self.carry.carried(), self.carry.gone());
        let left = self.listed.saturating_sub(carried).saturating_sub(gone);
        let bytes = self.bytes;
        self.note(format!(in self.alloc;
            "{carried} items carried, {bytes} bytes; {gone} had ended; {left} listed and on their way"
        )?);
        Ok(())
    }

    /// Tells why items can't be carried.
    pub(crate) fn tell_fault(&self, fault: CarryFault) {
        self.report.warn(match fault {
            CarryFault::Lost => "an item that was listed and hasn't ended isn't there",
            CarryFault::Changed => {
                "an item of the old group isn't what was listed: the group is not closed"
            }
            CarryFault::Differs => {
                "an item is not read back as it was set: the new group has other clients"
            }
            CarryFault::Misplaced => "an item was answered that wasn't asked for",
        });
    }

    /// Tells that nothing goes on.
    pub(crate) fn tell_standstill(&self) -> Result<(), Stop> {
        let refusal = self.refusal.as_str();
        self.warn(format!(in self.alloc;
            "nothing went on for a minute; what was refused last: {refusal:?}"
        )?);
        Ok(())
    }
}
