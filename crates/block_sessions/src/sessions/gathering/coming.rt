ghost use Rattle.std.specs.Prelude.{◌↔◌, Contains, IfSome, IsTrue};
ghost use Rattle.group_run.specs.Leaders.{open_session};

use crate::Sessions;

impl Sessions {
    /// Whether a partition isn't lost in the session of this number, if it is open. It takes no memory.
    pub fn asks_block(&self, number: u64, d: u32) -> bool
        ensures { IsTrue result ↔ IfSome (open_session self.now.state number) (λ g. ¬ (Contains g.lost d)) }
    {
        match self.place_of(number) {
            None => true,
            Some(place) => !self.sessions[place].lost.contains(&d),
        }
    }

    /// Whether a row is among those of the session of this number, if it is open. It takes no memory.
    pub fn asks_row(&self, number: u64, i: u32) -> bool
        ensures { IsTrue result ↔ IfSome (open_session self.now.state number) (λ g. Contains g.rows i) }
    {
        match self.place_of(number) {
            None => true,
            Some(place) => self.sessions[place].coded.is_for(i),
        }
    }
}
