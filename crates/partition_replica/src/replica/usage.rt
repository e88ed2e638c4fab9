ghost use Rattle.std.specs.Prelude.{◌≡◌, ℕ, ◌<◌, length, None, IsSome};
ghost use Rattle.group_types.specs.Dimensions.{space_of};
ghost use Rattle.group_run.specs.Free.{place_for};

use super::Replica;

impl Replica {
    /// How many items are settled, counted one by one.
    pub fn item_count(&self) -> usize
        ensures { result ≡ length self.now.replica.items }
    {
        self.index.count()
    }

    /// How many updates are in the log.
    pub fn waiting_count(&self) -> usize
        ensures { result ≡ length self.now.replica.log }
    {
        self.log.len()
    }

    /// The length of the longest free run, or 0 where there is none: a value of so many bytes has a
    /// place, and a longer one has none. It is found by halving.
    pub fn longest(&self) -> u32
        ensures fits { IsSome (place_for (space_of self.now.shape) self.now.replica result) }
        ensures most { (n : ℕ) → result < n → place_for (space_of self.now.shape) self.now.replica n ≡ None }
    {
        let mut low = 0;
        let mut high = self.shape.space();
        'lengths: while low < high {
            let half = high - (high - low) / 2;
            if self.place(half).is_some() {
                low = half;
            } else {
                high = half - 1;
            }
        }
        low
    }
}
