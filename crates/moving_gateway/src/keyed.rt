ghost use Rattle.std.specs.Prelude.{◌≡◌};
ghost use Rattle.group_types.specs.Hash.{fnv1a};
ghost use Rattle.memc_table.specs.Act.{key_of};
ghost use Rattle.memc_table.specs.Asked.{Asked};

use front_end::Gateway;

/// A gateway whose calls know which keys they ask.
pub trait Keyed: Gateway {
    /// The hash of the key that an open call asks, by which its partition is found.
    fn hash(&self, call: &Self::Call) -> u32
        ensures { (op : Asked) (began : Self) → Self.rules.opened self.now call.now op began → result ≡ fnv1a (key_of op.act) };
}
