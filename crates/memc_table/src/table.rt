ghost use Rattle.std.specs.Prelude.{ℕ, List, ◌≡◌, ◌≤◌, ◌<◌, ◌^◌, IfOk, OnOk, OnErr, IsSome, option_copied, vec_len};
ghost use Rattle.std.specs.BTreeMap.{get};
ghost use Rattle.std.specs.Ordering.{nat_cmp};
ghost use Rattle.std.specs.Cmp.Lexicographic.{slice_cmp};
ghost use Rattle.memc_table.specs.Contents.{holding_at};
ghost use Rattle.memc_table.specs.Expiry.{live_at};
ghost use Rattle.memc_table.specs.Ruling.{HoldsItem};

use crate::expiry::live;
use crate::holding::Holding;
use crate::op::Op;
use crate::reply::Reply;
use crate::rule::rule;
use crate::ruling::Ruling;
use group_types::{Key, home};
use std::alloc::{AllocError, Global};
use std::collections::BTreeMap;

/// memcached's table: what each key holds, and how many updates each partition had.
#[derive(Debug, Drop)]
pub struct Table {
    alloc: Global,
    items: BTreeMap<Key, Holding>,
    counts: Vec<u64>,
    partitions: u32,
    ghost some: { 1 ≤ partitions },
    ghost counted: { vec_len counts ≡ partitions },
}

impl Table {
    ghost use Rattle.memc_table.specs.Act.{key_of};
    ghost use Rattle.memc_table.specs.Contents.{empty_table, count_of, reply_in, reply_of, ruling_on, after_ruling, table_after};
    ghost use Rattle.memc_table.specs.Table.{contents};

    /// A table of k partitions that holds nothing.
    pub fn new(alloc: Global, k: u32) -> Result<Table, AllocError>
        requires { 1 ≤ k }
        ensures { IfOk result (λ table. contents table ≡ empty_table k) }
    {
        Ok(Table {
            alloc,
            items: BTreeMap::new(alloc),
            counts: vec![in alloc; 0; k as usize]?,
            partitions: k,
        })
    }

    /// How many updates the key's partition had.
    pub fn count(&self, key: &Key) -> u64
        ensures { result ≡ count_of (contents self.now) key.now }
    {
        self.counts[home(key, self.partitions).0 as usize]
    }

    /// What a key holds, expired or not.
    pub fn item(&self, key: &Key) -> Option<&Holding>
        ensures { option_copied result ≡ (contents self.now).items key.now }
    {
        self.items.get(key)
    }

    /// Treats one op: the reply and the next table are those of memcached's protocol.
    pub fn apply(&mut self, op: &Op) -> Result<Reply, AllocError>
        requires { count_of (contents self.old) (key_of op.now.act) < 2 ^ 62 }
        ensures reply { IfOk result (λ reply. reply ≡ reply_of (contents self.old) op.now) }
        ensures table { OnOk result (contents self.new ≡ table_after (contents self.old) op.now) }
        ensures want { OnErr result (contents self.new ≡ contents self.old) }
        ensures wanted { OnErr result (HoldsItem (ruling_on (contents self.old) op.now)) }
    {
        let key = op.act().key();
        let live = find(&self.items, key, op.now());
        let ruling = rule(self.alloc, op, self.count(key) + 1, live)?;
        self.follow(key, ruling)
    }

    /// Does what a ruling on a key says.
    fn follow(&mut self, key: &Key, ruling: Ruling) -> Result<Reply, AllocError>
        requires { count_of (contents self.old) key.now < 2 ^ 62 }
        ensures reply { IfOk result (λ reply. reply ≡ reply_in ruling) }
        ensures table { OnOk result (contents self.new ≡ after_ruling (contents self.old) key.now ruling) }
        ensures want { OnErr result (contents self.new ≡ contents self.old) }
        ensures wanted { OnErr result (HoldsItem ruling) }
    {
        match ruling {
            Ruling::Refused(reply) => Ok(reply),
            Ruling::Accepted { reply, leaves } => {
                hold(&mut self.items, key, leaves)?;
                self.counts[home(key, self.partitions).0 as usize] += 1;
                Ok(reply)
            }
        }
    }
}

/// What a key holds that is live at the moment `now`.
fn find<'a>(items: &'a BTreeMap<Key, Holding>, key: &Key, now: u64) -> Option<&'a Holding>
    ensures { option_copied result ≡ live_at now (get (slice_cmp nat_cmp) items.now key.now) }
{
    live(now, items.get(key))
}

/// Makes a key hold this.
fn hold(
    items: &mut BTreeMap<Key, Holding>,
    key: &Key,
    leaves: Option<Holding>,
) -> Result<(), AllocError>
    ensures ok { OnOk result ((other : List ℕ) → get (slice_cmp nat_cmp) items.new other ≡ holding_at key.now leaves (get (slice_cmp nat_cmp) items.old) other) }
    ensures err { OnErr result (items.new.entries ≡ items.old.entries) }
    ensures wanted { OnErr result (IsSome leaves) }
{
    match leaves {
        Some(holding) => {
            items.insert(key.clone()?, holding)?;
        }
        None => {
            items.remove(key);
        }
    }
    Ok(())
}
