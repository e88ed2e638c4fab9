ghost use Rattle.std.specs.Prelude.{◌≡◌, ◌≤◌, ◌<◌};
ghost use Rattle.group_types.specs.Hash.{home_of, fnv1a};

use crate::key::Key;
use crate::process::Partition;

/// FNV-1a of 32 bits (Fowler, Noll and Vo).
pub fn fnv1a_of(bytes: &[u8]) -> u32
    ensures { result ≡ fnv1a bytes.now }
{
    let mut hash = 2_166_136_261;
    'bytes: for &byte in bytes {
        hash = (hash ^ u32::from(byte)).wrapping_mul(16_777_619);
    }
    hash
}

/// The partition that a key lives in, of k.
pub fn home(key: &Key, k: u32) -> Partition
    requires { 1 ≤ k }
    ensures value { result.0 ≡ home_of key.now k }
    ensures within { result.0 < k }
{
    Partition(key.fnv1a() % k)
}
