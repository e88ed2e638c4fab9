ghost use Rattle.std.specs.Prelude.{◌≡◌, ◌≤◌, ◌^◌, option_copied};
ghost use Rattle.memc_table.specs.Expiry.{until_of, live_at};

use crate::holding::Holding;

/// 30 days: an exptime up to this many seconds is counted from the moment of the call
/// (memcached's protocol).
const LONGEST_OFFSET: u64 = 2_592_000;

/// The second until which an item with this exptime lives, asked at the moment `now`.
pub fn until(expiry: i64, now: u64) -> Option<u64>
    requires { now ≤ 2 ^ 62 }
    ensures { result ≡ until_of expiry now }
{
    match u64::try_from(expiry) {
        Err(_) => Some(0),
        Ok(0) => None,
        Ok(offset) if offset <= LONGEST_OFFSET => Some(now + offset),
        Ok(moment) => Some(moment),
    }
}

/// What is held, if it is live at the moment `now`.
pub fn live(now: u64, held: Option<&Holding>) -> Option<&Holding>
    ensures { option_copied result ≡ live_at now (option_copied held.entry) }
{
    match held {
        Some(holding) => match holding.until {
            Some(until) if until <= now => None,
            _ => held,
        },
        None => None,
    }
}
