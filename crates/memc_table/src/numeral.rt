ghost use Rattle.std.specs.Prelude.{◌≡◌};
ghost use Rattle.memc_table.specs.Numeral.{number_of, numeral_value};

/// The number of a numeral: 1 to 20 decimal digits that stand for a number below 2^64.
pub fn number(bytes: &[u8]) -> Option<u64>
    ensures { result ≡ number_of bytes.now }
{
    if bytes.is_empty() || 20 < bytes.len() {
        return None;
    }
    value(bytes)
}

fn value(digits: &[u8]) -> Option<u64>
    ensures { result ≡ numeral_value digits.now }
{
    let mut value: u64 = 0;
    'digits: for &digit in digits {
        if !digit.is_ascii_digit() {
            return None;
        }
        value = value.checked_mul(10)?.checked_add(u64::from(digit - b'0'))?;
    }
    Some(value)
}
