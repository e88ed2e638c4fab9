// Squares of coefficients, and their inverses.
ghost use Rattle.std.specs.Prelude.{◌≡◌, ℕ, ◌+◌, ◌<◌, ◌≤◌, slice_index};

use field_byte::mul;
use field_matrix::Square;

fn bytes_from<const F: usize>(first: u8) -> [u8; F]
    requires { first + F ≤ 256 }
    ensures { (k : ℕ) → k < F → slice_index result k ≡ first + k }
{
    let mut bytes = [0u8; F];
    'bytes: for k in 0..F {
        bytes[k] = first + k as u8;
    }
    bytes
}

fn is_inverse<const F: usize>(square: &Square<F>, inverse: &Square<F>) -> bool {
    for i in 0..F {
        for j in 0..F {
            let mut left = 0u8;
            let mut right = 0u8;
            for k in 0..F {
                left ^= mul(inverse.at(i, k), square.at(k, j));
                right ^= mul(square.at(i, k), inverse.at(k, j));
            }
            if left != u8::from(i == j) || right != left {
                return false;
            }
        }
    }
    true
}

macro_rules! check_sizes {
    ($rt:expr; $($f:literal)*) => {
        $(
            for parities in $f..=4u8 {
                let square = Square::<$f>::cauchy(&bytes_from(0), &bytes_from(parities));
                assert!($rt; is_inverse(&square, &square.invert()));
            }
        )*
    };
}

#[test]
fn squares_of_coefficients_times_their_inverses(rt: HostRuntime) {
    check_sizes!(rt; 1 2 3 4);
}
