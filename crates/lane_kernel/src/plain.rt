// The sum byte by byte, as the definition reads: it serves where there is no whole vector, and the
// vectors are tested beside it.
ghost use Rattle.std.specs.Prelude.{◌≡◌, length};
ghost use Rattle.field_byte.specs.Vectors.{add_bytes, scale};

pub(crate) fn mul_add_into(coef: u8, src: &[u8], dst: &mut [u8])
    requires { length src.now ≡ length dst.old }
    ensures { dst.new ≡ add_bytes dst.old (scale coef src.now) }
{
    'bytes: for (at, from) in src.iter().enumerate() {
        dst[at] ^= field_byte::mul(coef, *from);
    }
}
