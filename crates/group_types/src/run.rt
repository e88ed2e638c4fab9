/// A run of addresses in a space: `len` bytes from `at` on. A value of no bytes has the run of
/// length 0 at 0, which takes no address.
#[derive(Clone, Copy, Debug, PartialEq, Eq)]
pub struct Run {
    pub at: u32,
    pub len: u32,
}
