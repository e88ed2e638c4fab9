// The marks of a copy: the number of each partition that is marked.
ghost use Rattle.std.specs.Prelude.{◌≡◌, length, map, is_some, unwrap_or, replicate, None};
ghost use Rattle.std.specs.List.{list_all, range_with_len};
ghost use Rattle.group_types.specs.Lists.{at};

use vector_stamp::Stamp;

/// Whether each of `k` partitions is marked.
pub fn are_all(marks: &[Option<u64>], k: u32) -> bool
    requires { length marks.now ≡ k }
    ensures { result ≡ list_all (λ d. is_some (at None marks.now d)) (range_with_len 0 k) }
{
    'partitions: for d in 0..k {
        if marks[d as usize].is_none() {
            return false;
        }
    }
    true
}

/// Writes the numbers of the marks into a stamp of zeros, where there is no mark none.
pub fn write(marks: &[Option<u64>], k: u32, into: &mut Stamp)
    requires marks { length marks.now ≡ k }
    requires zeros { into.old ≡ replicate k 0 }
    ensures { into.new ≡ map (λ d. unwrap_or (at None marks.now d) 0) (range_with_len 0 k) }
{
    'partitions: for d in 0..k {
        into.raise(d, marks[d as usize].unwrap_or(0));
    }
}
