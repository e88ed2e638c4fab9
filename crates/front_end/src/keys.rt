ghost use Rattle.std.specs.Prelude.{◌≡◌, ◌≢◌, ◌+◌, ◌<◌, ◌^◌, [], drop};

use group_types::Key;

/// The keys behind the first so many.
pub(crate) fn keys_behind(keys: &[Key], answered: usize) -> &[Key]
    ensures keys { result.now ≡ drop answered keys.now }
    ensures fits { result.now ≢ [] → answered + 1 < 2 ^ 64 }
{
    keys.split_at(answered.min(keys.len())).1
}
