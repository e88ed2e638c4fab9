ghost use Rattle.std.specs.Prelude.{◌↔◌, IsTrue};
ghost use Rattle.group_types.specs.Key.{IsKey};

/// Whether memcached takes these bytes as a key.
pub fn is_key(bytes: &[u8]) -> bool
    ensures { IsTrue result ↔ IsKey bytes.now }
{
    1 <= bytes.len() && bytes.len() <= 250 && bytes.iter().all(|&byte| 32 < byte && byte != 127)
}
