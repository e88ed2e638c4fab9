//! What is published of the sum.
ghost use Rattle.std.specs.Prelude.{◌≡◌};
ghost use Rattle.std.specs.Prelude.{codes};
ghost use Rattle.crc32c.specs.Register.{checksum};

/// The sum of the nine digits from 1 to 9 is E3069283, as RFC 3720's readers check it.
pub fn published_value()
    ensures { checksum (codes "123456789") ≡ 3808858755 }
{}
