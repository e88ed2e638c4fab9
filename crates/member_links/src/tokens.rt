ghost use Rattle.std.specs.Prelude.{◌≡◌, ◌+◌, ◌*◌, ◌<◌, ◌≤◌};

/// The token of the port where other members connect.
pub const LINK_PORT: usize = 1 << 40;

/// The first token of a stream of a link. All from there on are such.
pub const FIRST_LINK: usize = 1 << 41;

/// How many tokens each range of them has: more than are ever taken of one.
const RANGE: usize = 1 << 42;

/// Tokens of streams of links, of one of 32 ranges.
#[derive(Debug, Drop)]
pub struct LinkTokens {
    next: usize,
}

impl LinkTokens {
    /// All tokens of a range, of which none is one of another.
    pub fn of(range: u32) -> LinkTokens
        ensures { range < 32 → result.next ≡ 2199023255552 + range * 4398046511104 }
    {
        let first = (range as usize).saturating_mul(RANGE);
        LinkTokens {
            next: FIRST_LINK.saturating_add(first),
        }
    }

    /// The next token.
    pub(crate) fn take(&mut self) -> usize
        ensures taken { result ≡ self.old.next }
        ensures later { self.old.next ≤ self.new.next }
    {
        let token = self.next;
        self.next = token.saturating_add(1);
        token
    }
}
