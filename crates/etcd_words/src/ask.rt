/// What etcd is asked for. A key is a text, and so is a value.
#[derive(Clone, Copy, Debug)]
pub enum Ask<'a> {
    /// A lease of so many seconds.
    Grant {
        seconds: u32,
    },
    /// That a lease lasts as long again.
    Renew {
        lease: u64,
    },
    /// That a lease ends, and all keys under it.
    Revoke {
        lease: u64,
    },
    /// One transaction: `alive` holds the value as long as the lease lasts, and `seen` for ever, where `alive` isn't there.
    Register {
        lease: u64,
        alive: &'a str,
        seen: &'a str,
        value: &'a str,
    },
    /// All keys from one to before another, with their values.
    Range {
        from: &'a str,
        to: &'a str,
    },
    /// One transaction: `dead` holds the value, where its last change was this revision, 0 if it isn't there, and `alive` isn't there.
    Condemn {
        dead: &'a str,
        revision: u64,
        value: &'a str,
        alive: &'a str,
    },
    /// A line for each change of keys from one to before another, from now on.
    Watch {
        from: &'a str,
        to: &'a str,
    },
}

impl Ask<'_> {
    ghost use Rattle.std.specs.Prelude.{◌≡◌};
    ghost use Rattle.etcd_words.specs.Asking.{path_of};

    /// Where the gateway takes it.
    pub(crate) fn path(self) -> &'static str
        ensures { result.now ≡ path_of self.entry }
    {
        match self {
            Ask::Grant { .. } => "/v3/lease/grant",
            Ask::Renew { .. } => "/v3/lease/keepalive",
            Ask::Revoke { .. } => "/v3/lease/revoke",
            Ask::Register { .. } | Ask::Condemn { .. } => "/v3/kv/txn",
            Ask::Range { .. } => "/v3/kv/range",
            Ask::Watch { .. } => "/v3/watch",
        }
    }
}
