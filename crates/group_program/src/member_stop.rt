use group_config::{MemberFault, MemberKey, TextFault};

/// Why no member was run.
#[derive(Clone, Copy, Debug)]
pub enum MemberStop {
    /// The settings are refused at this key.
    BadKey { key: MemberKey },
    /// There were no settings to look at.
    Unread { fault: TextFault },
}

impl From<TextFault> for MemberStop {
    ghost use Rattle.std.specs.Prelude.{◌≡◌};
    ghost use Rattle.group_program.specs.declared.member_stop.MemberStop.TheVariants.{Unread};

    ghost from_gives = { λ fault stop. stop ≡ Unread fault };

    fn from(fault: TextFault) -> MemberStop {
        MemberStop::Unread { fault }
    }
}

impl From<MemberFault> for MemberStop {
    ghost use Rattle.std.specs.Prelude.{◌≡◌};
    ghost use Rattle.group_program.specs.Member.{stop_of};

    ghost from_gives = { λ fault stop. stop ≡ stop_of fault };

    fn from(fault: MemberFault) -> MemberStop {
        match fault {
            MemberFault::BadKey { key } => MemberStop::BadKey { key },
            MemberFault::Want => MemberStop::Unread {
                fault: TextFault::Want,
            },
        }
    }
}
