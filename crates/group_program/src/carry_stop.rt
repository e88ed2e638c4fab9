use group_config::{CarryKey, CarryKeyFault, TextFault};

/// Why nothing was carried.
#[derive(Clone, Copy, Debug)]
pub enum CarryStop {
    /// The settings are refused at this key.
    BadKey { key: CarryKey },
    /// There were no settings to look at.
    Unread { fault: TextFault },
}

impl From<TextFault> for CarryStop {
    ghost use Rattle.std.specs.Prelude.{◌≡◌};
    ghost use Rattle.group_program.specs.declared.carry_stop.CarryStop.TheVariants.{Unread};

    ghost from_gives = { λ fault stop. stop ≡ Unread fault };

    fn from(fault: TextFault) -> CarryStop {
        CarryStop::Unread { fault }
    }
}

impl From<CarryKeyFault> for CarryStop {
    ghost use Rattle.std.specs.Prelude.{◌≡◌};
    ghost use Rattle.group_program.specs.Carrying.{stop_of};

    ghost from_gives = { λ fault stop. stop ≡ stop_of fault };

    fn from(fault: CarryKeyFault) -> CarryStop {
        match fault {
            CarryKeyFault::BadKey { key } => CarryStop::BadKey { key },
            CarryKeyFault::Want => CarryStop::Unread {
                fault: TextFault::Want,
            },
        }
    }
}
