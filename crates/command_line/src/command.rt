use crate::name::Name;

/// What the program is to do.
#[derive(Debug, Drop)]
pub enum Command {
    /// Plays a script.
    Play,
    /// Plays a script of several groups on nodes.
    PlayGroups,
    /// Plays a script of a group over eras.
    PlayRegroup,
    /// Checks a transcript by its script.
    Verify,
    /// Serves one connection over a group of this shape.
    Session {
        k: u32,
        m: u32,
        blocks: u32,
        block: u32,
    },
    /// Serves the connections of a port over one group, by settings.
    Serve,
    /// Runs a member of a group on machines of its own, by settings: the one of this name, where there is one, or else
    /// the one that the settings name.
    Member {
        name: Option<Name>,
    },
    /// Watches a member of such a group beside its program, by settings: that one of this name, or of the settings.
    Watch {
        name: Option<Name>,
    },
    /// Carries the items of such a group into a fresh one, by settings.
    Carry,
    /// Makes the script of this number.
    Make {
        number: u64,
    },
    /// Plays the script of this number.
    Trial {
        number: u64,
    },
    /// Reads a stream of frames, and writes a line for each message.
    Frames,
}
