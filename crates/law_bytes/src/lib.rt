//! The bytes that processes hold, and what block sessions gather: each space, each copy and each rebuilt block is what
//! the settled updates leave, and what one session has under way is of one block and stands at one number of each
//! partition. The contracts say that spaces stand, that any k determine all, and that sessions decode. That histories
//! are right is left to the crates above.
#![tactic(auto)]

ghost use Rattle.law_bytes.specs.Decoding.{SessionsDecode, SpacesDetermine, SpacesStand};
ghost use Rattle.law_bytes.specs.Leading.{SessionsAlwaysSound};

/// A session in which all has come in, from processes that stand at one stamp, decodes to exactly the
/// values of its lost partitions at that stamp.
pub fn sessions_decode()
    ensures { SessionsDecode }
{}

/// A process that holds its bytes has the space, or the code of the spaces, of the settled updates that it
/// has applied.
pub fn spaces_stand()
    ensures { SpacesStand }
{}

/// The spaces of any k processes determine the spaces of all partitions.
pub fn spaces_determine()
    ensures { SpacesDetermine }
{}

/// While at most m processes are dead, a session's lost partitions and rows are different ones of the
/// group, and the rows are as many as the lost partitions: what decoding asks for.
pub fn sessions_always_sound()
    ensures { SessionsAlwaysSound }
{}
