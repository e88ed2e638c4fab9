ghost use Rattle.std.specs.Prelude.{◌≡◌, map, IfOk, IsErr};
ghost use Rattle.std.specs.String.{string_bytes};
ghost use Rattle.group_program.specs.Arguments.{lacks_memory, words_behind};

use std::alloc::{AllocError, Global};
use std::env::Args;
use std::io;

/// The words behind the program's name. Arguments that are no text name no command: they count as no words.
pub(crate) fn words_behind(alloc: Global, args: io::Result<Args>) -> Result<Vec<String>, AllocError>
    ensures words { IfOk result (λ words. map string_bytes words.items ≡ words_behind args) }
    ensures want { lacks_memory args → IsErr result }
{
    match args {
        Ok(all) => behind_name(alloc, all),
        Err(error) if error.kind() == io::ErrorKind::OutOfMemory => Err(AllocError),
        Err(_) => Ok(Vec::new(alloc)),
    }
}

// The program's name is the first of all.
fn behind_name(alloc: Global, all: Args) -> Result<Vec<String>, AllocError>
    ensures { IfOk result (λ words. map string_bytes words.items ≡ words_behind (Ok all)) }
{
    let mut words = all;
    words.next();
    words.collect(alloc)
}
