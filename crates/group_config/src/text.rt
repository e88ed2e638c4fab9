ghost use Rattle.std.specs.Prelude.{◌≡◌, Err, IfOk};
ghost use Rattle.edge_io.specs.Faults.{HasCauseOf};
ghost use Rattle.group_config.specs.Text.{HasReadSettings, HasReadTooMuch};
ghost use Rattle.group_config.specs.declared.fault.TextFault.TheVariants.{ReadFault, TooLong};

use crate::fault::TextFault;
use edge_io::{Source, read_whole};
use std::alloc::Global;

/// The most bytes that a text of settings has.
const LONGEST_SETTINGS: usize = 65_536;

/// Reads a text of settings: the source to its end, or to the first byte above 65,536.
pub fn read_text<S: Source>(alloc: Global, source: &mut S) -> Result<Vec<u8>, TextFault>
    ensures whole { IfOk result (λ text. HasReadSettings (S.input source.old) (S.input source.new) text.items) }
    ensures too_long { result ≡ Err TooLong → HasReadTooMuch (S.input source.old) (S.input source.new) }
    ensures cause { HasCauseOf (S.faults source.old) (S.faults source.new) result ReadFault }
{
    Ok(read_whole(alloc, source, LONGEST_SETTINGS)?)
}
