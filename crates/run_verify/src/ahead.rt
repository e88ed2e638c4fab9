ghost use Rattle.std.specs.Prelude.{◌↔◌, ◌≡◌, IsTrue};
ghost use Rattle.scenario_run.specs.Lines.{lines_of};
ghost use Rattle.run_verify.specs.Passing.{LogsAhead, begins_entry};

use scenario_run::cut_line;
use transcript_text::name::tells;
use transcript_text::word::after;

/// Whether a line begins as the lines of the log do.
pub(crate) fn begins_entry(line: &[u8]) -> bool
    ensures { result ≡ begins_entry line.now }
{
    match line {
        [] => false,
        [first, ..] => *first == b'=',
    }
}

/// Whether the first of the lines of the log right ahead that begins so ends with this reply.
pub(crate) fn logs_ahead(front: &[u8], reply: &[u8], ahead: &[u8]) -> bool
    ensures { IsTrue result ↔ LogsAhead front.now reply.now (lines_of ahead.now) }
{
    let mut rest = ahead;
    'lines: while !rest.is_empty() {
        let (line, more) = cut_line(rest);
        if !begins_entry(line) {
            return false;
        }
        if let Some(end) = after(front, line) {
            return tells(end, reply);
        }
        rest = more;
    }
    false
}
