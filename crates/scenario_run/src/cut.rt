ghost use Rattle.std.specs.Prelude.{◌≡◌, ◌<◌, ◌≤◌, ◌∷◌, length};
ghost use Rattle.scenario_run.specs.Lines.{lines_of};

use memchr::memchr;

/// The first line, and what follows its end.
pub fn cut_line(text: &[u8]) -> (&[u8], &[u8])
    requires { 0 < length text.now }
    ensures lines { lines_of text.now ≡ result.0.now ∷ lines_of result.1.now }
    ensures shorter { length result.1.now < length text.now }
{
    match memchr(b'\n', text) {
        Some(end) => (&text[..end], &text[end + 1..]),
        None => (text, &text[text.len()..]),
    }
}

/// How many lines a text has.
pub fn count_lines(text: &[u8]) -> usize
    ensures count { result ≡ length (lines_of text.now) }
    ensures few { result ≤ length text.now }
{
    let mut count = 0;
    let mut rest = text;
    'lines: while !rest.is_empty() {
        (_, rest) = cut_line(rest);
        count += 1;
    }
    count
}
