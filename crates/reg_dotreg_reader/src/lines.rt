//! The lines of a text.
ghost use Rattle.std.specs.Prelude.{◌≡◌, ◌<◌, ◌∷◌, [], length, position, MatchOption};
ghost use Rattle.reg_dotreg_reader.specs.EntryLines.{is_feed, lines_of, without_return};

use crate::words::before_mark;

pub fn first_feed(text: &[u16]) -> Option<usize>
    ensures { result ≡ position is_feed text.now }
{
    text.iter().position(|unit| *unit == 10)
}

/// A line without the CR at its end, if there is one.
pub fn without_return(line: &[u16]) -> &[u16]
    ensures { result.now ≡ without_return line.now }
{
    match before_mark(13, line) {
        Some(front) => front,
        None => line,
    }
}

/// A text's first line, with the CR at its end, and what follows it; `None` at the end.
#[tactic(auto, using(crate::proofs::TextLines::lines))]
pub fn first_line(text: &[u16]) -> Option<(&[u16], &[u16])>
    ensures { MatchOption result (lines_of text.now ≡ [])
        (λ p. (lines_of text.now ≡ p.0.now ∷ lines_of p.1.now) × (length p.1.now < length text.now)) }
{
    if text.is_empty() {
        return None;
    }
    match first_feed(text) {
        Some(end) => Some((&text[..end], &text[end + 1..])),
        None => Some((text, &text[text.len()..])),
    }
}
