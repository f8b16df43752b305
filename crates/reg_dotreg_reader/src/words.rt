//! Blanks, marks and words of a line.
ghost use Rattle.std.specs.Prelude.{◌≡◌, ◌<◌, ◌≤◌, length, option_copied, IfSome};
ghost use Rattle.std.specs.Str.{bytes_eq};
ghost use Rattle.reg_dotreg_reader.specs.EntryWords.{is_blank, behind_blanks, before_blanks, trimmed, before_mark, behind_word};

/// Whether a unit is a blank.
pub fn is_blank(unit: u16) -> bool
    ensures { result ≡ is_blank unit }
{
    unit == 32 || unit == 9 || unit == 10
}

/// What is left without the blanks at the start.
#[tactic(auto, using(crate::proofs::WordEnds::behind_is))]
pub fn behind_blanks(units: &[u16]) -> &[u16]
    ensures { result.now ≡ behind_blanks units.now }
{
    let mut start = 0;
    while start < units.len() && is_blank(units[start]) {
        start += 1;
    }
    &units[start..]
}

/// What is left without the blanks at the end.
#[tactic(auto, using(crate::proofs::WordEnds::before_is))]
pub fn before_blanks(units: &[u16]) -> &[u16]
    ensures { result.now ≡ before_blanks units.now }
{
    let mut end = units.len();
    while end > 0 && is_blank(units[end - 1]) {
        end -= 1;
    }
    &units[..end]
}

/// What is left without both.
pub fn trimmed(units: &[u16]) -> &[u16]
    ensures { result.now ≡ trimmed units.now }
{
    before_blanks(behind_blanks(units))
}

/// What stands before the last unit, where that is the mark.
#[tactic(auto, using(crate::proofs::WordEnds::mark_none, crate::proofs::WordEnds::mark_is, crate::proofs::WordEnds::mark_not))]
pub fn before_mark(mark: u16, units: &[u16]) -> Option<&[u16]>
    ensures { option_copied result ≡ before_mark mark units.now }
{
    let (last, front) = units.split_last()?;
    if *last == mark { Some(front) } else { None }
}

/// What stands behind a word, where some units begin with it.
#[tactic(auto, using(crate::proofs::WordEnds::words))]
pub fn behind_word<'a>(word: &[u8], units: &'a [u16]) -> Option<&'a [u16]>
    ensures { option_copied result ≡ behind_word word.now units.now }
{
    let mut rest = units;
    for letter in word {
        let (unit, others) = rest.split_first()?;
        if *unit != u16::from(*letter) {
            return None;
        }
        rest = others;
    }
    Some(rest)
}

/// Whether some units are a word and no more.
#[tactic(auto, using(crate::proofs::WordEnds::word_whole, crate::proofs::WordEnds::word_not))]
pub fn is_word(word: &[u8], units: &[u16]) -> bool
    ensures { result ≡ bytes_eq units.now word.now }
{
    match behind_word(word, units) {
        Some(rest) => rest.is_empty(),
        None => false,
    }
}
