//! What a text is searched for.
ghost use Rattle.std.specs.Prelude.{◌≡◌, ◌≢◌, ℕ, List, Bool, is_some, IfOk, IfErr};
ghost use Rattle.regex.specs.Patterns.{find};
ghost use Rattle.regex.specs.Bytes.{matcher_pattern};
ghost use Rattle.regex.specs.Sources.{IsRefusal};
ghost use Rattle.regex.specs.Failures.{IsRightKind, HasSpanIn};
ghost use Rattle.reg_find.specs.PatternTexts.{options, IsPatternOf, IsRefusedFor};

use crate::PatternFault;
use regex::bytes::{Matcher, Regex};
use regex::{Error, RegexBuilder};
use std::alloc::Global;

/// What a text is searched for.
pub trait Pattern {
    /// Which texts it matches, by their bytes.
    ghost matches: { Self → List ℕ → Bool };

    /// Whether it matches a text, or a part of it. That changes nothing of what it matches.
    fn is_match(&mut self, text: &[u8]) -> bool
        ensures answer { result ≡ matches self.old text.now }
        ensures same { matches self.new ≡ matches self.old };
}

impl<'r> Pattern for Matcher<'r> {
    ghost matches = { λ matcher text. is_some (find (matcher_pattern matcher) text 0) };

    fn is_match(&mut self, text: &[u8]) -> bool {
        self.is_match_at(text, 0)
    }
}

/// Compiles a text as a pattern by the regex crate's default options, or with its flag `i`.
fn build(alloc: Global, text: &str, ignores_case: bool) -> Result<Regex, Error>
    ensures ok { IfOk result (IsPatternOf text.now ignores_case) }
    ensures refused { IfErr result (IsRefusal (options ignores_case) text.now) }
    ensures kind { IfErr result (IsRightKind (options ignores_case) text.now) }
    ensures span { IfErr result (HasSpanIn text.now) }
    ensures no_internal { IfErr result (λ error. error ≢ Error.Internal) }
{
    RegexBuilder::new(text)
        .case_insensitive(ignores_case)
        .build_bytes(alloc)
}

/// Compiles a pattern in the syntax of Rust's regex crate, with its default options, save that it may pass over upper and lower case. It is
/// searched for in bytes. What searches is its matcher ([`Regex::matcher`]).
///
/// `Syntax` only where the text is no pattern or nests too deep; `TooLarge` only where it is one; `Memory`.
pub fn compile(alloc: Global, text: &str, ignores_case: bool) -> Result<Regex, PatternFault>
    ensures ok { IfOk result (IsPatternOf text.now ignores_case) }
    ensures err { IfErr result (IsRefusedFor text.now ignores_case) }
{
    match build(alloc, text, ignores_case) {
        Ok(regex) => Ok(regex),
        Err(Error::Syntax(error)) => Err(PatternFault::Syntax(error)),
        Err(Error::CompiledTooBig) => Err(PatternFault::TooLarge),
        Err(Error::OutOfMemory) => Err(PatternFault::Memory),
        Err(Error::Internal) => unreachable!(),
    }
}
