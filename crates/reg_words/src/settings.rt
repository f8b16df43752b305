//! Texts of the command as they stand in a page or in a shell's script.

ghost use Rattle.std.specs.Prelude.{◌≡◌, ◌++◌, OnOk, string_bytes};
ghost use Rattle.reg_words.specs.Settings.{page_character, zsh_character, fish_character, character_in, text_in, words_of};

use std::alloc::AllocError;

/// Where a text stands.
#[derive(Clone, Copy)]
pub enum Setting {
    /// In a line of a manual page, not at its begin.
    Page,
    /// In a pair of quotes of zsh, as the description of something.
    Zsh,
    /// In a pair of quotes of fish.
    Fish,
}

/// A text, and the empty one where there is none.
pub fn words<'a>(text: Option<&'a str>) -> &'a str
    ensures { result.now ≡ words_of text.entry }
{
    match text {
        Some(text) => text,
        None => "",
    }
}

/// Appends a character to a page: `-`, `\` and `'` have other meanings there.
fn push_in_page(text: &mut String, character: char) -> Result<(), AllocError>
    ensures { OnOk result (string_bytes text.new ≡ string_bytes text.old ++ page_character character) }
{
    if character == '-' {
        return text.push_str("\\-");
    }
    if character == '\\' {
        return text.push_str("\\e");
    }
    if character == '\'' {
        return text.push_str("\\(aq");
    }
    text.push(character)
}

/// Appends a character to a description of zsh: brackets and colons part it, and a quote ends it.
fn push_in_zsh(text: &mut String, character: char) -> Result<(), AllocError>
    ensures { OnOk result (string_bytes text.new ≡ string_bytes text.old ++ zsh_character character) }
{
    if character == '\'' {
        return text.push_str("'\\''");
    }
    if character == '\\' || character == '[' || character == ']' || character == ':' {
        text.push_str("\\")?;
    }
    text.push(character)
}

/// Appends a character to a text in quotes of fish.
fn push_in_fish(text: &mut String, character: char) -> Result<(), AllocError>
    ensures { OnOk result (string_bytes text.new ≡ string_bytes text.old ++ fish_character character) }
{
    if character == '\'' || character == '\\' {
        text.push_str("\\")?;
    }
    text.push(character)
}

fn push_character(text: &mut String, setting: Setting, character: char) -> Result<(), AllocError>
    ensures { OnOk result (string_bytes text.new ≡ string_bytes text.old ++ character_in setting character) }
{
    match setting {
        Setting::Page => push_in_page(text, character),
        Setting::Zsh => push_in_zsh(text, character),
        Setting::Fish => push_in_fish(text, character),
    }
}

/// Appends a text, so written that it means itself where it stands.
pub fn push_told(text: &mut String, setting: Setting, words: &str) -> Result<(), AllocError>
    ensures { OnOk result (string_bytes text.new ≡ string_bytes text.old ++ text_in setting words.now) }
{
    let mut rest = words.chars();
    while let Some(character) = rest.next() {
        push_character(text, setting, character)?;
    }
    Ok(())
}
