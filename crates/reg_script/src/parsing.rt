ghost use Rattle.std.specs.Prelude.{◌≡◌, ◌≢◌, ◌==◌, ◌∷◌, [], position, IfOk, MatchResult, option_copied};
ghost use Rattle.reg_script.specs.LineWords.{words_of, number_of, name_of, data_of};
ghost use Rattle.reg_script.specs.LineMeanings.{reading, first_of, ending, session_number_of, hive_number_of, small_number_of, room_of, subtree_of};
ghost use Rattle.reg_script.specs.LineMeanings.{verb_of, given_of, by_verb, within, meaning_in};
ghost use Rattle.reg_script.specs.ReadLines.{said};
ghost use Rattle.reg_script.specs.Internal.WordReadings.{words_left, Reads, Means};

use crate::line::{Line, Session, Setting, Verb};
use crate::words::{
    ParseFault, bytes, hive, name, number, room, session, small_number, subtree, verb,
};
use reg_model::{Bytes, Call, Change, Query};
use std::alloc::{AllocError, Global};
use std::marker::Model;

/// The line as it is read for so many hives: bad where it sets a hive that isn't there.
fn at_hives(hives: u8, line: Line) -> Line
    ensures { said result ≡ within hives (said line) }
{
    match line {
        Line::Setting(Setting::Hive(hive)) => {
            if hive < hives {
                Line::Setting(Setting::Hive(hive))
            } else {
                Line::Bad
            }
        }
        Line::Setting(Setting::At(moment)) => Line::Setting(Setting::At(moment)),
        Line::Setting(Setting::As(session)) => Line::Setting(Setting::As(session)),
        Line::Nothing => Line::Nothing,
        Line::Call(call) => Line::Call(call),
        Line::Notice => Line::Notice,
        Line::Bad => Line::Bad,
    }
}

/// Understands a line, without its LF, of a script on so many hives, at most 16. One of no known form is [`Line::Bad`], and so is a
/// `hive N` where N isn't below their number. Its one fault is that memory was refused.
pub fn parse(alloc: Global, hives: u8, line: &[u8]) -> Result<Line, AllocError>
    ensures { IfOk result (λ l. said l ≡ meaning_in hives line.now) }
{
    if line.is_empty() || line[0] == b'#' {
        return Ok(Line::Nothing);
    }
    match parse_words(alloc, line) {
        Ok(line) => Ok(at_hives(hives, line)),
        Err(ParseFault::Form) => Ok(Line::Bad),
        Err(ParseFault::Memory) => Err(AllocError),
    }
}

fn first_space(line: &[u8]) -> Option<usize>
    ensures { result ≡ position (λ b. b == 32) line.now }
{
    line.iter().position(|byte| *byte == b' ')
}

/// The line up to its first space, and what follows the space, if there is one.
#[tactic(auto, using(crate::proofs::LineSpaces::words_first, crate::proofs::LineSpaces::words_one))]
fn split_word(line: &[u8]) -> (&[u8], Option<&[u8]>)
    ensures { words_of line.now ≡ result.0.now ∷ words_left (option_copied result.1) }
{
    match first_space(line) {
        Some(position) => (&line[..position], Some(&line[position + 1..])),
        None => (line, None),
    }
}

/// The words of a line, parted by one space each, that aren't read yet.
#[derive(Drop)]
struct Words<'a> {
    rest: Option<&'a [u8]>,
}

impl<'a> Model for Words<'a> {
    ghost use Rattle.std.specs.Prelude.{List, ℕ, option_copied};
    ghost use Rattle.reg_script.specs.Internal.WordReadings.{words_left};

    ghost Value = { List (List ℕ) };

    ghost view = { λ w. words_left (option_copied w.rest) };
}

impl<'a> Words<'a> {
    /// The next word; a line without one has another form.
    fn next(&mut self) -> Result<&'a [u8], ParseFault>
        ensures { MatchResult result (λ word. self.old ≡ word.now ∷ self.new) (λ e. (e ≡ ParseFault.Form) × (self.old ≡ [])) }
    {
        let Some(rest) = self.rest else {
            return Err(ParseFault::Form);
        };
        let (word, rest) = split_word(rest);
        self.rest = rest;
        Ok(word)
    }

    #[tactic(auto, using(crate::proofs::WordReadingLemmas::readings))]
    fn verb(&mut self) -> Result<Verb, ParseFault>
        ensures { Reads verb_of self.old result self.new }
    {
        verb(self.next()?)
    }

    #[tactic(auto, using(crate::proofs::WordReadingLemmas::readings))]
    fn number(&mut self, limit: u64) -> Result<u64, ParseFault>
        ensures { Reads (number_of limit) self.old result self.new }
    {
        number(self.next()?, limit)
    }

    #[tactic(auto, using(crate::proofs::WordReadingLemmas::readings))]
    fn session(&mut self) -> Result<Session, ParseFault>
        ensures { MatchResult result (λ s. first_of session_number_of self.old ≡ Some (s.number, self.new))
            (λ e. e ≡ ParseFault.Form → first_of session_number_of self.old ≡ None) }
    {
        session(self.next()?)
    }

    #[tactic(auto, using(crate::proofs::WordReadingLemmas::readings))]
    fn hive(&mut self) -> Result<u8, ParseFault>
        ensures { Reads hive_number_of self.old result self.new }
    {
        hive(self.next()?)
    }

    #[tactic(auto, using(crate::proofs::WordReadingLemmas::readings))]
    fn small_number(&mut self) -> Result<u32, ParseFault>
        ensures { Reads small_number_of self.old result self.new }
    {
        small_number(self.next()?)
    }

    #[tactic(auto, using(crate::proofs::WordReadingLemmas::readings))]
    fn name(&mut self, alloc: Global) -> Result<Bytes, ParseFault>
        ensures { Reads name_of self.old result self.new }
    {
        name(alloc, self.next()?)
    }

    #[tactic(auto, using(crate::proofs::WordReadingLemmas::readings))]
    fn bytes(&mut self, alloc: Global) -> Result<Bytes, ParseFault>
        ensures { Reads data_of self.old result self.new }
    {
        bytes(alloc, self.next()?)
    }

    #[tactic(auto, using(crate::proofs::WordReadingLemmas::readings))]
    fn room(&mut self) -> Result<Option<u32>, ParseFault>
        ensures { Reads room_of self.old result self.new }
    {
        room(self.next()?)
    }

    #[tactic(auto, using(crate::proofs::WordReadingLemmas::readings))]
    fn subtree(&mut self) -> Result<bool, ParseFault>
        ensures { Reads subtree_of self.old result self.new }
    {
        subtree(self.next()?)
    }

    /// The descriptor of a key to be made, if a word is left.
    #[tactic(auto, using(crate::proofs::WordReadingLemmas::descriptors, crate::proofs::LineSpaces::words_some))]
    fn given(&mut self, alloc: Global) -> Result<Option<Bytes>, ParseFault>
        ensures { MatchResult result (λ given. given_of self.old ≡ ending given self.new)
            (λ e. e ≡ ParseFault.Form → given_of self.old ≡ None) }
    {
        if self.rest.is_none() {
            return Ok(None);
        }
        Ok(Some(self.bytes(alloc)?))
    }

    /// What the rest of a line with this first word means.
    fn rest(&mut self, alloc: Global, verb: Verb) -> Result<Line, ParseFault>
        ensures { Means (by_verb verb) self.old result self.new }
    {
        match verb {
            Verb::At => self.at(),
            Verb::As => self.as_session(),
            Verb::Hive => self.on_hive(),
            Verb::Root => self.root(),
            Verb::Open => self.open(alloc),
            Verb::Create => self.create(alloc),
            Verb::Set => self.set(alloc),
            Verb::DelValue => self.delete_value(alloc),
            Verb::DelKey => self.delete_key(alloc),
            Verb::DelTree => self.delete_tree(alloc),
            Verb::SetSec => self.set_security(alloc),
            Verb::Notify => self.notify(),
            Verb::Close => self.close(),
            Verb::Query => self.query(alloc),
            Verb::EnumKey => self.enum_key(),
            Verb::EnumValue => self.enum_value(),
            Verb::Info => self.info(),
            Verb::GetSec => self.get_security(),
            Verb::Notice => self.notice(),
        }
    }

    /// `at MOMENT`.
    #[tactic(auto, unfolding(crate::specs::LineMeanings::by_verb))]
    fn at(&mut self) -> Result<Line, ParseFault>
        ensures { Means (by_verb Verb.At) self.old result self.new }
    {
        let moment = self.number(u64::MAX)?;
        Ok(Line::Setting(Setting::At(moment)))
    }

    /// `as SESSION`.
    #[tactic(auto, unfolding(crate::specs::LineMeanings::by_verb))]
    fn as_session(&mut self) -> Result<Line, ParseFault>
        ensures { Means (by_verb Verb.As) self.old result self.new }
    {
        let session = self.session()?;
        Ok(Line::Setting(Setting::As(session)))
    }

    /// `hive N`.
    #[tactic(auto, unfolding(crate::specs::LineMeanings::by_verb))]
    fn on_hive(&mut self) -> Result<Line, ParseFault>
        ensures { Means (by_verb Verb.Hive) self.old result self.new }
    {
        let hive = self.hive()?;
        Ok(Line::Setting(Setting::Hive(hive)))
    }

    /// `root MASK`.
    #[tactic(auto, unfolding(crate::specs::LineMeanings::by_verb))]
    fn root(&mut self) -> Result<Line, ParseFault>
        ensures { Means (by_verb Verb.Root) self.old result self.new }
    {
        let mask = self.small_number()?;
        Ok(Line::Call(Call::Change(Change::OpenRoot { mask })))
    }

    /// `open H PATH MASK`.
    #[tactic(auto, unfolding(crate::specs::LineMeanings::by_verb))]
    fn open(&mut self, alloc: Global) -> Result<Line, ParseFault>
        ensures { Means (by_verb Verb.Open) self.old result self.new }
    {
        let handle = self.number(u64::MAX)?;
        let path = self.name(alloc)?;
        let mask = self.small_number()?;
        Ok(Line::Call(Call::Change(Change::OpenKey { handle, path, mask })))
    }

    /// `create H PATH MASK`, and a descriptor's DATA word after or none.
    #[tactic(auto, using(crate::proofs::WordReadingLemmas::create_means), unfolding(crate::specs::LineMeanings::by_verb))]
    fn create(&mut self, alloc: Global) -> Result<Line, ParseFault>
        ensures { Means (by_verb Verb.Create) self.old result self.new }
    {
        let handle = self.number(u64::MAX)?;
        let path = self.name(alloc)?;
        let mask = self.small_number()?;
        let descriptor = self.given(alloc)?;
        Ok(Line::Call(Call::Change(Change::CreateKey {
            handle,
            path,
            mask,
            descriptor,
        })))
    }

    /// `set H NAME KIND DATA`.
    #[tactic(auto, unfolding(crate::specs::LineMeanings::by_verb))]
    fn set(&mut self, alloc: Global) -> Result<Line, ParseFault>
        ensures { Means (by_verb Verb.Set) self.old result self.new }
    {
        let handle = self.number(u64::MAX)?;
        let name = self.name(alloc)?;
        let kind = self.small_number()?;
        let bytes = self.bytes(alloc)?;
        Ok(Line::Call(Call::Change(Change::SetValue {
            handle,
            name,
            kind,
            bytes,
        })))
    }

    /// `delvalue H NAME`.
    #[tactic(auto, unfolding(crate::specs::LineMeanings::by_verb))]
    fn delete_value(&mut self, alloc: Global) -> Result<Line, ParseFault>
        ensures { Means (by_verb Verb.DelValue) self.old result self.new }
    {
        let handle = self.number(u64::MAX)?;
        let name = self.name(alloc)?;
        Ok(Line::Call(Call::Change(Change::DeleteValue { handle, name })))
    }

    /// `delkey H PATH`.
    #[tactic(auto, unfolding(crate::specs::LineMeanings::by_verb))]
    fn delete_key(&mut self, alloc: Global) -> Result<Line, ParseFault>
        ensures { Means (by_verb Verb.DelKey) self.old result self.new }
    {
        let handle = self.number(u64::MAX)?;
        let path = self.name(alloc)?;
        Ok(Line::Call(Call::Change(Change::DeleteKey { handle, path })))
    }

    /// `deltree H PATH`.
    #[tactic(auto, unfolding(crate::specs::LineMeanings::by_verb))]
    fn delete_tree(&mut self, alloc: Global) -> Result<Line, ParseFault>
        ensures { Means (by_verb Verb.DelTree) self.old result self.new }
    {
        let handle = self.number(u64::MAX)?;
        let path = self.name(alloc)?;
        Ok(Line::Call(Call::Change(Change::DeleteTree { handle, path })))
    }

    /// `setsec H DATA`.
    #[tactic(auto, unfolding(crate::specs::LineMeanings::by_verb))]
    fn set_security(&mut self, alloc: Global) -> Result<Line, ParseFault>
        ensures { Means (by_verb Verb.SetSec) self.old result self.new }
    {
        let handle = self.number(u64::MAX)?;
        let descriptor = self.bytes(alloc)?;
        Ok(Line::Call(Call::Change(Change::SetSecurity { handle, descriptor })))
    }

    /// `notify H FILTER 0` or `1`.
    #[tactic(auto, unfolding(crate::specs::LineMeanings::by_verb))]
    fn notify(&mut self) -> Result<Line, ParseFault>
        ensures { Means (by_verb Verb.Notify) self.old result self.new }
    {
        let handle = self.number(u64::MAX)?;
        let filter = self.small_number()?;
        let subtree = self.subtree()?;
        Ok(Line::Call(Call::Change(Change::Notify {
            handle,
            filter,
            subtree,
        })))
    }

    /// `close H`.
    #[tactic(auto, unfolding(crate::specs::LineMeanings::by_verb))]
    fn close(&mut self) -> Result<Line, ParseFault>
        ensures { Means (by_verb Verb.Close) self.old result self.new }
    {
        let handle = self.number(u64::MAX)?;
        Ok(Line::Call(Call::Change(Change::Close { handle })))
    }

    /// `query H NAME ROOM`, with `-` for no room.
    #[tactic(auto, unfolding(crate::specs::LineMeanings::by_verb))]
    fn query(&mut self, alloc: Global) -> Result<Line, ParseFault>
        ensures { Means (by_verb Verb.Query) self.old result self.new }
    {
        let handle = self.number(u64::MAX)?;
        let name = self.name(alloc)?;
        let room = self.room()?;
        Ok(Line::Call(Call::Query(Query::QueryValue { handle, name, room })))
    }

    /// `enumkey H INDEX ROOM`.
    #[tactic(auto, unfolding(crate::specs::LineMeanings::by_verb))]
    fn enum_key(&mut self) -> Result<Line, ParseFault>
        ensures { Means (by_verb Verb.EnumKey) self.old result self.new }
    {
        let handle = self.number(u64::MAX)?;
        let index = self.small_number()?;
        let room = self.small_number()?;
        Ok(Line::Call(Call::Query(Query::EnumKey {
            handle,
            index,
            room,
        })))
    }

    /// `enumvalue H INDEX NAMEROOM ROOM`, with `-` for no room.
    #[tactic(auto, unfolding(crate::specs::LineMeanings::by_verb))]
    fn enum_value(&mut self) -> Result<Line, ParseFault>
        ensures { Means (by_verb Verb.EnumValue) self.old result self.new }
    {
        let handle = self.number(u64::MAX)?;
        let index = self.small_number()?;
        let name_room = self.small_number()?;
        let room = self.room()?;
        Ok(Line::Call(Call::Query(Query::EnumValue {
            handle,
            index,
            name_room,
            room,
        })))
    }

    /// `info H`.
    #[tactic(auto, unfolding(crate::specs::LineMeanings::by_verb))]
    fn info(&mut self) -> Result<Line, ParseFault>
        ensures { Means (by_verb Verb.Info) self.old result self.new }
    {
        let handle = self.number(u64::MAX)?;
        Ok(Line::Call(Call::Query(Query::QueryInfo { handle })))
    }

    /// `getsec H ROOM`.
    #[tactic(auto, unfolding(crate::specs::LineMeanings::by_verb))]
    fn get_security(&mut self) -> Result<Line, ParseFault>
        ensures { Means (by_verb Verb.GetSec) self.old result self.new }
    {
        let handle = self.number(u64::MAX)?;
        let room = self.small_number()?;
        Ok(Line::Call(Call::Query(Query::GetSecurity { handle, room })))
    }

    /// `notice`.
    #[tactic(auto, unfolding(crate::specs::LineMeanings::by_verb))]
    fn notice(&self) -> Result<Line, ParseFault>
        ensures { Means (by_verb Verb.Notice) self.now result self.now }
    {
        Ok(Line::Notice)
    }

    /// No word may be left.
    #[tactic(auto, using(crate::proofs::LineSpaces::words_some))]
    fn end(&self) -> Result<(), ParseFault>
        ensures { MatchResult result (λ _. self.now ≡ []) (λ e. (e ≡ ParseFault.Form) × (self.now ≢ [])) }
    {
        match self.rest {
            Some(_) => Err(ParseFault::Form),
            None => Ok(()),
        }
    }
}

#[tactic(auto, using(crate::proofs::WordReadingLemmas::ends, crate::proofs::WordReadingLemmas::ends_not))]
fn parse_words(alloc: Global, line: &[u8]) -> Result<Line, ParseFault>
    ensures { MatchResult result
        (λ l. reading verb_of by_verb (words_of line.now) ≡ Some (said l))
        (λ e. e ≡ ParseFault.Form → reading verb_of by_verb (words_of line.now) ≡ None) }
{
    let mut words = Words { rest: Some(line) };
    let verb = words.verb()?;
    let parsed = words.rest(alloc, verb)?;
    words.end()?;
    Ok(parsed)
}
