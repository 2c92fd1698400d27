//! The words of the command line of `ycc`, read by its options.

use crate::found::{Found, option_named, option_of};
use crate::options::{Ask, Has, Known};
use crate::persona;
use crate::words::{Asked, DATA_FOLDER, Given, LOCALE_FOLDER, VERSION, Wanted};
use std::alloc::{AllocError, Global};
use std::mem;
use yparts::options::{language_of, skeleton_of};
use yparts::refusal::Refusal;

/// Why words are refused.
#[derive(Clone, Copy, Drop)]
pub enum Wrong<'a> {
    /// There is no grammar.
    NoGrammar,
    /// A word is refused, for this reason: its dashes, and what follows them.
    Word(&'static str, &'a str, &'static str),
    /// Memory ran out.
    Memory,
}

impl<'a> From<AllocError> for Wrong<'a> {
    fn from(_refused: AllocError) -> Wrong<'a> {
        Wrong::Memory
    }
}

/// An option that waits for the word with its value, as it is called.
#[derive(Clone, Copy)]
struct Waiting<'a> {
    ask: Ask,
    dashes: &'static str,
    name: &'a str,
}

/// Words while they are read.
struct Reader<'a> {
    wanted: Wanted<'a>,
    /// Whether a grammar was met.
    has_grammar: bool,
    /// Whether no option comes any more.
    is_past: bool,
    waiting: Option<Waiting<'a>>,
    /// What is asked for in place of files.
    text: Option<Ask>,
}

impl Drop for Reader<'_> {
    fn drop(self) {
        let Reader {
            wanted: _,
            has_grammar: _,
            is_past: _,
            waiting: _,
            text: _,
        } = self;
    }
}

/// Whether a call is one as bison: by its name, or by a word.
fn is_bison(words: &[String]) -> bool {
    for (number, word) in words.iter().enumerate() {
        let word = word.as_str();
        if word == "--bison" || (number == 0 && persona::is_bison(word)) {
            return true;
        }
        if word == "--" {
            break;
        }
    }
    false
}

/// Takes in a wish for files with its value, which may be empty, and says whether it was one.
fn wish<'a>(given: &mut Given<'a>, ask: Ask, value: &'a str) -> bool {
    match ask {
        Ask::Header => {
            given.define = true;
            if !value.is_empty() {
                given.header = Some(value);
            }
        }
        Ask::NoLines => given.no_lines = true,
        Ask::Trace => given.trace = true,
        Ask::Report => given.verbose = true,
        Ask::ReportFile => given.report = Some(value),
        Ask::Yacc => given.yacc = true,
        Ask::Pure => given.pure = true,
        Ask::Locations => given.locations = true,
        Ask::Bison => given.bison = true,
        Ask::Lists => given.lists = true,
        Ask::Names => given.names = true,
        Ask::FilePrefix => given.files = Some(value),
        Ask::Output => given.parser = Some(value),
        Ask::NamePrefix => given.prefix = Some(value),
        Ask::Messages => given.messages = Some(value),
        Ask::Spec => given.spec = Some(value),
        Ask::Table => given.table = Some(value),
        Ask::Graph => given.graph = Some(value),
        Ask::Page => given.page = Some(value),
        Ask::OldGraph => given.old_graph = true,
        _ => return false,
    }
    true
}

impl<'a> Reader<'a> {
    /// Does what an option asks for, with its value, which may be empty.
    fn obey(&mut self, option: Waiting<'a>, value: &'a str) -> Result<(), Wrong<'a>> {
        if wish(&mut self.wanted.given, option.ask, value) {
            return Ok(());
        }
        self.obey_further(option, value)
    }

    /// Takes in a language or a skeleton, or gives why it is refused.
    fn speak(&mut self, ask: Ask, value: &[u8]) -> Option<Refusal> {
        let given = &mut self.wanted.given;
        if ask == Ask::Language {
            let language = language_of(value);
            given.language = language.or(given.language);
            return language.is_none().then_some(Refusal::Language);
        }
        let skeleton = skeleton_of(value);
        given.skeleton = skeleton.or(given.skeleton);
        skeleton.is_none().then_some(Refusal::Skeleton)
    }

    /// Does what the other options ask for.
    fn obey_further(&mut self, option: Waiting<'a>, value: &'a str) -> Result<(), Wrong<'a>> {
        let ask = option.ask;
        let why = match ask {
            Ask::Define => {
                self.wanted.define(b'D', value)?;
                return Ok(());
            }
            Ask::Force => {
                self.wanted.define(b'F', value)?;
                return Ok(());
            }
            Ask::Kinds => match self.wanted.given.kinds.take(value) {
                Ok(()) => return Ok(()),
                Err(why) => return Err(Wrong::Word("-W", value, why)),
            },
            Ask::Features => {
                let mut features = value.split(',');
                let is_dry = features.any(|it| matches!(it, "syntax-only" | "all" | ""));
                self.wanted.given.dry |= is_dry;
                return Ok(());
            }
            Ask::Language | Ask::Skeleton => match self.speak(ask, value.as_bytes()) {
                None => return Ok(()),
                Some(refusal) => refusal.text(),
            },
            Ask::Things => match self.wanted.given.take_things(value) {
                true => return Ok(()),
                false => "a report has none, states, itemsets, lookaheads, solved, all",
            },
            Ask::Refused(why) => why,
            Ask::Help | Ask::Version | Ask::DataFolder | Ask::LocaleFolder => {
                self.text = self.text.or(Some(ask));
                return Ok(());
            }
            _ => return Ok(()),
        };
        Err(Wrong::Word(option.dashes, option.name, why))
    }

    /// Reads the letters of a word.
    fn read_letters(&mut self, letters: &'a str) -> Result<(), Wrong<'a>> {
        let is_bison = self.wanted.given.bison;
        for (at, letter) in letters.char_indices() {
            let end = at.saturating_add(letter.len_utf8());
            let name = letters.get(at..end).unwrap_or("");
            let after = letters.get(end..).unwrap_or("");
            let Some((_, _, _, has, ask, _)) = option_of(letter, is_bison) else {
                return Err(Wrong::Word("-", name, "there is no such option"));
            };
            let dashes = "-";
            let option = Waiting { ask, dashes, name };
            match has {
                Has::Nothing => self.obey(option, "")?,
                Has::Value(_) if after.is_empty() && !matches!(ask, Ask::Refused(_)) => {
                    self.waiting = Some(option);
                    return Ok(());
                }
                Has::Value(_) | Has::Perhaps(_) => return self.obey(option, after),
            }
        }
        Ok(())
    }

    /// Reads a long name, and a value after an equals sign.
    fn read_long(&mut self, word: &'a str) -> Result<(), Wrong<'a>> {
        let (name, value) = match word.split_once('=') {
            Some((name, value)) => (name, Some(value)),
            None => (word, None),
        };
        let (_, _, _, has, ask, _) = match option_named(name) {
            Found::One(known) => known,
            Found::Several => {
                return Err(Wrong::Word("--", name, "several options begin so"));
            }
            Found::None => return Err(Wrong::Word("--", name, "there is no such option")),
        };
        let dashes = "--";
        let option = Waiting { ask, dashes, name };
        match (has, value) {
            (Has::Nothing, Some(_)) => Err(Wrong::Word(dashes, name, "it has no value")),
            (Has::Value(_), None) if !matches!(ask, Ask::Refused(_)) => {
                self.waiting = Some(option);
                Ok(())
            }
            (_, value) => self.obey(option, value.unwrap_or("")),
        }
    }

    /// Reads a word.
    fn read(&mut self, word: &'a str) -> Result<(), Wrong<'a>> {
        if let Some(option) = self.waiting {
            self.waiting = None;
            return self.obey(option, word);
        }
        let is_option = !self.is_past && word.len() > 1;
        if is_option && word == "--" {
            self.is_past = true;
            return Ok(());
        }
        match (word.strip_prefix("--"), word.strip_prefix('-')) {
            (Some(long), _) if is_option => self.read_long(long),
            (None, Some(letters)) if is_option => self.read_letters(letters),
            _ if self.has_grammar => Err(Wrong::Word("", word, "there is a grammar already")),
            _ => {
                self.has_grammar = true;
                self.wanted.given.grammar = word;
                Ok(())
            }
        }
    }
}

/// What words ask for, of which the first is the program's name.
pub fn asked_by<'a>(alloc: Global, words: &'a [String]) -> Result<Asked<'a>, Wrong<'a>> {
    let mut reader = Reader {
        wanted: Wanted::none(alloc, is_bison(words)),
        has_grammar: false,
        is_past: false,
        waiting: None,
        text: None,
    };
    for word in words.iter().skip(1) {
        reader.read(word.as_str())?;
        match reader.text {
            Some(Ask::Help) => return Ok(Asked::Help),
            Some(Ask::Version) => return Ok(Asked::Text(VERSION)),
            Some(Ask::DataFolder) => return Ok(Asked::Text(DATA_FOLDER)),
            Some(_) => return Ok(Asked::Text(LOCALE_FOLDER)),
            None => {}
        }
    }
    if let Some(option) = reader.waiting {
        return Err(Wrong::Word(option.dashes, option.name, "it needs a value"));
    }
    if !reader.has_grammar {
        return Err(Wrong::NoGrammar);
    }
    let bison = reader.wanted.given.bison;
    Ok(Asked::Files(mem::replace(&mut reader.wanted, Wanted::none(alloc, bison))))
}
