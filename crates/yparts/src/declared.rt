//! Declarations of a foreign file.

use crate::bodies::inner;
use crate::gather::Gather;
use crate::options::{Errors, Header, Options, Purity, language_of, skeleton_of};
use crate::params::param_at;
use crate::parts::{
    Block, By, Care, Deed, Defined, Mention, Numbered, Piece, Taker, Target, Whose,
};
use crate::refusal::{Refusal, Refused};
use crate::versions::required;
use crate::words::{Word, target_of, word_of};
use yexplain::reads::Made;
use yforeign::directive::{is_symbol, is_word};
use yforeign::lexeme::{Kind, Lexeme};
use yforeign::numbers::number_of;
use yforeign::survey::{inside, is_macro, is_text};

/// The text of a piece without so many signs at both ends.
fn between<'a>(piece: Piece<'a>, signs: usize) -> Piece<'a> {
    let end = piece.text.len().saturating_sub(signs);
    Piece {
        text: piece.text.get(signs..end).unwrap_or(&[]),
        at: piece.at.saturating_add(signs),
        line: piece.line,
    }
}

/// Where code for the same values stands before, the first of it.
fn care_before<'a>(cares: &[Care<'a>], deed: Deed, whose: Whose<'a>) -> Option<usize> {
    for care in cares {
        if care.deed == deed && care.whose == whose {
            return Some(care.piece.at);
        }
    }
    None
}

/// Where a variable has another value before, the last such place.
fn other_before(all: &[Defined<'_>], name: &[u8], value: &[u8]) -> Option<usize> {
    let mut before = None;
    for defined in all {
        if defined.name == name && defined.value != value {
            before = Some(defined.at);
        }
    }
    before
}

/// Sets an option as a directive asks for, which may have a string.
fn set_option<'a>(options: &mut Options<'a>, word: Word, string: Option<&'a [u8]>) {
    match word {
        Word::Pure => options.purity = Purity::Yes,
        Word::Locations => options.locations = true,
        Word::ErrorVerbose => options.errors = Errors::Verbose,
        Word::Trace => options.trace = true,
        Word::Names => options.has_names = true,
        Word::NoLines => options.no_lines = true,
        Word::Report => options.verbose = true,
        Word::Yacc => options.is_yacc = true,
        Word::Header => {
            options.header = match string {
                Some(path) => Header::At(path),
                None => Header::Beside,
            };
        }
        Word::Output => options.output = string,
        Word::FilePrefix => options.file_prefix = string,
        Word::NamePrefix => options.name_prefix = string,
        _ => {}
    }
}

impl<'a> Gather<'a, '_> {
    /// Takes in code for a place.
    fn take_text(&mut self, target: Target, piece: Piece<'a>) -> Made<()> {
        self.parts.blocks.push(Block { target, piece })?;
        Ok(())
    }

    /// Takes in a code block.
    pub fn take_block(&mut self, lexeme: &Lexeme) -> Made<()> {
        let piece = between(self.piece(lexeme), 2);
        self.take_text(Target::Prologue, piece)
    }

    /// The first lexeme of a kind, as a piece.
    fn first(&self, rest: &[Lexeme], kind: Kind) -> Option<Piece<'a>> {
        for lexeme in rest {
            if lexeme.kind == kind {
                return Some(self.piece(lexeme));
            }
        }
        None
    }

    /// The first string, without its quotes.
    fn string(&self, rest: &[Lexeme]) -> Option<&'a [u8]> {
        for lexeme in rest {
            if is_text(lexeme.kind) {
                return Some(inside(self.source, lexeme));
            }
        }
        None
    }

    /// Takes in `%union`.
    pub fn take_union(&mut self, rest: &[Lexeme]) -> Made<()> {
        if let Some(name) = self.first(rest, Kind::Name) {
            self.parts.options.union_name = Some(name.text);
        }
        match self.first(rest, Kind::Braced) {
            Some(piece) => self.take_text(Target::Union, piece),
            None => Ok(()),
        }
    }

    /// Takes in code with the word for its place, or without. `imports` has a place in Java alone,
    /// so it is left out, as byacc does; bison refuses it in C.
    fn take_code(&mut self, rest: &[Lexeme]) -> Made<()> {
        let Some(piece) = self.first(rest, Kind::Braced) else {
            return Ok(());
        };
        let target = match self.first(rest, Kind::Name) {
            Some(word) if is_word(word.text, "imports") => return Ok(()),
            Some(word) => match target_of(word.text) {
                Some(target) => target,
                None => {
                    let refused = Refused::new(Refusal::Qualifier, word.at, word.text);
                    return self.refuse(refused);
                }
            },
            None => Target::Code,
        };
        self.take_text(target, between(piece, 1))
    }

    /// Takes in all parameters of a directive, of which some stand between braces each time.
    fn take_params(&mut self, taker: Taker, rest: &[Lexeme]) -> Made<()> {
        for lexeme in rest {
            if lexeme.kind != Kind::Braced {
                continue;
            }
            let piece = self.piece(lexeme);
            let mut rest = inner(piece.text);
            // there is one parameter at least
            for turn in 0..piece.text.len() {
                if turn > 0 && rest.trim_ascii().is_empty() {
                    break;
                }
                let Some((param, after)) = param_at(taker, rest) else {
                    return self.refuse(Refused::new(Refusal::Parameter, piece.at, b""));
                };
                self.parts.params.push(param)?;
                rest = after;
            }
        }
        Ok(())
    }

    /// Whose values a lexeme means.
    fn whose(&self, lexeme: &Lexeme) -> Made<Option<Whose<'a>>> {
        if lexeme.kind == Kind::Tag {
            let tag = inner(lexeme.text(self.source));
            return Ok(Some(match tag {
                [] => Whose::Untagged,
                [b'*'] => Whose::Tagged,
                _ => Whose::Tag(tag),
            }));
        }
        if !is_symbol(lexeme.kind) {
            return Ok(None);
        }
        match self.symbol(lexeme)? {
            Some(symbol) => Ok(Some(Whose::Symbol(symbol))),
            None => Ok(None),
        }
    }

    /// Takes in code for the values of some symbols.
    fn take_care(&mut self, deed: Deed, rest: &[Lexeme]) -> Made<()> {
        let Some(piece) = self.first(rest, Kind::Braced) else {
            return Ok(());
        };
        for lexeme in rest {
            if let Some(whose) = self.whose(lexeme)? {
                if let Whose::Symbol(symbol) = whose {
                    let by = By::Name;
                    self.parts.mentioned.push(Mention { symbol, by })?;
                }
                let before = care_before(&self.parts.cares, deed, whose);
                if before.is_some() {
                    let name = lexeme.text(self.source);
                    let mut second = Refused::new(Refusal::SecondCare, piece.at, name);
                    second.value = match deed {
                        Deed::Destroy => b"%destructor".as_slice(),
                        Deed::Print => b"%printer".as_slice(),
                    };
                    second.before = before;
                    self.second.push(second)?;
                }
                self.parts.cares.push(Care { deed, whose, piece })?;
            }
        }
        Ok(())
    }

    /// Takes in a variable with its value, which may have the same value before.
    fn take_define(&mut self, at: usize, rest: &[Lexeme]) -> Made<()> {
        let Some((named, rest)) = rest.split_first() else {
            return Ok(());
        };
        let (mut value, mut is_code) = (self.source.get(..0).unwrap_or(&[]), false);
        if let Some(given) = rest.first() {
            is_code = given.kind == Kind::Braced;
            if is_code {
                value = inner(given.text(self.source));
            } else if is_text(given.kind) {
                value = inside(self.source, given);
            } else if given.kind == Kind::Name {
                value = given.text(self.source);
            }
        }
        let name = named.text(self.source);
        let before = other_before(&self.defined, name, value);
        if before.is_some() {
            let again = Refused::new(Refusal::Redefined, at, name);
            return self.refuse(Refused { before, ..again });
        }
        self.defined.push(Defined { name, value, at })?;
        match self.parts.options.define(name, value, is_code) {
            Ok(()) => Ok(()),
            Err(refusal) => {
                let refused = Refused::new(refusal, at, name);
                self.refuse(Refused { value, ..refused })
            }
        }
    }

    /// Takes in a language or a skeleton, of which there are two each.
    fn take_language(&mut self, rest: &[Lexeme], is_skeleton: bool) -> Made<()> {
        let (Some(named), Some(lexeme)) = (self.string(rest), rest.first()) else {
            return Ok(());
        };
        let options = &mut self.parts.options;
        let (found, refusal) = if is_skeleton {
            (skeleton_of(named), Refusal::Skeleton)
        } else {
            (language_of(named), Refusal::Language)
        };
        match found {
            None => self.refuse(Refused::new(refusal, lexeme.span.from, named))?,
            found if is_skeleton => options.skeleton = found,
            found => options.language = found,
        }
        Ok(())
    }

    /// Takes in the version that is required.
    fn take_version(&mut self, rest: &[Lexeme]) -> Made<()> {
        let (Some(version), Some(lexeme)) = (self.string(rest), rest.first()) else {
            return Ok(());
        };
        match required(version) {
            Ok(number) => {
                self.parts.options.required = number;
                Ok(())
            }
            Err(refusal) => self.refuse(Refused::new(refusal, lexeme.span.from, version)),
        }
    }

    /// Takes in a directive that stands for nothing in the grammar.
    pub fn take_aside(&mut self, word: &Lexeme, rest: &[Lexeme]) -> Made<()> {
        match word_of(word.text(self.source)) {
            Word::Code => self.take_code(rest),
            Word::Initial => match self.first(rest, Kind::Braced) {
                Some(piece) => self.take_text(Target::Initial, piece),
                None => Ok(()),
            },
            Word::Params(taker) => self.take_params(taker, rest),
            Word::Care(deed) => self.take_care(deed, rest),
            Word::Define => self.take_define(word.span.from, rest),
            Word::Language => self.take_language(rest, false),
            Word::Skeleton => self.take_language(rest, true),
            Word::Require => self.take_version(rest),
            word => {
                let string = self.string(rest);
                set_option(&mut self.parts.options, word, string);
                Ok(())
            }
        }
    }

    /// Takes in a list of symbols that it names so: each has the tag before it and the number after
    /// it.
    pub fn take_list(&mut self, rest: &[Lexeme], named: By) -> Made<()> {
        let mut tag = None;
        let mut token = None;
        for (at, lexeme) in rest.iter().enumerate() {
            let text = lexeme.text(self.source);
            self.see_lexeme(lexeme, false);
            if lexeme.kind == Kind::Tag {
                // byacc has one tag, the first of a list
                self.parts.options.is_bison = self.parts.options.is_bison || at > 0;
                tag = Some(inner(text));
            } else if lexeme.kind == Kind::Number {
                if let Some(token) = token {
                    let number = number_of(text);
                    self.parts.numbers.push(Numbered { token, number })?;
                }
            } else if is_symbol(lexeme.kind) && !is_macro(rest, at) {
                token = self.see_symbol(lexeme, tag, named)?;
            }
        }
        Ok(())
    }
}
