//! Texts for lists of tokens: a short one for each token, and between them what is passed over.
//! Each was tried with the lexer, which cuts it into exactly these tokens.

use crate::fault::TextFault;
use crate::lexer::Lexer;
use crate::sample::{Taste, sample_of};
use crate::spec::Case;
use crate::spelled::tree_of;
use regex::bytes::Regex;
use regex_hir::Hir;
use std::alloc::{AllocError, Global};
use std::io::{self, ErrorKind};
use yexplain::reads::{Made, name_of};
use ysymbols::{Grammar, Sym, let_go};

/// How many choices of an expression take other ways, one at a time, and how many ways each.
const MOST_CHOICES: usize = 12;

const MOST_WAYS: usize = 3;

/// What writes lists of tokens as texts.
pub struct Writer {
    /// What cuts the texts.
    pub lexer: Lexer,
    /// The text of each token, where one is found.
    samples: Vec<Option<Vec<u8>>>,
    /// What may stand between tokens, in the order in which it is tried; nothing is the last.
    pub separators: Vec<Vec<u8>>,
}

impl Drop for Writer {
    // A call in each owner, which keeps their proofs short.
    fn drop(self) {
        let_go!(self: Writer { lexer, samples, separators });
    }
}

/// What texts are tried with.
#[derive(Clone, Copy)]
struct Trial<'a> {
    alloc: Global,
    grammar: &'a Grammar,
    lexer: &'a Lexer,
}

impl Trial<'_> {
    /// Whether a text is cut into exactly these tokens.
    fn is_cut(self, text: &[u8], tokens: &[Sym]) -> io::Result<bool> {
        match self.lexer.lex(self.alloc, self.grammar, text) {
            Ok(lexed) => Ok(lexed.tokens.symbols.as_slice() == tokens),
            Err(TextFault::Memory) => Err(io::Error::from(ErrorKind::OutOfMemory)),
            Err(TextFault::Unmatched(_) | TextFault::TooMany(_)) => Ok(false),
        }
    }

    /// The text of a tree by a taste, where it is cut into what is wanted.
    fn by_taste(self, tree: &Hir, taste: Taste, wanted: &[Sym]) -> io::Result<Option<Vec<u8>>> {
        let Some(sample) = sample_of(self.alloc, tree, taste)? else {
            return Ok(None);
        };
        let is_new = taste.choice.map_or(true, |choice| choice < sample.choices);
        if is_new && !sample.text.is_empty() && self.is_cut(&sample.text, wanted)? {
            Ok(Some(sample.text))
        } else {
            Ok(None)
        }
    }

    /// A text of an expression that is cut into what is wanted, where one is found: with the first
    /// way at each choice, or another way at one of the first choices, or at all.
    fn by_regex(self, regex: &Regex, wanted: &[Sym]) -> io::Result<Option<Vec<u8>>> {
        let Some(tree) = tree_of(self.alloc, regex.as_str())? else {
            return Ok(None);
        };
        let choice = None;
        let first = self.by_taste(&tree, Taste { choice, way: 0 }, wanted)?;
        if first.is_some() {
            return Ok(first);
        }
        for way in 1..=MOST_WAYS {
            for number in 0..=MOST_CHOICES {
                let choice = if number < MOST_CHOICES {
                    Some(number)
                } else {
                    None
                };
                let found = self.by_taste(&tree, Taste { choice, way }, wanted)?;
                if found.is_some() {
                    return Ok(found);
                }
            }
        }
        Ok(None)
    }

    /// How a token is spelled that stands for itself.
    fn own_text(self, token: Sym) -> Made<Option<Vec<u8>>> {
        let mut literals = (0..=255u8).zip(&self.lexer.literals);
        if let Some((byte, _)) = literals.find(|(_, it)| **it == Some(token)) {
            return Vec::from_slice(self.alloc, &[byte]).map(Some);
        }
        let mut words = self.lexer.words.iter();
        let Some(word) = words.find(|word| word.token == token) else {
            return Ok(None);
        };
        let mut text = Vec::from_slice(self.alloc, name_of(self.grammar, token))?;
        if word.case == Case::Small {
            text.make_ascii_lowercase();
        }
        Ok(Some(text))
    }

    /// The text of a token, where one is found: its own, or one of a line that gives it.
    fn sample(self, token: Sym) -> io::Result<Option<Vec<u8>>> {
        if let Some(text) = self.own_text(token)? {
            if self.is_cut(&text, &[token])? {
                return Ok(Some(text));
            }
        }
        for (place, regex) in self.lexer.regexes.iter().enumerate() {
            if self.lexer.tokens.get(place) == Some(&Some(token)) {
                let found = self.by_regex(regex, &[token])?;
                if found.is_some() {
                    return Ok(found);
                }
            }
        }
        Ok(None)
    }

    /// Adds a separator, where it is passed over.
    fn add_passed(self, separators: &mut Vec<Vec<u8>>, text: &[u8]) -> io::Result<()> {
        if self.is_cut(text, &[])? {
            let text = Vec::from_slice(self.alloc, text)?;
            separators.push(text).map_err(AllocError::from)?;
        }
        Ok(())
    }

    /// What may stand between tokens.
    fn separators(self) -> io::Result<Vec<Vec<u8>>> {
        let mut separators = Vec::new(self.alloc);
        self.add_passed(&mut separators, b" ")?;
        self.add_passed(&mut separators, b"\t")?;
        if separators.is_empty() {
            for (place, regex) in self.lexer.regexes.iter().enumerate() {
                if self.lexer.tokens.get(place) != Some(&None) {
                    continue;
                }
                if let Some(text) = self.by_regex(regex, &[])? {
                    separators.push(text).map_err(AllocError::from)?;
                }
            }
            self.add_passed(&mut separators, b"\n")?;
        }
        self.add_passed(&mut separators, b"")?;
        Ok(separators)
    }
}

impl Writer {
    /// What writes texts that this lexer cuts into tokens of a grammar.
    pub fn new(alloc: Global, grammar: &Grammar, lexer: Lexer) -> io::Result<Writer> {
        let trial = Trial {
            alloc,
            grammar,
            lexer: &lexer,
        };
        let mut samples = Vec::new(alloc);
        for token in 0..grammar.symbols() {
            let sample = trial.sample(token)?;
            samples.push(sample).map_err(AllocError::from)?;
        }
        let separators = trial.separators()?;
        Ok(Writer {
            lexer,
            samples,
            separators,
        })
    }

    /// Whether a text is found for a token.
    pub fn tells(&self, token: Sym) -> bool {
        self.samples
            .get(token)
            .map_or(false, |sample| sample.is_some())
    }

    /// The texts of tokens with a separator between them, which is still to be tried; `None` where
    /// a token has no text.
    pub fn joined(&self, alloc: Global, tokens: &[Sym], separator: &[u8]) -> Made<Option<Vec<u8>>> {
        let mut text = Vec::new(alloc);
        for (index, token) in tokens.iter().enumerate() {
            let Some(Some(sample)) = self.samples.get(*token) else {
                return Ok(None);
            };
            if index > 0 {
                text.extend_from_slice(separator)?;
            }
            text.extend_from_slice(sample)?;
        }
        Ok(Some(text))
    }

    /// A text that is cut into exactly these tokens, where one is found.
    pub fn text(
        &self,
        alloc: Global,
        grammar: &Grammar,
        tokens: &[Sym],
    ) -> io::Result<Option<Vec<u8>>> {
        let trial = Trial {
            alloc,
            grammar,
            lexer: &self.lexer,
        };
        for separator in &self.separators {
            if let Some(text) = self.joined(alloc, tokens, separator)? {
                if trial.is_cut(&text, tokens)? {
                    return Ok(Some(text));
                }
            }
        }
        Ok(None)
    }

    /// A text of these tokens as a file has it: with a newline at its end, where that is passed
    /// over.
    pub fn filed(
        &self,
        alloc: Global,
        grammar: &Grammar,
        text: &[u8],
        tokens: &[Sym],
    ) -> io::Result<Vec<u8>> {
        let trial = Trial {
            alloc,
            grammar,
            lexer: &self.lexer,
        };
        let mut filed = Vec::from_slice(alloc, text)?;
        filed.push(b'\n')?;
        if !trial.is_cut(&filed, tokens)? {
            filed.pop();
        }
        Ok(filed)
    }
}
