//! The parts of a file of byacc or bison.

use crate::gather::Gather;
use crate::options::Language;
use crate::parts::{By, Defined, Named, Parts, Piece, Target};
use crate::refusal::{Refusal, Refused};
use crate::words::is_only_bison;
use std::alloc::Global;
use std::mem;
use yexplain::lines::is_inner;
use yexplain::reads::{Made, left_of};
use yforeign::directive::Directive;
use yforeign::groups::{Group, Head, groups_of};
use yforeign::lexeme::Lexeme;
use yimport::import::Imported;
use ysymbols::Grammar;

/// Refuses a variable with the type of values where these have a union.
fn refuse_types<'a>(parts: &mut Parts<'a>, all: &[Defined<'a>]) -> Made<()> {
    let mut has_union = false;
    for block in &parts.blocks {
        has_union = has_union || block.target == Target::Union;
    }
    for defined in all {
        if has_union && defined.name == b"api.value.type".as_slice() {
            let refused = Refused::new(Refusal::Values, defined.at, defined.name);
            parts.refused.push(refused)?;
        }
    }
    Ok(())
}

/// Refuses the variables that a parser of this language doesn't have.
fn refuse_variables<'a>(parts: &mut Parts<'a>, all: &[Defined<'a>]) -> Made<()> {
    for defined in all {
        if let Some(refusal) = parts.options.refusal_of(defined.name) {
            let mut refused = Refused::new(refusal, defined.at, defined.name);
            refused.value = defined.value;
            parts.refused.push(refused)?;
        }
    }
    Ok(())
}

impl<'a> Gather<'a, '_> {
    /// Takes in a declaration.
    fn take_declaration(&mut self, directive: Directive, lexemes: &[Lexeme]) -> Made<()> {
        let Some((first, rest)) = lexemes.split_first() else {
            return Ok(());
        };
        let word = first.text(self.source);
        let options = &mut self.parts.options;
        options.is_bison = options.is_bison || is_only_bison(word);
        match directive {
            Directive::Type | Directive::Nterm => self.take_list(rest, By::Name),
            directive if directive.names_tokens() => self.take_list(rest, By::Token),
            directive if directive.is_level() => self.take_list(rest, By::Name),
            Directive::Union => self.take_union(rest),
            _ => self.take_aside(first, rest),
        }
    }

    /// Takes in a group; after the second mark stands the rest of the file.
    fn take(&mut self, group: &Group<'_>) -> Made<()> {
        let Some(first) = group.lexemes.first() else {
            return Ok(());
        };
        match group.head {
            Head::Word(directive) => {
                // byacc has declarations before the rules alone
                self.parts.options.is_bison = self.parts.options.is_bison || group.in_rules;
                self.take_declaration(directive, group.lexemes)?;
            }
            Head::Code => self.take_block(first)?,
            Head::Left => self.take_rule(group.lexemes)?,
            Head::Bar => {
                self.take_body(group.lexemes.get(1..).unwrap_or(&[]), first.span.line)?;
            }
            Head::Mark if group.in_rules => {
                let at = first.span.to;
                let text = self.source.get(at..).unwrap_or(&[]);
                let line = first.span.line;
                self.parts.tail = Some(Piece { text, at, line });
            }
            Head::Mark | Head::Stray => {}
        }
        Ok(())
    }

    /// Gives the values of inner actions the tags that these give themselves.
    fn tag_actions(&mut self) {
        for number in 0..self.parts.actions.len() {
            let Some(action) = self.parts.actions.get(number).copied() else {
                continue;
            };
            let left = left_of(self.grammar, action.rule);
            let tag = self.action_tags.get(number).copied().flatten();
            if let (Some(left), Some(tag)) = (left, tag) {
                if is_inner(self.grammar, action.rule) {
                    self.parts.give_tag(left, tag);
                }
            }
        }
    }

    /// Refuses what bison doesn't take beside each other, in a file of bison.
    fn refuse_doubles(&mut self) -> Made<()> {
        refuse_types(&mut self.parts, &self.defined)?;
        if self.parts.options.raw {
            for at in &self.literals {
                let refused = Refused::new(Refusal::Literal, *at, b"");
                self.parts.refused.push(refused)?;
            }
        }
        if self.parts.options.is_bison {
            for second in &self.second {
                self.parts.refused.push(*second)?;
            }
        }
        Ok(())
    }

    /// Takes in all groups, where words may wish for another language.
    fn take_all(&mut self, groups: &[Group<'_>], wished: Wished) -> Made<()> {
        for group in groups {
            self.take(group)?;
        }
        let options = &mut self.parts.options;
        options.language = wished.language.or(options.language);
        options.skeleton = wished.skeleton.or(options.skeleton);
        self.refuse_doubles()?;
        refuse_variables(&mut self.parts, &self.defined)?;
        self.parts.refused.sort_by_key(|it| it.at)?;
        self.label_all()?;
        let actions = mem::replace(&mut self.actions, Vec::new(self.alloc));
        self.parts.set_actions(self.grammar, &actions)?;
        self.parts.defined = mem::replace(&mut self.defined, Vec::new(self.alloc));
        self.tag_actions();
        Ok(())
    }
}

/// What words wish of a file as if it said so.
#[derive(Clone, Copy)]
pub struct Wished {
    /// Whether it is one of bison, whatever it has.
    pub is_bison: bool,
    /// The language, in place of the file's.
    pub language: Option<Language>,
    /// That of the skeleton, in place of the file's.
    pub skeleton: Option<Language>,
}

/// The parts of a file that became a text of this grammar by this import, where words wish so.
pub fn parts_of<'a, 'b>(
    alloc: Global,
    source: &'a [u8],
    grammar: &'b Grammar,
    imported: &'b Imported,
    wished: Wished,
) -> Made<Parts<'a>> {
    let groups = groups_of(alloc, source, &imported.lexemes)?;
    let mut gather = Gather {
        alloc,
        source,
        grammar,
        imported,
        parts: Parts::new(alloc, grammar.symbols())?,
        actions: Vec::new(alloc),
        action_tags: Vec::new(alloc),
        left: Named {
            name: source.get(..0).unwrap_or(&[]),
            symbol: source.get(..0).unwrap_or(&[]),
            place: 0,
        },
        defined: Vec::new(alloc),
        literals: Vec::new(alloc),
        second: Vec::new(alloc),
    };
    gather.parts.options.is_bison = wished.is_bison;
    gather.take_all(&groups, wished)?;
    let empty = Parts::new(alloc, 0)?;
    Ok(mem::replace(&mut gather.parts, empty))
}
