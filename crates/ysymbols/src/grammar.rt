//! The value that stands between the reader and the automaton: a grammar that is well formed.

ghost use Rattle.std.specs.Prelude.{◌≡◌, ◌<◌, ◌↔◌, [], None, IfOk, IsTrue, false, length};
ghost use Rattle.std.specs.Prelude.{slice_get, slice_index_or};
ghost use Rattle.ysymbols.specs.Forms.{MarksNullable};
ghost use Rattle.ysymbols.specs.Grammar.{IsToken, rule_of};
ghost use Rattle.ysymbols.specs.NameTexts.{value_of};
ghost use Rattle.ysymbols.specs.Names.{find_in, printed_literal};
ghost use Rattle.ysymbols.specs.Sources.{text_view};
ghost use Rattle.ysymbols.specs.WellFormed.{IsWhole, WellFormed};

use crate::let_go;
use crate::names::{Printed, SymbolTable};
use crate::precedence::Precedence;
use crate::productive::productive;
use crate::rule::{Rule, Sym};
use crate::texts::Texts;
use std::alloc::{AllocError, Global};
use std::marker::Model;

/// A grammar. Every grammar is well formed; the contract of `symbols` says what that means. It
/// owns its parts: the names, and one copy of the source, of which the kept texts are parts.
pub struct Grammar {
    /// The symbols by their printed names, the tokens first.
    names: SymbolTable,
    /// How many of the symbols are tokens.
    tokens: usize,
    /// The numbers of the tokens.
    numbers: Vec<u32>,
    /// The precedences of the tokens.
    precedences: Vec<Option<Precedence>>,
    /// The rules by number.
    rules: Vec<Rule>,
    /// The texts of the actions of the rules.
    action_texts: Texts,
    /// Which symbols can be reached.
    reachable: Vec<bool>,
}

impl Drop for Grammar {
    fn drop(self) {
        let_go!(self: Grammar {
            names, tokens, numbers, precedences, rules, action_texts, reachable
        });
    }
}

impl Model for Grammar {
    ghost use Rattle.ysymbols.specs.Grammar.{GrammarValue};
    ghost use Rattle.ysymbols.specs.NameTexts.{value_of};
    ghost use Rattle.ysymbols.specs.WellFormed.{IsWhole};

    ghost Value = { GrammarValue };

    ghost view = { λ g. value_of g.names g.tokens g.numbers.items g.precedences.items g.rules.items
        g.action_texts.texts g.reachable.items };

    ghost invariant = { λ g. IsWhole (value_of g.names g.tokens g.numbers.items g.precedences.items
        g.rules.items g.action_texts.texts g.reachable.items) };
}

impl Grammar {
    /// The grammar of these parts, which must be whole: what `symbols` promises holds of them.
    pub fn of(
        names: SymbolTable,
        tokens: usize,
        numbers: Vec<u32>,
        precedences: Vec<Option<Precedence>>,
        rules: Vec<Rule>,
        action_texts: Texts,
        reachable: Vec<bool>,
    ) -> Grammar
        requires { IsWhole (value_of names tokens numbers.items precedences.items rules.items
            action_texts.texts
            reachable.items) }
        ensures { result
            ≡ value_of names tokens numbers.items precedences.items rules.items action_texts.texts
            reachable.items }
    {
        Grammar {
            names,
            tokens,
            numbers,
            precedences,
            rules,
            action_texts,
            reachable,
        }
    }

    /// This call also says what every grammar keeps: its rules have symbols in range, rule 0 is
    /// `$accept : S $end`, every nonterminal derives a list of tokens, `$end` and `error` are the
    /// first two tokens, no two symbols share a name and no two tokens share a number.
    pub fn symbols(&self) -> usize
        ensures value { result ≡ self.now.bare.symbols }
        ensures well_formed { WellFormed self.now.bare }
        ensures whole { IsWhole self.now }
    {
        self.names.len()
    }

    /// Whether the symbol is a token. Tokens have the lowest numbers, from 0 on. Nonterminals, and
    /// numbers of no symbol, are not tokens.
    pub fn is_token(&self, s: Sym) -> bool
        ensures { IsTrue result ↔ IsToken self.now.bare s }
    {
        s < self.tokens
    }

    /// The printed name of a symbol below `symbols()`: a name as the file has it, a literal
    /// by its value, so that it has one name in all its spellings (POSIX yacc, "Lexical Structure
    /// of the Grammar").
    pub fn name(&self, s: Sym) -> &[u8]
        requires { s < self.now.bare.symbols }
        ensures { result.now ≡ slice_index_or self.now.names s [] }
    {
        match self.names.get(s) {
            Some(name) => name,
            None => b"",
        }
    }

    /// The symbol with this printed name, or `None` where no symbol has it.
    pub fn find(&self, name: &[u8]) -> Option<Sym>
        ensures { result ≡ find_in self.now.names name.now }
    {
        self.names.find(name)
    }

    /// The token that is the literal of this value, or `None` where the grammar lacks it.
    pub fn find_literal(&self, value: u8) -> Option<Sym>
        ensures { result ≡ find_in self.now.names (printed_literal value) }
    {
        self.find(Printed::new(value).as_slice())
    }

    /// The number of a token: the one that the file gives it, 1 to 32,767, or else 0 for `$end`,
    /// 256 for `error`, the value of a literal, and for others the least that is free from 257 on
    /// (POSIX yacc, "Declarations Section"). `None` for a nonterminal.
    pub fn number(&self, s: Sym) -> Option<u32>
        requires { s < self.now.bare.symbols }
        ensures { result ≡ slice_get self.now.numbers s }
    {
        self.numbers.get(s).copied()
    }

    /// The precedence that the file gives a token (POSIX yacc, "Declarations Section"). `None` for
    /// a token without one and for a nonterminal.
    pub fn precedence(&self, s: Sym) -> Option<Precedence>
        requires { s < self.now.bare.symbols }
        ensures { result ≡ slice_index_or self.now.token_precedences s None }
    {
        if s < self.precedences.len() {
            self.precedences[s]
        } else {
            None
        }
    }

    /// Whether the symbol below `symbols()` can be reached from the left side of rule 0 (Aho,
    /// Sethi, Ullman, section 4.2).
    pub fn reachable(&self, s: Sym) -> bool
        requires { s < self.now.bare.symbols }
        ensures { result ≡ slice_index_or self.now.reachable s false }
    {
        self.reachable[s]
    }

    /// For each symbol, by its number, whether it derives the empty form (Aho, Sethi, Ullman,
    /// section 4.4). It fails only when memory runs out.
    pub fn nullable(&self, alloc: Global) -> Result<Vec<bool>, AllocError>
        ensures { IfOk result (λ v. MarksNullable self.now.bare v.items) }
    {
        // Where nothing counts as a token, the only list of tokens is the empty one.
        productive(alloc, &self.rules, 0, self.symbols())
    }

    /// How many rules there are, `$accept : S $end` among them: 2 to 8,192.
    pub fn rules(&self) -> usize
        ensures { result ≡ length self.now.bare.rules }
    {
        self.rules.len()
    }

    /// The rule of a number below `rules()`. Rule 0 is `$accept : S $end`; the others stand in the
    /// order of the file, those of inner actions before the rule that they stand in.
    pub fn rule(&self, r: usize) -> &Rule
        requires { r < length self.now.bare.rules }
        ensures production { result.now.production ≡ rule_of self.now.bare r }
        ensures precedence { result.now.precedence
            ≡ slice_index_or self.now.rule_precedences r None }
    {
        &self.rules[r]
    }

    /// The kept text of the action of a rule below `rules()`, byte for byte with its braces (POSIX
    /// yacc, "Grammar Rules in yacc"). `None` for a rule without an action.
    pub fn action_text(&self, r: usize) -> Option<&[u8]>
        requires { r < length self.now.bare.rules }
        ensures { text_view result ≡ slice_index_or self.now.texts r None }
    {
        self.action_texts.get(r)
    }
}
