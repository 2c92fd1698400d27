//! Tests for mistakes, each over one list of the file. An answer is a place: how many bytes stand
//! before the first name at fault; or `None` where there is no such mistake.

ghost use Rattle.std.specs.Prelude.{◌≡◌, ◌||◌, ◌&&◌, None, Some, is_some, length, map, nat_le};
ghost use Rattle.std.specs.Prelude.{nat_lt, not, IfSome};
ghost use Rattle.std.specs.List.{find, last_or, list_any};
ghost use Rattle.ysymbols.specs.Names.{is_among, number_in};
ghost use Rattle.ydeclarations.specs.Printed.{printed_name};
ghost use Rattle.ygrammar.specs.Numbered.{is_between, is_long};
ghost use Rattle.ydeclarations.specs.Outline.{start_view};
ghost use Rattle.ysyntax.specs.TreeViews.{identifier_view, occurrence_view, name_view};
ghost use Rattle.ysymbols.specs.Sources.{option_view};

use ydeclarations::identifiers::{is_named, number_of};
use ydeclarations::outline::Started;
use ysymbols::Rule;
use ysymbols::limits::LONGEST_BODY;
use ysymbols::names::{SymbolTable, is_among};
use ysyntax::tree::{Identifier, NameAt, Occurrence};

/// The place of the first of these names that is a token.
pub fn first_token(names: &[NameAt], tokens: &SymbolTable) -> Option<usize>
    ensures { result
        ≡ option_view (λ n. n.at) (find (λ n. is_among tokens.now (name_view n))
        names.now) }
{
    for name in names {
        if is_among(tokens, name.name) {
            return Some(name.at);
        }
    }
    None
}

/// The place of the first of these names that is not a symbol.
pub fn first_unknown(names: &[NameAt], symbols: &SymbolTable) -> Option<usize>
    ensures { result
        ≡ option_view (λ n. n.at) (find (λ n. not (is_among symbols.now (name_view n)))
        names.now) }
{
    for name in names {
        if !is_among(symbols, name.name) {
            return Some(name.at);
        }
    }
    None
}

/// The place of the first of these names and literals that is not a symbol.
pub fn first_undefined(occurrences: &[Occurrence], symbols: &SymbolTable) -> Option<usize>
    ensures { result
        ≡ option_view (λ m. m.at)
        (find (λ m. not (is_among symbols.now (printed_name (occurrence_view m))))
        occurrences.now) }
{
    for one in occurrences {
        if !is_named(symbols, one.who) {
            return Some(one.at);
        }
    }
    None
}

/// Whether a name or literal is a symbol, and not one of the first `tokens`.
fn is_nonterminal(who: Identifier, symbols: &SymbolTable, tokens: usize) -> bool
    ensures { result
        ≡ is_between tokens (length symbols.now)
        (number_in symbols.now (printed_name (identifier_view who.entry))) }
{
    let number = number_of(symbols, who);
    tokens <= number && number < symbols.len()
}

/// The place of the first of these names and literals that is a nonterminal.
pub fn first_nonterminal(
    occurrences: &[Occurrence],
    symbols: &SymbolTable,
    tokens: usize,
) -> Option<usize>
    ensures { result
        ≡ option_view (λ m. m.at)
        (find (λ m. is_between tokens (length symbols.now)
        (number_in symbols.now (printed_name (occurrence_view m)))) occurrences.now) }
{
    for one in occurrences {
        if is_nonterminal(one.who, symbols, tokens) {
            return Some(one.at);
        }
    }
    None
}

/// The place of the last `%start`, where `%start` stands twice or names no nonterminal.
pub fn bad_start(starts: &[Started], symbols: &SymbolTable, tokens: usize) -> Option<usize>
    ensures found { is_some result
        ≡ (nat_le 2 (length starts.now)
        || list_any (λ i. not (is_between tokens (length symbols.now)
        (number_in symbols.now (printed_name i)))) (map start_view starts.now)) }
    ensures place { IfSome result (λ at. option_view (λ s. s.at) (last_or None starts.now)
        ≡ Some at) }
{
    match starts {
        [] => None,
        [one] => {
            if is_nonterminal(one.who.who, symbols, tokens) {
                None
            } else {
                Some(one.at)
            }
        }
        [.., last] => Some(last.at),
    }
}

/// Whether a rule's body is longer than the limit.
pub fn any_long(rules: &[Rule]) -> bool
    ensures { result ≡ list_any is_long rules.now }
{
    for rule in rules {
        if rule.body().len() > LONGEST_BODY {
            return true;
        }
    }
    false
}
