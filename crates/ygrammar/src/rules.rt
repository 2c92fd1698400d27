//! The rules of a file by number.

ghost use Rattle.std.specs.Prelude.{◌≡◌, ◌<◌, ◌^◌, ◌++◌, ◌∷◌, [], ℕ, List, Option, map, length};
ghost use Rattle.std.specs.Prelude.{codes, IfOk, IfSome, OnOk};
ghost use Rattle.std.specs.List.{flat_map, AllByRecursion};
ghost use Rattle.ydeclarations.specs.Elaboration.{body_from, final_of, first_rule, inner_name};
ghost use Rattle.ydeclarations.specs.Elaboration.{inner_rule, or_else, precedence_at, rule_left};
ghost use Rattle.ydeclarations.specs.Elaboration.{rules, rules_from, start_symbol};
ghost use Rattle.ysymbols.specs.Names.{with_names, number_in};
ghost use Rattle.ydeclarations.specs.Outline.{start_view};
ghost use Rattle.ygrammar.specs.Numbered.{chosen_token, inner_after, inner_numbers, last_token};
ghost use Rattle.ygrammar.specs.Numbered.{rule_numbers};
ghost use Rattle.ygrammar.specs.Texts.{texts_of_rule};
ghost use Rattle.ysyntax.specs.TreeTexts.{RuleTextStands, BodyPartStands, StandsAt};
ghost use Rattle.ygrammar.specs.Texts.{body_part_texts};
ghost use Rattle.ygrammar.specs.Texts.{kept_text};
ghost use Rattle.ysyntax.specs.TreeViews.{braced_view, rule_text_view, body_part_view};
ghost use Rattle.ysyntax.specs.TreeViews.{occurrence_view};
ghost use Rattle.ysyntax.specs.TreeViews.{name_view, tree_view};
ghost use Rattle.ysymbols.specs.Sources.{option_view};

use itoa::Buffer;
use std::alloc::{AllocError, Global};
use ydeclarations::identifiers::number_of;
use ydeclarations::outline::{Outline, Started};
use ysymbols::names::{SymbolTable, intern, number_in};
use ysymbols::texts::{Span, Texts};
use ysymbols::{Precedence, Rule, Sym};
use ysyntax::tree::{BodyPart, BracedText, NameAt, Occurrence, RuleText, Tree};

/// The name of the nonterminal of the k-th inner action.
fn inner_name(alloc: Global, k: usize) -> Result<Vec<u8>, AllocError>
    ensures { IfOk result (λ v. v.items ≡ inner_name k) }
{
    let mut buffer = Buffer::new();
    let mut name = Vec::from_slice(alloc, b"$$")?;
    name.extend_from_slice(buffer.format(k).as_bytes())?;
    Ok(name)
}

/// A body without its final action, and that action: the one after the precedence, or else the
/// last part of the body.
fn final_parts<'t, 'a>(rule_text: &'t RuleText<'a>) -> (&'t [BodyPart<'a>], Option<BracedText<'a>>)
    ensures items { map body_part_view result.0.now
        ≡ (final_of (rule_text_view rule_text.now).last (rule_text_view rule_text.now).body).0 }
    ensures text { option_view braced_view result.1
        ≡ (final_of (rule_text_view rule_text.now).last (rule_text_view rule_text.now).body).1 }
    ensures stands { (source : List ℕ) → RuleTextStands source rule_text.now →
        AllByRecursion (BodyPartStands source) result.0.now
        × IfSome result.1 (λ b. StandsAt source b) }
{
    let body = rule_text.body.as_slice();
    match rule_text.last {
        Some(text) => (body, Some(text)),
        None => match body.split_last() {
            Some((BodyPart::Action(text), rest)) => (rest, Some(*text)),
            Some((BodyPart::Symbol(_), _)) => (body, None),
            None => (body, None),
        },
    }
}

/// Adds the nonterminals of the inner actions, numbered from `k` on, and answers the next such
/// number.
fn intern_inner(
    alloc: Global,
    names: &mut SymbolTable,
    items: &[BodyPart],
    k: usize,
) -> Result<usize, AllocError>
    requires { (body_from k (map body_part_view items.now)).next < 2 ^ 64 }
    ensures names { OnOk result (names.new
        ≡ with_names names.old
        (map rule_left (body_from k (map body_part_view items.now)).inner)) }
    ensures next { IfOk result (λ n. n ≡ (body_from k (map body_part_view items.now)).next) }
{
    let mut next = k;
    for item in items {
        if let BodyPart::Action(_) = item {
            let name = inner_name(alloc, next)?;
            intern(alloc, names, &name)?;
            next += 1;
        }
    }
    Ok(next)
}

/// The left side of a rule, where `before` is that of the rule before it.
fn left_name<'a>(rule_text: &RuleText<'a>, before: &'a [u8]) -> &'a [u8]
    ensures { result.now ≡ or_else (option_view name_view rule_text.now.left) before.now }
{
    match rule_text.left {
        Some(left) => left.name,
        None => before,
    }
}

fn intern_lefts(
    alloc: Global,
    names: &mut SymbolTable,
    rule_texts: &[RuleText],
) -> Result<(), AllocError>
    requires { inner_after 1 (map rule_text_view rule_texts.now) < 2 ^ 64 }
    ensures { OnOk result (names.new
        ≡ with_names names.old
        (map rule_left (rules_from [] 1 (map rule_text_view rule_texts.now)))) }
{
    let mut before: &[u8] = b"";
    let mut next: usize = 1;
    for rule_text in rule_texts {
        let (items, _) = final_parts(rule_text);
        next = intern_inner(alloc, names, items, next)?;
        before = left_name(rule_text, before);
        intern(alloc, names, before)?;
    }
    Ok(())
}

/// Adds the nonterminals in the order of their first rules. It fails only when memory runs out.
pub fn intern_nonterminals(
    alloc: Global,
    names: &mut SymbolTable,
    rule_texts: &[RuleText],
) -> Result<(), AllocError>
    requires { inner_after 1 (map rule_text_view rule_texts.now) < 2 ^ 64 }
    ensures { OnOk result (names.new
        ≡ with_names names.old (codes "$accept"
        ∷ map rule_left (rules_from [] 1 (map rule_text_view rule_texts.now)))) }
{
    intern(alloc, names, b"$accept")?;
    intern_lefts(alloc, names, rule_texts)
}

/// Adds the rule of an inner action, and answers its left side.
fn push_inner(
    alloc: Global,
    names: &SymbolTable,
    k: usize,
    rules: &mut Vec<Rule>,
) -> Result<Sym, AllocError>
    ensures rules { OnOk result (rules.new.items
        ≡ rules.old.items ++ inner_numbers names.now (inner_rule k []) ∷ []) }
    ensures left { IfOk result (λ s. s ≡ number_in names.now (inner_name k)) }
{
    let name = inner_name(alloc, k)?;
    let left = number_in(names, &name);
    rules.push(Rule::of(left, Vec::new(alloc), None))?;
    Ok(left)
}

/// A body by number, and the number of the next inner action.
#[derive(Drop)]
struct NumberedBody {
    symbols: Vec<Sym>,
    next: usize,
}

impl NumberedBody {
    /// Adds a part of a body; the rule of an inner action is added to `rules`.
    fn push(
        &mut self,
        alloc: Global,
        names: &SymbolTable,
        part: &BodyPart,
        rules: &mut Vec<Rule>,
    ) -> Result<(), AllocError>
        requires { (body_from self.old.next (body_part_view part.now ∷ [])).next < 2 ^ 64 }
        ensures rules { OnOk result (rules.new.items
            ≡ rules.old.items
            ++ map (inner_numbers names.now)
            (body_from self.old.next (body_part_view part.now ∷ [])).inner) }
        ensures symbols { OnOk result (self.new.symbols.items
            ≡ self.old.symbols.items
            ++ map (number_in names.now)
            (body_from self.old.next (body_part_view part.now ∷ [])).symbols) }
        ensures next { OnOk result (self.new.next
            ≡ (body_from self.old.next (body_part_view part.now ∷ [])).next) }
    {
        match part {
            BodyPart::Symbol(occurrence) => self.symbols.push(number_of(names, occurrence.who))?,
            BodyPart::Action(_) => {
                self.symbols
                    .push(push_inner(alloc, names, self.next, rules)?)?;
                self.next += 1;
            }
        }
        Ok(())
    }
}

/// The symbols of a body; the rules of its inner actions, numbered from `k` on, are added to
/// `rules`.
fn number_body(
    alloc: Global,
    names: &SymbolTable,
    items: &[BodyPart],
    k: usize,
    rules: &mut Vec<Rule>,
) -> Result<NumberedBody, AllocError>
    requires { (body_from k (map body_part_view items.now)).next < 2 ^ 64 }
    ensures rules { OnOk result (rules.new.items
        ≡ rules.old.items
        ++ map (inner_numbers names.now)
        (body_from k (map body_part_view items.now)).inner) }
    ensures symbols { IfOk result (λ b. b.symbols.items
        ≡ map (number_in names.now) (body_from k (map body_part_view items.now)).symbols) }
    ensures next { IfOk result (λ b. b.next ≡ (body_from k (map body_part_view items.now)).next) }
{
    let mut body = NumberedBody {
        symbols: Vec::new(alloc),
        next: k,
    };
    for item in items {
        body.push(alloc, names, item, rules)?;
    }
    Ok(body)
}

/// The last token of a body, where the first `tokens` symbols are tokens.
fn last_token(tokens: usize, body: &[Sym]) -> Option<Sym>
    ensures { result ≡ last_token tokens body.now }
{
    let mut last = None;
    for s in body {
        if *s < tokens {
            last = Some(*s);
        }
    }
    last
}

/// The precedence of a rule: that of the token after its `%prec`, or else of the last token of
/// its body.
fn rule_precedence(
    names: &SymbolTable,
    given: &[Option<Precedence>],
    prec: Option<Occurrence>,
    body: &[Sym],
) -> Option<Precedence>
    ensures { result
        ≡ precedence_at given.now (chosen_token names.now (length given.now)
        (option_view occurrence_view prec.entry) body.now) }
{
    let token = match prec {
        Some(occurrence) => number_of(names, occurrence.who),
        None => last_token(given.len(), body)?,
    };
    if token < given.len() {
        given[token]
    } else {
        None
    }
}

/// Adds the rules of the file, those of inner actions before the rule that they stand in.
fn push_rules(
    alloc: Global,
    names: &SymbolTable,
    given: &[Option<Precedence>],
    rule_texts: &[RuleText],
    rules: &mut Vec<Rule>,
) -> Result<(), AllocError>
    requires { inner_after 1 (map rule_text_view rule_texts.now) < 2 ^ 64 }
    ensures { OnOk result (rules.new.items
        ≡ rules.old.items ++ map (rule_numbers names.now given.now)
        (rules_from [] 1 (map rule_text_view rule_texts.now))) }
{
    let mut before: &[u8] = b"";
    let mut next: usize = 1;
    for rule_text in rule_texts {
        let (items, _) = final_parts(rule_text);
        let body = number_body(alloc, names, items, next, rules)?;
        let precedence = rule_precedence(names, given, rule_text.prec, &body.symbols);
        before = left_name(rule_text, before);
        next = body.next;
        let left = number_in(names, before);
        rules.push(Rule::of(left, body.symbols, precedence))?;
    }
    Ok(())
}

/// Adds the kept text of the next rule, where it has one.
fn push_text(texts: &mut Texts, text: Option<BracedText>) -> Result<(), AllocError>
    requires { IfSome text (λ b. StandsAt texts.old.source b) }
    ensures { OnOk result (texts.new
        ≡ record texts.old {
          texts = texts.old.texts ++ option_view braced_view text.entry ∷ [];
        }) }
{
    let span = match text {
        Some(BracedText { text, at }) => Some(Span {
            start: at,
            len: text.len(),
        }),
        None => None,
    };
    texts.push(span)
}

/// Adds the kept texts of inner actions.
fn push_inner_texts(items: &[BodyPart], texts: &mut Texts) -> Result<(), AllocError>
    requires { AllByRecursion (BodyPartStands texts.old.source) items.now }
    ensures { OnOk result (texts.new
        ≡ record texts.old {
          texts = texts.old.texts ++ flat_map body_part_texts (map body_part_view items.now);
        }) }
{
    for item in items {
        if let BodyPart::Action(text) = item {
            push_text(texts, Some(*text))?;
        }
    }
    Ok(())
}

/// Adds the kept texts of the rules of the file.
fn push_texts(rule_texts: &[RuleText], texts: &mut Texts) -> Result<(), AllocError>
    requires { AllByRecursion (RuleTextStands texts.old.source) rule_texts.now }
    ensures { OnOk result (texts.new
        ≡ record texts.old {
          texts = texts.old.texts ++ flat_map texts_of_rule (map rule_text_view rule_texts.now);
        }) }
{
    for rule_text in rule_texts {
        let (items, text) = final_parts(rule_text);
        push_inner_texts(items, texts)?;
        push_text(texts, text)?;
    }
    Ok(())
}

/// The kept texts of the rules of a file. It fails only when memory runs out.
pub fn kept_texts(alloc: Global, source: &[u8], tree: &Tree) -> Result<Texts, AllocError>
    requires { AllByRecursion (RuleTextStands source.now) tree.now.rule_texts.items }
    ensures { IfOk result (λ t. t.texts ≡ map kept_text (rules (tree_view tree.now))) }
{
    let mut texts = Texts::new(alloc, source)?;
    push_text(&mut texts, None)?;
    push_texts(&tree.rule_texts, &mut texts)?;
    Ok(texts)
}

/// The number of the start symbol: the one that `%start` names, or the first left side.
fn start_symbol(names: &SymbolTable, starts: &[Started], lefts: &[NameAt]) -> Sym
    ensures { result
        ≡ number_in names.now
        (start_symbol (map start_view starts.now) (map name_view lefts.now)) }
{
    match starts {
        [first, ..] => number_of(names, first.who.who),
        [] => match lefts {
            [first, ..] => number_in(names, first.name),
            [] => number_in(names, b""),
        },
    }
}

/// The rule `$accept : S $end`.
fn first_rule(
    alloc: Global,
    names: &SymbolTable,
    given: &[Option<Precedence>],
    outline: &Outline,
) -> Result<Rule, AllocError>
    ensures { IfOk result (λ r. r
        ≡ rule_numbers names.now given.now
        (first_rule (map start_view outline.now.starts.items)
        (map name_view outline.now.lefts.items))) }
{
    let mut body = Vec::new(alloc);
    body.push(start_symbol(names, &outline.starts, &outline.lefts))?;
    body.push(number_in(names, b"$end"))?;
    let precedence = rule_precedence(names, given, None, &body);
    let left = number_in(names, b"$accept");
    Ok(Rule::of(left, body, precedence))
}

/// The rules of a file by number, with the precedences given to its tokens. It fails only when
/// memory runs out.
pub fn number_rules(
    alloc: Global,
    names: &SymbolTable,
    given: &[Option<Precedence>],
    outline: &Outline,
    rule_texts: &[RuleText],
) -> Result<Vec<Rule>, AllocError>
    requires { inner_after 1 (map rule_text_view rule_texts.now) < 2 ^ 64 }
    ensures { IfOk result (λ v. v.items
        ≡ map (rule_numbers names.now given.now)
        (first_rule (map start_view outline.now.starts.items)
        (map name_view outline.now.lefts.items) ∷ rules_from [] 1 (map rule_text_view
        rule_texts.now))) }
{
    let mut rules = Vec::new(alloc);
    rules.push(first_rule(alloc, names, given, outline)?)?;
    push_rules(alloc, names, given, rule_texts, &mut rules)?;
    Ok(rules)
}
