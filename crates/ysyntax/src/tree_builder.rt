//! The syntax tree of a grammar file's lexemes.
//!
//! Each function takes what it makes off the front of the lexemes, or answers `None` where another
//! piece stands there. Those for declarations and rules require that the lexemes go on as a
//! grammar file. So every lexeme fits, and only memory can run out.

ghost use Rattle.std.specs.Prelude.{ℕ, ◌≡◌, ◌++◌, ◌∷◌, ◌<◌, Bool, true, List, Option, map};
ghost use Rattle.std.specs.Prelude.{length, replicate, IfOk, IfSome, IsSome};
ghost use Rattle.std.specs.List.{flat_map, AllByRecursion};
ghost use Rattle.ylexemes.specs.declared.kind.Sign.TheVariants as sign;
ghost use Rattle.ylexemes.specs.declared.kind.Sign.TheVariants.{Mark, Greater, Semicolon, Start};
ghost use Rattle.ysyntax.specs.declared.recogniser.State.TheVariants.{Declarations};
ghost use Rattle.ysyntax.specs.declared.recogniser.State.TheVariants.{StartWord};
ghost use Rattle.ysyntax.specs.declared.recogniser.State.TheVariants.{UnionWord, ListWord};
ghost use Rattle.ysyntax.specs.declared.recogniser.State.TheVariants.{ListTagged, Listed};
ghost use Rattle.ysyntax.specs.declared.recogniser.State.TheVariants.{Numbered, TypeWord};
ghost use Rattle.ysyntax.specs.declared.recogniser.State.TheVariants.{TypeTagged};
ghost use Rattle.ysyntax.specs.declared.recogniser.State.TheVariants.{RulesMark, Body};
ghost use Rattle.ysyntax.specs.declared.recogniser.State.TheVariants.{Semicolons};
ghost use Rattle.ysyntax.specs.Answers.{StandIn, views};
ghost use Rattle.ysyntax.specs.TreeBuilder.{GoesOn, NoBodyPart, NoSign, Takes, TakesSign};
ghost use Rattle.ysyntax.specs.TreeBuilder.{TakesTag};
ghost use Rattle.ysyntax.specs.TreeBuilder.{place_of, DefinitionAt, IsRead, ReadsDeclaration};
ghost use Rattle.ysyntax.specs.TreeBuilder.{ReadsOrMark};
ghost use Rattle.ysyntax.specs.Lexer.{kinds};
ghost use Rattle.ylexemes.specs.Lexemes.{name, number, braced, fixed, sign_kind};
ghost use Rattle.ysyntax.specs.Recogniser.{run};
ghost use Rattle.ysyntax.specs.Syntax.{IsSpec};
ghost use Rattle.ysyntax.specs.Tree.{IsDefinition, IsRuleText, BeginsWithName, IsTree};
ghost use Rattle.ysyntax.specs.Tree.{identifier_yield, entry_yield, word_sign};
ghost use Rattle.ysyntax.specs.Tree.{definition_yield, body_part_yield, left_yield};
ghost use Rattle.ysyntax.specs.Tree.{end_yield, rule_text_yield, mark_yield, yield};
ghost use Rattle.ysyntax.specs.TreeTexts.{RuleTextStands, BodyPartStands, StandsAt};
ghost use Rattle.ysyntax.specs.TreeViews.{braced_view, name_view, occurrence_view, digits_view};
ghost use Rattle.ysyntax.specs.TreeViews.{word_view, entry_view, definition_view};
ghost use Rattle.ysyntax.specs.Sites.{each, mark, naming, prec_name, typed};
ghost use Rattle.ysyntax.specs.SiteViews.{body_part_sites, definition_sites, digits_mark};
ghost use Rattle.ysyntax.specs.SiteViews.{entry_sites, left_mark, left_marks, name_mark, name_site};
ghost use Rattle.ysyntax.specs.SiteViews.{named_in, occurrence_mark, occurrence_site, one};
ghost use Rattle.ysyntax.specs.SiteViews.{rule_text_sites, site_marks, tree_sites};
ghost use Rattle.ysyntax.specs.TreeViews.{body_part_view, rule_text_view, tree_view};
ghost use Rattle.ysymbols.specs.Sources.{option_view};

use crate::lexer::Placed;
use crate::tree::{
    BodyPart, BracedText, Definition, Digits, Entry, Identifier, Listing, NameAt, Occurrence,
    RuleText, Tree, Types, Word,
};
use std::alloc::{AllocError, Global};
use std::marker::Model;
use ylexemes::kind::Sign;
use ylexemes::part::Lexeme;

/// The lexemes that are not in the tree yet.
#[derive(Drop)]
struct TreeBuilder<'s, 'a> {
    rest: &'s [Placed<'a>],
}

impl<'s, 'a> Model for TreeBuilder<'s, 'a> {
    ghost use Rattle.std.specs.Prelude.{List};
    ghost use Rattle.ysyntax.specs.declared.lexer.Placed.{Placed};

    ghost Value = { List Placed };

    ghost view = { λ l. l.rest.now };
}

// Lexemes that may stand in front: each function takes one, unless a lexeme of another kind stands
// there.
impl<'a> TreeBuilder<'_, 'a> {
    fn name(&mut self) -> Option<NameAt<'a>>
        ensures place { IfSome result (λ n. n.at ≡ place_of self.old) }
        ensures taken { Takes name (option_view name_view result) (views self.old)
            (views self.new) }
        ensures sites { named_in self.old ≡ one name_mark result ++ named_in self.new }
    {
        let [first, rest @ ..] = self.rest else {
            return None;
        };
        match first.lexeme {
            Lexeme::Name(name) => {
                self.rest = rest;
                Some(NameAt { name, at: first.at })
            }
            _ => None,
        }
    }

    fn digits(&mut self) -> Option<Digits<'a>>
        ensures place { IfSome result (λ d. d.at ≡ place_of self.old) }
        ensures taken { Takes number (option_view digits_view result) (views self.old)
            (views self.new) }
        ensures sites { named_in self.old ≡ one digits_mark result ++ named_in self.new }
    {
        let [first, rest @ ..] = self.rest else {
            return None;
        };
        match first.lexeme {
            Lexeme::Number(digits) => {
                self.rest = rest;
                Some(Digits {
                    digits,
                    at: first.at,
                })
            }
            _ => None,
        }
    }

    fn text(&mut self) -> Option<BracedText<'a>>
        ensures taken { Takes braced (option_view braced_view result) (views self.old)
            (views self.new) }
        ensures sites { named_in self.old ≡ named_in self.new }
        ensures stands { (source : List ℕ) → StandIn source self.old →
            IfSome result (λ b. StandsAt source b) × StandIn source self.new }
    {
        let [first, rest @ ..] = self.rest else {
            return None;
        };
        match first.lexeme {
            Lexeme::Braced(text) => {
                self.rest = rest;
                Some(BracedText { text, at: first.at })
            }
            _ => None,
        }
    }

    fn occurrence(&mut self) -> Option<Occurrence<'a>>
        ensures place { IfSome result (λ m. m.at ≡ place_of self.old) }
        ensures taken { Takes identifier_yield (option_view occurrence_view result) (views self.old)
            (views self.new) }
        ensures sites { named_in self.old ≡ one occurrence_mark result ++ named_in self.new }
        ensures stands { (source : List ℕ) → StandIn source self.old → StandIn source self.new }
    {
        let [first, rest @ ..] = self.rest else {
            return None;
        };
        let who = match first.lexeme {
            Lexeme::Name(name) => Identifier::Named(name),
            Lexeme::Literal(value) => Identifier::Quoted(value),
            _ => return None,
        };
        self.rest = rest;
        Some(Occurrence { who, at: first.at })
    }

    fn item(&mut self) -> Option<BodyPart<'a>>
        ensures taken { Takes body_part_yield (option_view body_part_view result) (views self.old)
            (views self.new) }
        ensures sites { named_in self.old
            ≡ site_marks (each body_part_sites result) ++ named_in self.new }
        ensures stands { (source : List ℕ) → StandIn source self.old →
            IfSome result (λ i. BodyPartStands source i) × StandIn source self.new }
    {
        match self.text() {
            Some(text) => Some(BodyPart::Action(text)),
            None => match self.occurrence() {
                Some(occurrence) => Some(BodyPart::Symbol(occurrence)),
                None => None,
            },
        }
    }

    /// What a rule begins with: a name and its colon, or a bar.
    fn left(&mut self) -> Option<Option<NameAt<'a>>>
        ensures place { IfSome result (λ left. IfSome left (λ n. n.at ≡ place_of self.old)) }
        ensures taken { Takes left_yield (option_view (λ n. option_view name_view n) result)
            (views self.old) (views self.new) }
        ensures sites { named_in self.old ≡ left_marks result ++ named_in self.new }
        ensures stands { (source : List ℕ) → StandIn source self.old → StandIn source self.new }
    {
        let [first, rest @ ..] = self.rest else {
            return None;
        };
        let left = match first.lexeme {
            Lexeme::CIdentifier(name) => Some(NameAt { name, at: first.at }),
            Lexeme::Fixed(Sign::Bar) => None,
            _ => return None,
        };
        self.rest = rest;
        Some(left)
    }

    fn sign(&mut self, sign: Sign) -> bool
        ensures taken { TakesSign sign result (views self.old) (views self.new) }
        ensures sites { (sign ≡ Start → ⊥) → named_in self.old ≡ named_in self.new }
        ensures stands { (source : List ℕ) → StandIn source self.old → StandIn source self.new }
    {
        let [first, rest @ ..] = self.rest else {
            return false;
        };
        match first.lexeme {
            Lexeme::Fixed(found) if found == sign => {
                self.rest = rest;
                true
            }
            _ => false,
        }
    }
}

// Declarations. After a word, what it asks for is always there.
impl<'a> TreeBuilder<'_, 'a> {
    /// The name of the tag in front, where one stands there.
    fn tag(&mut self) -> Option<NameAt<'a>>
        ensures taken { TakesTag (option_view name_view result) (views self.old) (views self.new) }
        ensures sites { named_in self.old ≡ one name_mark result ++ named_in self.new }
    {
        let [less, tag, greater, rest @ ..] = self.rest else {
            return None;
        };
        match (less.lexeme, tag.lexeme, greater.lexeme) {
            (Lexeme::Fixed(Sign::Less), Lexeme::Name(name), Lexeme::Fixed(Sign::Greater)) => {
                self.rest = rest;
                Some(NameAt { name, at: tag.at })
            }
            _ => None,
        }
    }

    /// The entry of an identifier, with its number.
    fn entry(&mut self, who: Occurrence<'a>) -> Entry<'a>
        requires { GoesOn Listed self.old }
        ensures who { result.who ≡ who.entry }
        ensures place { IfSome result.digits (λ d. d.at ≡ place_of self.old) }
        ensures whole { identifier_yield (occurrence_view who.entry) ∷ views self.old
            ≡ entry_yield (entry_view result) ++ views self.new }
        ensures sites { occurrence_mark who.entry ∷ named_in self.old
            ≡ site_marks (entry_sites result) ++ named_in self.new }
        ensures goes_on { GoesOn Numbered self.new }
    {
        let digits = self.digits();
        Entry { who, digits }
    }

    /// The entries of a listing.
    fn entries(&mut self, alloc: Global) -> Result<Vec<Entry<'a>>, AllocError>
        requires { GoesOn ListTagged self.old }
        ensures whole { IfOk result (λ v. views self.old
            ≡ flat_map entry_yield (map entry_view v.items) ++ views self.new) }
        ensures sites { IfOk result (λ v. named_in self.old
            ≡ site_marks (flat_map entry_sites v.items) ++ named_in self.new) }
        ensures some { IfOk result (λ v. 0 < length v.items) }
        ensures goes_on { IfOk result (λ v. GoesOn Declarations self.new) }
    {
        let mut entries = Vec::new(alloc);
        'entries: while let Some(who) = self.occurrence() {
            let entry = self.entry(who);
            entries.push(entry)?;
        }
        Ok(entries)
    }

    /// The names that a tag is given to.
    fn names(&mut self, alloc: Global) -> Result<Vec<NameAt<'a>>, AllocError>
        requires { GoesOn TypeTagged self.old }
        ensures whole { IfOk result (λ v. views self.old
            ≡ map name (map name_view v.items) ++ views self.new) }
        ensures sites { IfOk result (λ v. named_in self.old
            ≡ site_marks (map (name_site typed) v.items) ++ named_in self.new) }
        ensures some { IfOk result (λ v. 0 < length v.items) }
        ensures goes_on { IfOk result (λ v. GoesOn Declarations self.new) }
    {
        let mut names = Vec::new(alloc);
        'names: while let Some(name) = self.name() {
            names.push(name)?;
        }
        Ok(names)
    }

    /// A listing, after its word.
    fn listing(&mut self, alloc: Global, word: Word) -> Result<Definition<'a>, AllocError>
        requires { GoesOn ListWord self.old }
        ensures read { IfOk result (λ d. IsRead (word_sign (word_view word)) d self.old self.new) }
        ensures sites { IfOk result (λ d. named_in self.old
            ≡ site_marks (definition_sites d) ++ named_in self.new) }
    {
        let tag = self.tag();
        let entries = self.entries(alloc)?;
        Ok(Definition::Listing(Listing { word, tag, entries }))
    }

    /// A tag and its names, after `%type`.
    fn types(&mut self, alloc: Global) -> Result<Option<Definition<'a>>, AllocError>
        requires { GoesOn TypeWord self.old }
        ensures read { IfOk result (λ o. ReadsDeclaration sign.Types o self.old self.new) }
        ensures sites { IfOk result (λ o. named_in self.old
            ≡ site_marks (each definition_sites o) ++ named_in self.new) }
    {
        let Some(tag) = self.tag() else {
            return Ok(None);
        };
        let names = self.names(alloc)?;
        Ok(Some(Definition::Types(Types { tag, names })))
    }

    /// The start symbol, after its `%start`, which stands at the place.
    fn start(&mut self, at: usize) -> Option<Definition<'a>>
        requires { GoesOn StartWord self.old }
        ensures place { IfSome result (λ d. DefinitionAt at d) }
        ensures read { ReadsDeclaration sign.Start result self.old self.new }
        ensures sites { mark (fixed sign.Start) at ∷ named_in self.old
            ≡ site_marks (each definition_sites result) ++ named_in self.new }
    {
        let symbol = self.occurrence()?;
        Some(Definition::Start(symbol, at))
    }

    /// A kept text, after `%union`.
    fn union_text(&mut self) -> Option<Definition<'a>>
        requires { GoesOn UnionWord self.old }
        ensures read { ReadsDeclaration sign.Union result self.old self.new }
        ensures sites { named_in self.old
            ≡ site_marks (each definition_sites result) ++ named_in self.new }
    {
        let text = self.text()?;
        Some(Definition::Union(text))
    }

    /// A declaration, after its word, which stands at this place; `None` where the word is the
    /// mark.
    fn declaration(
        &mut self,
        alloc: Global,
        word: Sign,
        at: usize,
    ) -> Result<Option<Definition<'a>>, AllocError>
        requires { run Declarations (sign_kind word ∷ kinds (views self.old)) ≡ true }
        ensures place { IfOk result (λ o. IfSome o (λ d. DefinitionAt at d)) }
        ensures read { IfOk result (λ o. ReadsOrMark o (fixed word ∷ views self.old) self.new) }
        ensures sites { IfOk result (λ o. naming (fixed word) at ++ named_in self.old
            ≡ site_marks (each definition_sites o) ++ named_in self.new) }
    {
        match word {
            Sign::Start => Ok(self.start(at)),
            Sign::Union => Ok(self.union_text()),
            Sign::Types => self.types(alloc),
            Sign::Token => Ok(Some(self.listing(alloc, Word::Token)?)),
            Sign::Left => Ok(Some(self.listing(alloc, Word::Left)?)),
            Sign::Right => Ok(Some(self.listing(alloc, Word::Right)?)),
            Sign::Nonassoc => Ok(Some(self.listing(alloc, Word::Nonassoc)?)),
            _ => Ok(None),
        }
    }

    /// The declaration in front, or `None` where the mark stands there; either is taken.
    fn definition(&mut self, alloc: Global) -> Result<Option<Definition<'a>>, AllocError>
        requires { GoesOn Declarations self.old }
        ensures place { IfOk result (λ o. IfSome o (λ d. DefinitionAt (place_of self.old) d)) }
        ensures read { IfOk result (λ o. ReadsOrMark o (views self.old) self.new) }
        ensures sites { IfOk result (λ o. named_in self.old
            ≡ site_marks (each definition_sites o) ++ named_in self.new) }
    {
        let [first, rest @ ..] = self.rest else {
            return Ok(None);
        };
        self.rest = rest;
        match first.lexeme {
            Lexeme::Code => Ok(Some(Definition::Block)),
            Lexeme::Fixed(word) => self.declaration(alloc, word, first.at),
            _ => Ok(None),
        }
    }

    /// The declarations, and the mark after them.
    fn definitions(&mut self, alloc: Global) -> Result<Vec<Definition<'a>>, AllocError>
        requires { GoesOn Declarations self.old }
        ensures whole { IfOk result (λ v. views self.old
            ≡ flat_map definition_yield (map definition_view v.items) ++ fixed Mark
            ∷ views self.new) }
        ensures sites { IfOk result (λ v. named_in self.old
            ≡ site_marks (flat_map definition_sites v.items) ++ named_in self.new) }
        ensures shaped { IfOk result
            (λ v. AllByRecursion IsDefinition (map definition_view v.items)) }
        ensures goes_on { IfOk result (λ v. GoesOn RulesMark self.new) }
    {
        let mut definitions = Vec::new(alloc);
        'lines: while let Some(definition) = self.definition(alloc)? {
            definitions.push(definition)?;
        }
        Ok(definitions)
    }
}

// Rules.
impl<'a> TreeBuilder<'_, 'a> {
    fn body(&mut self, alloc: Global) -> Result<Vec<BodyPart<'a>>, AllocError>
        requires { GoesOn Body self.old }
        ensures whole { IfOk result (λ v. views self.old ≡ map body_part_yield
            (map body_part_view v.items)
            ++ views self.new) }
        ensures sites { IfOk result (λ v. named_in self.old
            ≡ site_marks (flat_map body_part_sites v.items) ++ named_in self.new) }
        ensures ended { IfOk result (λ v. NoBodyPart (views self.new)) }
        ensures goes_on { IfOk result (λ v. GoesOn Body self.new) }
        ensures stands { IfOk result (λ v. (source : List ℕ) → StandIn source self.old →
            AllByRecursion (BodyPartStands source) v.items × StandIn source self.new) }
    {
        let mut body = Vec::new(alloc);
        'items: while let Some(item) = self.item() {
            body.push(item)?;
        }
        Ok(body)
    }

    /// The precedence after a body, and the action after that.
    fn precedence(&mut self) -> (Option<Occurrence<'a>>, Option<BracedText<'a>>)
        requires ended { NoBodyPart (views self.old) }
        requires goes_on { GoesOn Body self.old }
        ensures whole { views self.old
            ≡ end_yield (option_view occurrence_view result.0) (option_view braced_view result.1) 0
            ++ views self.new }
        ensures sites { named_in self.old
            ≡ site_marks (one (occurrence_site prec_name) result.0) ++ named_in self.new }
        ensures shaped { IsSome (option_view braced_view result.1) →
            IsSome (option_view occurrence_view result.0) }
        ensures goes_on { GoesOn Semicolons self.new }
        ensures stands { (source : List ℕ) → StandIn source self.old →
            IfSome result.1 (λ b. StandsAt source b) × StandIn source self.new }
    {
        if !self.sign(Sign::Prec) {
            return (None, None);
        }
        let symbol = self.occurrence();
        let last = self.text();
        (symbol, last)
    }

    /// How many semicolons stand in front.
    fn semicolons(&mut self) -> usize
        requires { GoesOn Semicolons self.old }
        ensures whole { views self.old ≡ replicate result (fixed Semicolon) ++ views self.new }
        ensures sites { named_in self.old ≡ named_in self.new }
        ensures ended { NoSign Semicolon (views self.new) }
        ensures goes_on { GoesOn Semicolons self.new }
        ensures stands { (source : List ℕ) → StandIn source self.old → StandIn source self.new }
    {
        let before = self.rest.len();
        'semicolons: while self.sign(Sign::Semicolon) {}
        before - self.rest.len()
    }

    /// A rule, after what it begins with.
    fn rule_text(
        &mut self,
        alloc: Global,
        left: Option<NameAt<'a>>,
    ) -> Result<RuleText<'a>, AllocError>
        requires { GoesOn Body self.old }
        ensures whole { IfOk result (λ c. left_yield (option_view name_view left.entry)
            ∷ views self.old ≡ rule_text_yield (rule_text_view c) ++ views self.new) }
        ensures sites { IfOk result (λ c. one left_mark left.entry ++ named_in self.old
            ≡ site_marks (rule_text_sites c) ++ named_in self.new) }
        ensures left { IfOk result (λ c. c.left ≡ left.entry) }
        ensures shaped { IfOk result (λ c. IsRuleText (rule_text_view c)) }
        ensures ended { IfOk result (λ c. NoSign Semicolon (views self.new)) }
        ensures goes_on { IfOk result (λ c. GoesOn Semicolons self.new) }
        ensures stands { IfOk result (λ c. (source : List ℕ) → StandIn source self.old →
            RuleTextStands source c × StandIn source self.new) }
    {
        let body = self.body(alloc)?;
        let (prec, last) = self.precedence();
        let semicolons = self.semicolons();
        Ok(RuleText {
            left,
            body,
            prec,
            last,
            semicolons,
        })
    }

    /// The rules. After them stands nothing, or the second mark.
    fn rule_texts(&mut self, alloc: Global) -> Result<Vec<RuleText<'a>>, AllocError>
        requires { GoesOn RulesMark self.old }
        ensures whole { IfOk result (λ v. views self.old
            ≡ flat_map rule_text_yield (map rule_text_view v.items) ++ views self.new) }
        ensures sites { IfOk result (λ v. named_in self.old
            ≡ site_marks (flat_map rule_text_sites v.items) ++ named_in self.new) }
        ensures shaped { IfOk result (λ v. AllByRecursion IsRuleText (map rule_text_view v.items)) }
        ensures first { IfOk result (λ v. BeginsWithName (map rule_text_view v.items)) }
        ensures ended { IfOk result (λ v. (b : Bool) × (views self.new ≡ mark_yield b)) }
        ensures stands { IfOk result (λ v. (source : List ℕ) → StandIn source self.old →
            AllByRecursion (RuleTextStands source) v.items) }
    {
        let mut rule_texts = Vec::new(alloc);
        'rules: while let Some(left) = self.left() {
            let rule_text = self.rule_text(alloc, left)?;
            rule_texts.push(rule_text)?;
        }
        Ok(rule_texts)
    }
}

/// The syntax tree of a grammar file's lexemes. It fails only when memory runs out.
pub fn build_tree<'a>(alloc: Global, lexemes: &[Placed<'a>]) -> Result<Tree<'a>, AllocError>
    requires { IsSpec (kinds (views lexemes.now)) }
    ensures whole { IfOk result (λ t. views lexemes.now ≡ yield (tree_view t)) }
    ensures shaped { IfOk result (λ t. IsTree (tree_view t)) }
    // What names something in the lexemes has its place in the tree.
    ensures sites { IfOk result (λ t. named_in lexemes.now ≡ site_marks (tree_sites t)) }
    ensures stands { IfOk result (λ t. (source : List ℕ) → StandIn source lexemes.now →
        AllByRecursion (RuleTextStands source) t.rule_texts.items) }
{
    let mut front = TreeBuilder { rest: lexemes };
    let definitions = front.definitions(alloc)?;
    let (_, rules) = lexemes.split_at(lexemes.len() - front.rest.len());
    let mut rest = TreeBuilder { rest: rules };
    let rule_texts = rest.rule_texts(alloc)?;
    Ok(Tree {
        definitions,
        rule_texts,
        second_mark: !rest.rest.is_empty(),
    })
}
