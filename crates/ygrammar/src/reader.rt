//! The reader of grammar files.

ghost use Rattle.std.specs.Prelude.{◌<◌, ◌↔◌, ℕ, List, IfErr, IfOk, IsErrOf, length};
ghost use Rattle.ysymbols.specs.Grammar.{GrammarValue, longest_file};
ghost use Rattle.ysyntax.specs.Answers.{StopsIn};
ghost use Rattle.ysyntax.specs.Lexer.{Refusal};
ghost use Rattle.ysyntax.specs.Placing.{too_long};
ghost use Rattle.ysyntax.specs.SiteViews.{tree_sites};
ghost use Rattle.ysyntax.specs.TreeViews.{tree_view};
ghost use Rattle.ygrammar.specs.Faults.{IsFaultIn};
ghost use Rattle.ygrammar.specs.GrammarOf.{AnswersGrammar, AnswersMistake, AnswersRefusal};
ghost use Rattle.ygrammar.specs.GrammarOf.{GivesGrammar, HasLine, IsFaultAt, IsFaultOf};
ghost use Rattle.ygrammar.specs.GrammarOf.{IsGrammarOf};
ghost use Rattle.ygrammar.specs.GrammarOf.{IsMistakeAt, IsMistaken, IsRefused, IsTextFault};
ghost use Rattle.ygrammar.specs.GrammarOf.{unplaced};
ghost use Rattle.ygrammar.specs.Parsed.{AreBarrenOf, IsMapped, IsParsed, LendsBarren, unmapped};
ghost use Rattle.ydeclarations.specs.declared.mistake.Mistake.{Mistake};

use crate::elaboration::{barren_lefts, elaborate};
use crate::lines::in_file;
use crate::parsed::{Parsed, read_parsed};
use std::alloc::{AllocError, Global};
use ysymbols::Grammar;
use ysyntax::fault::{GrammarFault, PlacedFault};
use ysyntax::{Mark, map_of};

/// The grammar of a parsed file, or the first mistake in what it means.
fn meaning(alloc: Global, source: &[u8], parsed: &Parsed) -> Result<Grammar, PlacedFault>
    requires { IsParsed source.now parsed.now }
    ensures found { IfOk result (λ g. IsGrammarOf source.now g) }
    ensures only { (g : GrammarValue) → IsGrammarOf source.now g →
        AnswersGrammar (unplaced result) g }
    ensures mistaken { (m : Mistake) → IsMistaken source.now m →
        AnswersMistake source.now (unplaced result) m }
    ensures fault { IfErr result (λ e. IsMistakeAt source.now e.at e.fault) }
    ensures line { IfErr result (λ e. HasLine source.now e) }
    ensures here { IfErr result (λ e. IsFaultIn source.now (tree_view parsed.now.tree)
        (tree_sites parsed.now.tree) e) }
{
    match elaborate(alloc, source, &parsed.tree) {
        Ok(grammar) => Ok(grammar),
        Err(refused) => Err(in_file(refused, source)),
    }
}

/// The grammar of a grammar file, or the file's first fault and its place: `read_grammar` says
/// which fault that is.
///
/// The place of `Unfinished`, `BadLiteral`, `Foreign` and `Syntax` is that where reading stops.
pub fn read_placed(alloc: Global, source: &[u8]) -> Result<Grammar, PlacedFault>
    // This comes before every other answer, and for no other file.
    ensures too_long { IsErrOf result too_long ↔ (longest_file < length source.now) }
    // What is read is the grammar of the file.
    ensures found { IfOk result (λ g. IsGrammarOf source.now g) }
    // A file that means a grammar is read.
    ensures only { (g : GrammarValue) → IsGrammarOf source.now g →
        AnswersGrammar (unplaced result) g }
    // Where a file has no syntax, the first reason is answered.
    ensures refused { (r : Refusal) → IsRefused source.now r →
        AnswersRefusal (unplaced result) r }
    // Where it has a syntax and a mistake, the first mistake is answered.
    ensures mistaken { (m : Mistake) → IsMistaken source.now m →
        AnswersMistake source.now (unplaced result) m }
    // A fault that is answered is one that the file has, at this place.
    ensures fault { IfErr result (λ e. IsFaultAt source.now e.at e.fault) }
    // The line of a fault is that of its place.
    ensures line { IfErr result (λ e. HasLine source.now e) }
{
    let parsed = read_parsed(alloc, source)?;
    meaning(alloc, source, &parsed)
}

/// A grammar file with a syntax, as it was read.
#[derive(Drop)]
pub struct Mapped<'a> {
    /// The grammar of the file, or the first mistake in what it means.
    pub grammar: Result<Grammar, PlacedFault>,
    /// The source map: a mark for each lexeme, in their order.
    pub marks: Vec<Mark<'a>>,
    /// Where the grammar is refused for `Unproductive`: how many bytes stand before each left side
    /// that derives no list of tokens, in their order. Else nothing.
    pub barren: Vec<usize>,
}

/// The places of all left sides that derive no list of tokens, where that is the fault.
fn barren_of(
    alloc: Global,
    parsed: &Parsed,
    grammar: &Result<Grammar, PlacedFault>,
) -> Result<Vec<usize>, AllocError>
    requires { (source : List ℕ) × IsParsed source parsed.now × IfErr grammar.now
        (λ e. IsFaultIn source (tree_view parsed.now.tree) (tree_sites parsed.now.tree) e) }
    ensures { IfOk result (λ v. AreBarrenOf (tree_view parsed.now.tree)
        (tree_sites parsed.now.tree) grammar.now v.items) }
{
    let Err(placed) = grammar else {
        return Ok(Vec::new(alloc));
    };
    match placed.fault {
        GrammarFault::Unproductive { .. } => barren_lefts(alloc, &parsed.tree),
        _ => Ok(Vec::new(alloc)),
    }
}

/// The grammar of a grammar file, or the file's first fault and its place, as `read_placed` answers
/// it; and where the file has a syntax, its source map, and all left sides at fault where those are
/// that derive no list of tokens. Without a map there is no syntax, or memory ran out.
pub fn read_mapped<'a>(alloc: Global, source: &'a [u8]) -> Result<Mapped<'a>, PlacedFault>
    // This comes before every other answer, and for no other file.
    ensures too_long { IsErrOf result too_long ↔ (longest_file < length source.now) }
    // What is read is the grammar of the file.
    ensures found { IfOk (unmapped result) (λ g. IsGrammarOf source.now g) }
    // A file that means a grammar is read.
    ensures only { (g : GrammarValue) → IsGrammarOf source.now g →
        AnswersGrammar (unplaced (unmapped result)) g }
    // Where a file has no syntax, the first reason is answered.
    ensures refused { (r : Refusal) → IsRefused source.now r →
        AnswersRefusal (unplaced (unmapped result)) r }
    // Where it has a syntax and a mistake, the first mistake is answered.
    ensures mistaken { (m : Mistake) → IsMistaken source.now m →
        AnswersMistake source.now (unplaced (unmapped result)) m }
    // A fault that is answered is one that the file has, at this place.
    ensures fault { IfErr (unmapped result) (λ e. IsFaultAt source.now e.at e.fault) }
    // The line of a fault is that of its place.
    ensures line { IfErr (unmapped result) (λ e. HasLine source.now e) }
    // The marks are the lexemes of the file, each at its place and with its role in the tree.
    ensures map { IfOk result (λ m. IsMapped source.now m) }
    // Where left sides derive no list of tokens and that is the fault, it is that of the first of
    // them, and the places are those of all.
    ensures barren { IfOk result (λ m. LendsBarren source.now m) }
    // Without them the file has no syntax, and the answer says how far it was read.
    ensures text { IfErr result (λ e. IsTextFault source.now e.at e.fault) }
    ensures state { IfErr result (λ e. StopsIn source.now e.at e.fault e.state) }
{
    let parsed = read_parsed(alloc, source)?;
    let marks = map_of(alloc, &parsed.lexemes, &parsed.tree)?;
    let grammar = meaning(alloc, source, &parsed);
    let barren = barren_of(alloc, &parsed, &grammar)?;
    Ok(Mapped {
        grammar,
        marks,
        barren,
    })
}

/// The grammar of a grammar file, or the file's first fault (POSIX yacc, "Input Files" and
/// "Extended Description").
///
/// A file of more than 1,048,576 bytes is `TooLong` before all else. Then the first place decides
/// at which the file has no syntax: `Unfinished`, `BadLiteral`, `Foreign` or `Syntax`, with its
/// line. A file with a syntax has the first of the faults from `TokenLeft` to `Limit` that holds.
/// `Memory` may come in place of any answer but `TooLong`.
pub fn read_grammar(alloc: Global, source: &[u8]) -> Result<Grammar, GrammarFault>
    // This comes before every other answer, and for no other file.
    ensures too_long { IsErrOf result GrammarFault.TooLong ↔ (longest_file < length source.now) }
    // What is read is the grammar of the file.
    ensures found { IfOk result (λ g. IsGrammarOf source.now g) }
    // A file that means a grammar is read.
    ensures only { (g : GrammarValue) → IsGrammarOf source.now g → AnswersGrammar result g }
    // Where a file has no syntax, the first reason is answered, with its line.
    ensures refused { (r : Refusal) → IsRefused source.now r → AnswersRefusal result r }
    // Where it has a syntax and a mistake, the first mistake is answered, with its line.
    ensures mistaken { (m : Mistake) → IsMistaken source.now m →
        AnswersMistake source.now result m }
    // A fault that is answered is one that the file has.
    ensures fault { IfErr result (λ f. IsFaultOf source.now f) }
    // There is no other answer.
    ensures exact { GivesGrammar source.now result }
{
    match read_placed(alloc, source) {
        Ok(grammar) => Ok(grammar),
        Err(placed) => Err(placed.fault),
    }
}
