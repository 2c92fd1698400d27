//! The lexemes and the tree of a grammar file, or why it has no syntax.

ghost use Rattle.std.specs.Prelude.{◌≡◌, ◌<◌, ◌↔◌, IfErr, IfOk, IsErrOf, length};
ghost use Rattle.ysymbols.specs.Grammar.{longest_file};
ghost use Rattle.ysyntax.specs.Answers.{StopsIn};
ghost use Rattle.ysyntax.specs.Lexer.{Refusal};
ghost use Rattle.ysyntax.specs.Placing.{too_long};
ghost use Rattle.ysyntax.specs.Tree.{Tree as TreeOf};
ghost use Rattle.ysyntax.specs.declared.fault.GrammarFault.TheVariants.{Memory};
ghost use Rattle.ygrammar.specs.GrammarOf.{AnswersRefusal, HasLine, HasTree, IsRefused};
ghost use Rattle.ygrammar.specs.GrammarOf.{IsTextFault};
ghost use Rattle.ygrammar.specs.GrammarOf.{unplaced};
ghost use Rattle.ygrammar.specs.Parsed.{IsParsed};

use std::alloc::Global;
use ysymbols::let_go;
use ysyntax::fault::PlacedFault;
use ysyntax::lexer::{Placed, read_syntax};
use ysyntax::tree::Tree;
use ysyntax::tree_builder::build_tree;

/// A grammar file with a syntax: its lexemes and its tree.
pub struct Parsed<'a> {
    /// The lexemes, each at its place.
    pub lexemes: Vec<Placed<'a>>,
    /// Their tree.
    pub tree: Tree<'a>,
}

impl Drop for Parsed<'_> {
    fn drop(self) {
        let_go!(self: Parsed { lexemes, tree });
    }
}

/// The lexemes and the tree of a grammar file, or why it has no syntax, at the place where reading
/// stops.
pub fn read_parsed<'a>(alloc: Global, source: &'a [u8]) -> Result<Parsed<'a>, PlacedFault>
    ensures too_long { IsErrOf result too_long ↔ (longest_file < length source.now) }
    ensures parsed { IfOk result (λ p. IsParsed source.now p) }
    ensures only { (t : TreeOf) → HasTree source.now t → IfErr result (λ e. e.fault ≡ Memory) }
    ensures refused { (r : Refusal) → IsRefused source.now r → AnswersRefusal (unplaced result) r }
    ensures fault { IfErr result (λ e. IsTextFault source.now e.at e.fault) }
    ensures line { IfErr result (λ e. HasLine source.now e) }
    ensures state { IfErr result (λ e. StopsIn source.now e.at e.fault e.state) }
{
    let lexemes = read_syntax(alloc, source)?;
    let tree = build_tree(alloc, &lexemes)?;
    Ok(Parsed { lexemes, tree })
}
