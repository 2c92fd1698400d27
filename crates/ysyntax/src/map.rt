//! The source map: each lexeme of a grammar file, where it stands and what it is there for.

ghost use Rattle.std.specs.Prelude.{◌≡◌, [], List, ℕ, IfOk, length};
ghost use Rattle.ysyntax.specs.Answers.{StandIn, views};
ghost use Rattle.ysyntax.specs.Sites.{StandFrom};
ghost use Rattle.ysyntax.specs.SiteViews.{marks_in};
ghost use Rattle.ysyntax.specs.Tree.{yield};
ghost use Rattle.ysyntax.specs.TreeViews.{tree_view};
ghost use Rattle.ysyntax.specs.Map.{AreMarksOf, placed_of, roles_in};

use crate::lexer::Placed;
use crate::role::Role;
use crate::roles::roles_of;
use crate::tree::Tree;
use std::alloc::{AllocError, Global};

/// A lexeme of a grammar file: where it stands, and what it is there for.
#[derive(Clone, Copy)]
pub struct Mark<'a> {
    /// The lexeme and its place.
    pub placed: Placed<'a>,
    /// What it is there for.
    pub role: Role,
}

/// The lexemes with their roles.
fn joined<'a>(
    alloc: Global,
    lexemes: &[Placed<'a>],
    roles: &[Role],
) -> Result<Vec<Mark<'a>>, AllocError>
    requires { length lexemes.now ≡ length roles.now }
    ensures lexemes { IfOk result (λ v. placed_of v.items ≡ lexemes.now) }
    ensures roles { IfOk result (λ v. roles_in v.items ≡ roles.now) }
{
    let mut marks = Vec::with_capacity(alloc, lexemes.len())?;
    for index in 0..lexemes.len() {
        marks.push(Mark {
            placed: lexemes[index],
            role: roles[index],
        })?;
    }
    Ok(marks)
}

/// The source map of a file with these lexemes and this tree: a mark for each lexeme, in their
/// order. It fails only when memory runs out.
pub fn map_of<'a>(
    alloc: Global,
    lexemes: &[Placed<'a>],
    tree: &Tree<'a>,
) -> Result<Vec<Mark<'a>>, AllocError>
    requires { views lexemes.now ≡ yield (tree_view tree.now) }
    ensures { IfOk result (λ v. (source : List ℕ) → StandIn source lexemes.now
        → StandFrom source [] (marks_in lexemes.now)
        → AreMarksOf source (tree_view tree.now) v.items) }
{
    let roles = roles_of(alloc, tree)?;
    joined(alloc, lexemes, &roles)
}
