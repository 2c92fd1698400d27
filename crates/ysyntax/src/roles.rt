//! The roles of the lexemes of a syntax tree, in their order.

ghost use Rattle.std.specs.Prelude.{◌≡◌, ◌+◌, ◌++◌, ◌∷◌, [], map, replicate, IfOk, OnOk};
ghost use Rattle.std.specs.List.{flat_map};
ghost use Rattle.ysymbols.specs.Sources.{option_view};
ghost use Rattle.ysyntax.specs.TreeViews.{body_part_view, braced_view, definition_view};
ghost use Rattle.ysyntax.specs.TreeViews.{digits_view, entry_view, name_view, occurrence_view};
ghost use Rattle.ysyntax.specs.TreeViews.{rule_text_view, tree_view, word_view};
ghost use Rattle.ysyntax.specs.Roles.{body_role, definition_roles, digits_roles, entry_roles};
ghost use Rattle.ysyntax.specs.Roles.{last_roles, left_role, listed, mark_roles, prec_roles};
ghost use Rattle.ysyntax.specs.Roles.{roles, rule_roles, rules_from, tag_roles};
ghost use Rattle.ysyntax.specs.declared.role.Role.TheVariants as role;

use crate::role::Role;
use crate::tree::{
    BodyPart, BracedText, Definition, Entry, Listing, NameAt, Occurrence, RuleText, Tree, Word,
};
use std::alloc::{AllocError, Global};

/// What a token of a line that begins with this word is there for.
fn listed(word: Word) -> Role
    ensures { result ≡ listed (word_view word) }
{
    match word {
        Word::Token => Role::Declared,
        Word::Left | Word::Right | Word::Nonassoc => Role::Levelled,
    }
}

/// Adds the roles of a tag and of the signs around it.
fn push_tag(found: &mut Vec<Role>, tag: Option<NameAt>) -> Result<(), AllocError>
    ensures { OnOk result (found.new.items ≡ found.old.items ++ tag_roles (option_view name_view tag.entry)) }
{
    if tag.is_some() {
        found.push(Role::Bracket)?;
        found.push(Role::Tag)?;
        found.push(Role::Bracket)?;
    }
    Ok(())
}

/// Adds a role so many times.
fn push_many(found: &mut Vec<Role>, count: usize, role: Role) -> Result<(), AllocError>
    ensures { OnOk result (found.new.items ≡ found.old.items ++ replicate count role) }
{
    for _turn in 0..count {
        found.push(role)?;
    }
    Ok(())
}

/// Adds the roles of a listed token and of its number.
fn push_entry(found: &mut Vec<Role>, word: Word, entry: &Entry) -> Result<(), AllocError>
    ensures { OnOk result (found.new.items ≡ found.old.items
        ++ entry_roles (word_view word) (entry_view entry.now)) }
{
    found.push(listed(word))?;
    if entry.digits.is_some() {
        found.push(Role::Digits)?;
    }
    Ok(())
}

/// Adds the roles of listed tokens.
fn push_entries(found: &mut Vec<Role>, word: Word, entries: &[Entry]) -> Result<(), AllocError>
    ensures { OnOk result (found.new.items ≡ found.old.items
        ++ flat_map (entry_roles (word_view word)) (map entry_view entries.now)) }
{
    for entry in entries {
        push_entry(found, word, entry)?;
    }
    Ok(())
}

/// Adds the roles of a line that lists tokens.
fn push_listing(found: &mut Vec<Role>, line: &Listing) -> Result<(), AllocError>
    ensures { OnOk result (found.new.items ≡ found.old.items
        ++ (role.Word ∷ (tag_roles (option_view name_view line.now.tag)
        ++ flat_map (entry_roles (word_view line.now.word)) (map entry_view line.now.entries.items)))) }
{
    found.push(Role::Word)?;
    push_tag(found, line.tag)?;
    push_entries(found, line.word, &line.entries)
}

/// Adds two roles.
fn push_two(found: &mut Vec<Role>, first: Role, second: Role) -> Result<(), AllocError>
    ensures { OnOk result (found.new.items ≡ found.old.items ++ (first ∷ second ∷ [])) }
{
    found.push(first)?;
    found.push(second)?;
    Ok(())
}

/// Adds the roles of a declaration.
fn push_definition(found: &mut Vec<Role>, definition: &Definition) -> Result<(), AllocError>
    ensures { OnOk result (found.new.items ≡ found.old.items
        ++ definition_roles (definition_view definition.now)) }
{
    match definition {
        Definition::Start(_, _) => push_two(found, Role::Word, Role::Start),
        Definition::Union(_) => push_two(found, Role::Word, Role::Union),
        Definition::Block => Ok(found.push(Role::Block)?),
        Definition::Listing(line) => push_listing(found, line),
        Definition::Types(types) => {
            found.push(Role::Word)?;
            push_tag(found, Some(types.tag))?;
            push_many(found, types.names.len(), Role::Typed)
        }
    }
}

/// Adds the roles of declarations.
fn push_definitions(found: &mut Vec<Role>, definitions: &[Definition]) -> Result<(), AllocError>
    ensures { OnOk result (found.new.items ≡ found.old.items
        ++ flat_map definition_roles (map definition_view definitions.now)) }
{
    for definition in definitions {
        push_definition(found, definition)?;
    }
    Ok(())
}

/// Adds the roles of the parts of a body of rule `rule`.
fn push_body(found: &mut Vec<Role>, rule: usize, body: &[BodyPart]) -> Result<(), AllocError>
    ensures { OnOk result (found.new.items ≡ found.old.items
        ++ map (body_role rule) (map body_part_view body.now)) }
{
    for part in body {
        let role = match part {
            BodyPart::Symbol(_) => Role::Symbol(rule),
            BodyPart::Action(_) => Role::Action(rule),
        };
        found.push(role)?;
    }
    Ok(())
}

/// Adds the roles of the precedence of rule `rule`.
fn push_prec(found: &mut Vec<Role>, rule: usize, prec: Option<Occurrence>) -> Result<(), AllocError>
    ensures { OnOk result (found.new.items ≡ found.old.items
        ++ prec_roles rule (option_view occurrence_view prec.entry)) }
{
    match prec {
        Some(_) => push_two(found, Role::Prec(rule), Role::PrecName(rule)),
        None => Ok(()),
    }
}

/// Adds the role of the action after the precedence of rule `rule`.
fn push_last(found: &mut Vec<Role>, rule: usize, last: Option<BracedText>) -> Result<(), AllocError>
    ensures { OnOk result (found.new.items ≡ found.old.items
        ++ last_roles rule (option_view braced_view last.entry)) }
{
    if last.is_some() {
        found.push(Role::Action(rule))?;
    }
    Ok(())
}

/// What rule `rule` begins with.
fn left_role(rule: usize, left: Option<NameAt>) -> Role
    ensures { result ≡ left_role rule (option_view name_view left.entry) }
{
    match left {
        Some(_) => Role::Left(rule),
        None => Role::Bar(rule),
    }
}

/// Adds the roles of rule `rule`.
fn push_rule(found: &mut Vec<Role>, rule: usize, text: &RuleText) -> Result<(), AllocError>
    ensures { OnOk result (found.new.items ≡ found.old.items
        ++ rule_roles rule (rule_text_view text.now)) }
{
    found.push(left_role(rule, text.left))?;
    push_body(found, rule, &text.body)?;
    push_prec(found, rule, text.prec)?;
    push_last(found, rule, text.last)?;
    push_many(found, text.semicolons, Role::Semicolon)
}

/// Adds the roles of rules, counted from 0.
fn push_rules(found: &mut Vec<Role>, texts: &[RuleText]) -> Result<(), AllocError>
    ensures { OnOk result (found.new.items ≡ found.old.items
        ++ rules_from 0 (map rule_text_view texts.now)) }
{
    for rule in 0..texts.len() {
        push_rule(found, rule, &texts[rule])?;
    }
    Ok(())
}

/// What the lexemes of a file with this tree are there for, in their order. It fails only when
/// memory runs out.
pub fn roles_of(alloc: Global, tree: &Tree) -> Result<Vec<Role>, AllocError>
    ensures { IfOk result (λ v. v.items ≡ roles (tree_view tree.now)) }
{
    let mut found = Vec::new(alloc);
    push_definitions(&mut found, &tree.definitions)?;
    found.push(Role::Mark)?;
    push_rules(&mut found, &tree.rule_texts)?;
    if tree.second_mark {
        found.push(Role::Mark)?;
    }
    Ok(found)
}
