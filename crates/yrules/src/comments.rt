//! The comments among the rules of a grammar file.
//!
//! The source map has no comments: they stand in the gaps between its lexemes, and are cut there as
//! any part of a file is.

use std::alloc::Global;
use yexplain::lines::Site;
use yexplain::reads::Made;
use ylexemes::front::part_at;
use ylexemes::part::Part;
use ysyntax::Role;

/// A comment among the rules of a file.
#[derive(Clone, Copy)]
pub struct Comment<'a> {
    /// The alternative that it belongs to, as roles count these.
    pub alternative: usize,
    /// How many bytes of the file stand before it.
    pub at: usize,
    /// Its bytes, with the signs around it.
    pub text: &'a [u8],
}

/// A place from which blanks and comments may stand, and the alternatives around it.
#[derive(Clone, Copy)]
struct Gap {
    from: usize,
    /// The alternative that the lexeme before it is of, where it is of one.
    before: Option<usize>,
    /// The alternative that begins with the lexeme after it, where one does.
    after: Option<usize>,
}

/// The alternative that begins with a lexeme of this role.
pub fn begun_by(role: Role) -> Option<usize> {
    match role {
        Role::Left(alternative) | Role::Bar(alternative) => Some(alternative),
        _ => None,
    }
}

/// Adds the comments of a gap, which goes up to the next lexeme. A comment belongs to the
/// alternative that stands before it on its line; where none does, to the one that begins next, and
/// else to the one that it stands in.
fn add_gap<'a>(comments: &mut Vec<Comment<'a>>, source: &'a [u8], gap: Gap) -> Made<()> {
    let mut at = gap.from;
    let mut owner = gap.before.or(gap.after);
    for _ in gap.from..source.len() {
        let bytes = source.get(at..).unwrap_or(&[]);
        if bytes.is_empty() {
            break;
        }
        let Ok((part, rest)) = part_at(bytes) else {
            break;
        };
        let length = bytes.len().saturating_sub(rest.len());
        let text = bytes.get(..length).unwrap_or(&[]);
        match (part, owner) {
            (Part::Comment, Some(alternative)) => comments.push(Comment {
                alternative,
                at,
                text,
            })?,
            (Part::Lexeme(_), _) => break,
            _ => {}
        }
        if text.contains(&b'\n') {
            owner = gap.after.or(gap.before);
        }
        at = at.saturating_add(text.len());
    }
    Ok(())
}

/// The lexemes from the first mark on, up to the second one.
fn among_rules(sites: &[Site]) -> &[Site] {
    let mut first = None;
    for (index, site) in sites.iter().enumerate() {
        match (site.role, first) {
            (Role::Mark, None) => first = Some(index),
            (Role::Mark, Some(first)) => return sites.get(first..index).unwrap_or(&[]),
            _ => {}
        }
    }
    match first {
        Some(first) => sites.get(first..).unwrap_or(&[]),
        None => &[],
    }
}

/// The comments among the rules of a text with these lexemes, in their order, each with its
/// alternative. Some stand in a lexeme, between a left side and its colon.
pub fn comments_of<'a>(alloc: Global, source: &'a [u8], sites: &[Site]) -> Made<Vec<Comment<'a>>> {
    let mut comments = Vec::new(alloc);
    let sites = among_rules(sites);
    let mut before = None;
    for (index, site) in sites.iter().enumerate() {
        before = begun_by(site.role).or(before);
        let mut gap = Gap {
            from: site.name_end,
            before,
            after: None,
        };
        if gap.from < site.end {
            add_gap(&mut comments, source, gap)?;
        }
        gap.from = site.end;
        if let Some(next) = sites.get(index.saturating_add(1)) {
            gap.after = begun_by(next.role);
        }
        add_gap(&mut comments, source, gap)?;
    }
    Ok(comments)
}
