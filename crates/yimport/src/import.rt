//! A file imported.

use crate::applied::{Changed, applied};
use crate::left_out::LeftOut;
use crate::note::Note;
use crate::pieces::Pieces;
use crate::refusal::{Refusal, Refused, Trouble};
use crate::spelling::Spelling;
use crate::symbols::{Ended, Expected, Numbered, Work};
use std::alloc::Global;
use std::collections::HashMap;
use std::mem;
use yforeign::groups::{Group, Head, groups_of};
use yforeign::lexeme::{Lexeme, Span, Uncut};
use yforeign::lexer::{Lexemes, lexemes_of};
use yforeign::survey::Survey;
use ysymbols::let_go;

/// A file that `yacc` reads, and what was changed for it.
pub struct Imported {
    /// The file that `yacc` reads.
    pub text: Vec<u8>,
    /// What it has of the file that was imported.
    pub pieces: Pieces,
    /// What was changed, by lines of the file, which are those of the text too.
    pub notes: Vec<Note>,
    /// The texts that notes name.
    pub texts: Vec<u8>,
    /// Where the `%precedence` stands for each level that comes from one.
    pub levels: Vec<Option<Span>>,
    /// The shift/reduce conflicts that the file expects.
    pub shift_reduce: Option<Expected>,
    /// The reduce/reduce conflicts that the file expects.
    pub reduce_reduce: Option<Expected>,
    /// The ends that were taken out of bodies, in their order.
    pub ended: Vec<Ended>,
    /// The numbers of tokens that `yacc` can't have, and that of `error`.
    pub numbers: Vec<Numbered>,
    /// The greatest number that the file gives a token.
    pub greatest: usize,
    /// The lexemes of the file, up to its second mark, but for what was left out.
    pub lexemes: Vec<Lexeme>,
    /// What was left out, since no sentence can be made of it.
    pub left_out: Vec<LeftOut>,
    /// How its symbols are spelled in the text.
    pub spelling: Spelling,
}

impl Drop for Imported {
    // A call in each owner, which keeps their proofs short.
    fn drop(self) {
        let_go!(self: Imported {
            text, pieces, notes, texts, levels, shift_reduce, reduce_reduce, ended, numbers,
            greatest, lexemes, left_out, spelling
        });
    }
}

impl Work<'_> {
    /// Takes in a group.
    fn import_group(&mut self, group: &Group<'_>) {
        let Some((first, rest)) = group.lexemes.split_first() else {
            return;
        };
        self.edits.stumbles = false;
        match group.head {
            Head::Word(directive) => {
                self.import_declaration(directive, group.lexemes, group.in_rules)
            }
            Head::Code if group.in_rules => self.edits.refuse(Refusal::CodeBetween, first),
            Head::Mark if !group.in_rules => {
                self.edits.mark = Some(first.span.from);
                self.import_loose(rest);
            }
            Head::Code | Head::Mark => self.import_loose(rest),
            Head::Stray => self.import_loose(group.lexemes),
            Head::Left => self.import_rule(group.lexemes),
            Head::Bar => self.import_body(rest),
        }
    }

    /// Takes in the file, which has these lexemes, and makes the changes, unless there was a
    /// trouble.
    fn run(&mut self, lexemes: &mut Lexemes) -> Result<(), Trouble> {
        for remark in &lexemes.remarks {
            self.edits.close_remark(*remark);
        }
        self.leave_out(lexemes)?;
        let groups = groups_of(self.alloc, self.source, &lexemes.all)?;
        for group in &groups {
            self.import_group(group);
        }
        self.list_loners(&groups)?;
        self.edits.insert_moved();
        self.edits.trouble.checked()?;
        if !self.edits.refused.is_empty() {
            let mut refused = mem::replace(&mut self.edits.refused, Vec::new(self.alloc));
            refused.sort_by_key(|it| it.span.from)?;
            return Err(Trouble::Refused(refused));
        }
        self.changed = applied(self.alloc, &mut self.edits)?;
        self.edits.notes.sort_by_key(|note| note.span.line)?;
        Ok(())
    }

    /// The import, once all is taken in; nothing of it stays in the work.
    fn imported(&mut self, lexemes: Vec<Lexeme>) -> Imported {
        let alloc = self.alloc;
        let survey = mem::replace(&mut self.survey, Survey::new(alloc));
        let made = mem::replace(&mut self.made, HashMap::new(alloc));
        let changed = mem::replace(&mut self.changed, Changed::new(alloc));
        let Changed { text, pieces } = changed;
        Imported {
            text,
            pieces,
            notes: mem::replace(&mut self.edits.notes, Vec::new(alloc)),
            texts: mem::replace(&mut self.edits.texts, Vec::new(alloc)),
            levels: mem::replace(&mut self.levels, Vec::new(alloc)),
            shift_reduce: self.shift_reduce,
            reduce_reduce: self.reduce_reduce,
            ended: mem::replace(&mut self.ended, Vec::new(alloc)),
            numbers: mem::replace(&mut self.numbers, Vec::new(alloc)),
            greatest: self.greatest,
            lexemes,
            left_out: mem::replace(&mut self.left_out, Vec::new(alloc)),
            spelling: Spelling::new(survey, made),
        }
    }
}

/// A file of bison or byacc as one that `yacc` reads.
pub fn import(alloc: Global, source: &[u8]) -> Result<Imported, Trouble> {
    let mut lexemes = match lexemes_of(alloc, source) {
        Ok(lexemes) => lexemes,
        Err(Uncut::Memory) => return Err(Trouble::Memory),
        Err(Uncut::Flaw(flaw, span)) => {
            let (refusal, mut refused) = (Refusal::Flaw(flaw), Vec::new(alloc));
            refused.push(Refused { refusal, span })?;
            return Err(Trouble::Refused(refused));
        }
    };
    let mut work = Work::new(alloc, source);
    work.run(&mut lexemes)?;
    let all = mem::replace(&mut lexemes.all, Vec::new(alloc));
    Ok(work.imported(all))
}
