//! `ydebug sentences`.

use crate::cells::Cells;
use crate::choice::{Chosen, Missing, choose};
use crate::draw::{Numbers, draw};
use crate::elements::{Elements, Kind};
use crate::near::Near;
use crate::seek::MOST_TOKENS;
use crate::sheet::Sheet;
use std::alloc::{AllocError, Global};
use std::io::{self, Write};
use std::rt::Files;
use yexplain::reads::{grammar_of, set};
use yfaults::opening::Opened;
use yfiles::steady::Steady;
use yinput::language::{Language, LanguageFiles};
use ylex::writer::Writer;
use ylists::saving::{Folder, are_refused, put_failed};
use ysearch::shortest::Shortest;
use ysearch::trial::empty_session;

/// Sentences that are drawn.
#[derive(Clone, Copy)]
pub struct Drawn {
    /// How many.
    pub count: usize,
    /// How many tokens each has at most.
    pub length: u64,
    /// What they are drawn by.
    pub seed: u64,
}

/// What is asked for: sentences of a grammar.
#[derive(Clone, Copy)]
pub struct Asked<'a> {
    /// The files of their language: with a SPEC they are written as texts.
    pub files: LanguageFiles<'a>,
    /// What they are to use.
    pub kind: Kind,
    /// Those that are drawn, where these are wanted instead.
    pub drawn: Option<Drawn>,
    /// Whether lists that are near to them are wanted too.
    pub near: bool,
    /// The folder in which each list becomes a tokens file, or a text.
    pub save: Option<&'a str>,
    /// Whether an element that isn't found, or a sentence that is refused, makes the status 1.
    pub strict: bool,
}

impl Asked<'_> {
    /// What the names of the files of sentences begin with.
    fn front(self) -> &'static str {
        match (self.drawn, self.kind) {
            (Some(_), _) => "random-",
            (None, Kind::Rules) => "rules-",
            (None, Kind::States) => "states-",
            (None, Kind::Cells) => "actions-",
        }
    }

    /// What the names of all files end with.
    fn ending(self) -> &'static str {
        match self.files.spec {
            Some(_) => ".txt",
            None => ".tokens",
        }
    }

    /// Whether a list would have the place of a file that is read: that is written.
    fn is_refused<F: Files + AllocGlobal + Clone + Drop, E: Write>(
        self,
        rt: &F,
        errors: &mut E,
    ) -> io::Result<bool> {
        let Some(folder) = self.save else {
            return Ok(false);
        };
        let (grammar, end) = (self.files.grammar.path, self.ending());
        let inputs = [grammar, self.files.spec.unwrap_or(grammar)];
        Ok(
            are_refused(rt, folder, (self.front(), end), &inputs, errors)?
                || are_refused(rt, folder, (NEAR, end), &inputs, errors)?,
        )
    }
}

/// What the names of the files of lists that are near to sentences begin with.
const NEAR: &str = "near-";

/// A folder for lists, in which the names of files begin so.
fn folder_of<'a, F>(rt: &'a F, asked: Asked<'a>, front: &'a str) -> Folder<'a, F> {
    Folder {
        rt,
        path: asked.save,
        name: (front, asked.ending()),
        failed: None,
    }
}

/// Writes the sentences that are kept, the shortest first, each with the elements that no sentence
/// before it uses, and says how many these are.
fn put_kept<W: Write, F: Files + AllocGlobal + Clone + Drop>(
    sheet: &mut Sheet<'_, W, F>,
    chosen: &Chosen,
    kind: Kind,
) -> io::Result<usize> {
    let (alloc, mut number): (Global, usize) = (sheet.alloc, 0);
    let mut seen = vec![in alloc; false; chosen.used.len()]?;
    for place in &chosen.order(alloc)? {
        let Some(sentence) = chosen.sentences.get(*place) else {
            continue;
        };
        if sentence.kept {
            number = number.saturating_add(1);
            let mut new = Vec::new(alloc);
            for element in &sentence.uses {
                if !seen.get(*element).copied().unwrap_or(true) {
                    set(&mut seen, *element, true);
                    new.push(*element).map_err(AllocError::from)?;
                }
            }
            sheet.put_chosen(kind, number, &sentence.tokens, &new)?;
        }
    }
    Ok(number)
}

/// Writes the sentences that were chosen and what none uses, and says whether all is used.
fn put_chosen<W: Write, F: Files + AllocGlobal + Clone + Drop>(
    sheet: &mut Sheet<'_, W, F>,
    chosen: &Chosen,
    kind: Kind,
) -> io::Result<bool> {
    let sentences = put_kept(sheet, chosen, kind)?;
    let mut unused: usize = 0;
    for (element, used) in chosen.used.iter().enumerate().skip(kind.first()) {
        if !*used {
            let missing = chosen.missing.get(element).copied();
            sheet.put_unused(kind, element, missing.unwrap_or(Missing::Late))?;
            unused = unused.saturating_add(1);
        }
    }
    let all = chosen.used.len().saturating_sub(kind.first());
    let (words, verb) = if sentences == 1 {
        ("sentence", "uses")
    } else {
        ("sentences", "use")
    };
    write!(sheet.out, "# {sentences} {words} {verb} ")?;
    let (used, word) = (all.saturating_sub(unused), kind.word(all));
    match unused {
        0 => write!(sheet.out, "all {all} {word}")?,
        _ => write!(sheet.out, "{used} of {all} {word}")?,
    }
    sheet.put_end()?;
    Ok(unused == 0)
}

/// Writes sentences that are drawn, and says whether all are accepted.
fn put_drawn<W: Write, F: Files + AllocGlobal + Clone + Drop>(
    sheet: &mut Sheet<'_, W, F>,
    drawn: Drawn,
) -> io::Result<bool> {
    let (alloc, elements, count) = (sheet.alloc, sheet.elements, drawn.count);
    let grammar = grammar_of(elements.tables);
    let shortest = Shortest::new(alloc, grammar)?;
    let (mut numbers, mut accepted) = (Numbers { now: drawn.seed }, 0usize);
    for index in 0..count {
        let Some(tokens) = draw(alloc, grammar, &shortest, &mut numbers, drawn.length)? else {
            writeln!(
                sheet.out,
                "# no sentence can be drawn: the shortest one has error, or too many tokens"
            )?;
            return Ok(false);
        };
        if sheet.put_drawn(index.saturating_add(1), &tokens)? {
            accepted = accepted.saturating_add(1);
        }
    }
    write!(
        sheet.out,
        "# {accepted} of {count} random sentences accepted"
    )?;
    sheet.put_end()?;
    Ok(accepted == count)
}

/// Writes what is asked for, and gives the exit status.
fn put_sheet<'a, W: Write, E: Write, F: Files + AllocGlobal + Clone + Drop>(
    rt: &'a F,
    asked: Asked<'a>,
    elements: Elements<'a>,
    out: &'a mut W,
    errors: &mut E,
    (chosen, writer): (Option<&Chosen>, Option<&'a Writer>),
) -> io::Result<u8> {
    let near = if asked.near {
        Some(Near::new(rt.alloc(), grammar_of(elements.tables), writer)?)
    } else {
        None
    };
    let mut sheet = Sheet {
        alloc: rt.alloc(),
        out,
        elements,
        folder: folder_of(rt, asked, asked.front()),
        near_folder: folder_of(rt, asked, NEAR),
        writer,
        near,
        changed: 0,
        accepted: 0,
    };
    sheet.begin()?;
    let is_all = match (asked.drawn, chosen) {
        (Some(drawn), _) => put_drawn(&mut sheet, drawn)?,
        (None, Some(chosen)) => put_chosen(&mut sheet, chosen, asked.kind)?,
        (None, None) => true,
    };
    let status = if asked.strict && !is_all { 1 } else { 0 };
    let failed = sheet.folder.failed.as_ref();
    put_failed(errors, failed.or(sheet.near_folder.failed.as_ref()), status)
}

/// Writes sentences of a language that is open, and gives the exit status.
fn put_open<F: Files + AllocGlobal + Clone + Drop, W: Write, E: Write>(
    rt: &F,
    asked: Asked<'_>,
    language: Language,
    out: &mut W,
    errors: &mut E,
) -> io::Result<u8> {
    let (opened, writer) = language.into_writing(rt.alloc())?;
    let Opened { tables, lines } = opened;
    let mut session = empty_session(rt.alloc(), tables);
    let chosen = match asked.drawn {
        Some(_) => None,
        None => Some(choose(rt.alloc(), &mut session, asked.kind)?),
    };
    let cells = Cells::new(rt.alloc(), session.tables())?;
    let elements = Elements {
        tables: session.tables(),
        lines: &lines,
        cells: &cells,
    };
    let shown = (chosen.as_ref(), writer.as_ref());
    // all lists are kept, or none, also where nobody reads the sentences any more
    let mut out = Steady::new(out, asked.save.is_some());
    let status = put_sheet(rt, asked, elements, &mut out, errors, shown)?;
    out.finish()?;
    Ok(status)
}

/// Writes what is asked for, and gives the exit status: 0; 1 where the grammar or the SPEC is
/// refused, or where something isn't found or accepted and that is to count; 2 where longer
/// sentences are asked for than are drawn, or a list would be written over a file that is read; 3
/// where a file can't be read or written, memory runs
/// out, or there are too many states.
pub fn run_sentences<F: Files + AllocGlobal + Clone + Drop, W: Write, E: Write>(
    rt: &F,
    asked: Asked<'_>,
    out: &mut W,
    errors: &mut E,
) -> io::Result<u8> {
    if asked.drawn.map_or(0, |drawn| drawn.length) > MOST_TOKENS {
        writeln!(errors, "ydebug: --length goes up to {MOST_TOKENS}")?;
        return Ok(2);
    }
    if asked.is_refused(rt, errors)? {
        return Ok(2);
    }
    match Language::open(rt, asked.files, errors)? {
        Ok(language) => put_open(rt, asked, language, out, errors),
        Err(status) => Ok(status),
    }
}
