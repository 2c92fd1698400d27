//! The loop over command lines.

use crate::breaks::Breaks;
use crate::condition::{condition_of, number_in};
use crate::edits::{insert, put_edit, save};
use crate::help::{put_candidates, put_unknown, show_help, verb_of};
use crate::history::{has_edits, put_errors};
use crate::journal::{keep, resume};
use crate::lines::{Came, LONGEST, next_line};
use crate::moves::make_move;
use crate::refusal::{Refusal, misused, put_refusal};
use crate::reload::reload;
use crate::screen::{Screen, Size};
use crate::text::{list, put_ahead, put_upcoming};
use crate::travel::{LAST, Move, condition_at_fault, move_of, until_in};
use crate::verb::Verb;
use crate::views::View;
use crate::words::{Found, first_word};
use std::io::{self, BufReader, ErrorKind, Read, Write};
use std::rt::Files;
use std::str;
use yexplain::reads::{Made, grammar_of};
use yexplain::text::Escaped;
use yinput::Parse;
use yinput::source::Source;
use yview::grammar_view::put_grammar;
use yview::place_view::{put_stack, put_where};
use yview::reading::last_rule;
use yview::{Page, Paint};

/// Where a session takes place: whether a person sits at a terminal.
#[derive(Clone, Copy)]
pub struct Setting {
    /// Whether standard input and output are a terminal.
    pub terminal: bool,
    /// Whether to write in colour.
    pub colour: bool,
    /// How many columns a line for people has, where longer ones are to be broken at words.
    pub columns: Option<usize>,
    /// How many lines a screen has, where what is written is to stop at its end.
    pub lines: Option<usize>,
}

/// What a session begins with.
#[derive(Clone, Copy)]
pub struct Beginning<'a> {
    /// The commands of a script.
    pub script: &'a [u8],
    /// The path of a journal: the session goes on where that says, and keeps it.
    pub journal: Option<&'a str>,
}

/// Whether a session goes on.
#[derive(Clone, Copy, PartialEq, Eq)]
enum Flow {
    GoesOn,
    Quits,
    /// The lines have come to their end.
    Ends,
}

/// A session with a person.
#[derive(Drop)]
struct Desk<'a, F, W> {
    source: &'a Source<'a, F>,
    setting: Setting,
    parse: Parse,
    page: Page<Screen<W>>,
    last: Option<Move>,
    breaks: Breaks,
    /// The path of its journal.
    journal: Option<String>,
    /// Whether an edit was made that no file has.
    unsaved: bool,
}

impl<F: Files + AllocGlobal, W: Write> Desk<'_, F, W> {
    /// The parse to be looked at.
    fn view(&mut self) -> View<'_, Screen<W>> {
        View {
            alloc: self.source.rt.alloc(),
            parse: &self.parse,
            page: &mut self.page,
        }
    }

    /// Makes a move, which an empty line then repeats.
    fn go(&mut self, wanted: Move) -> Made<()> {
        let (alloc, progress) = (self.source.rt.alloc(), self.setting.terminal);
        self.last = Some(wanted);
        make_move(
            alloc,
            &mut self.parse,
            &mut self.page,
            wanted,
            &self.breaks,
            progress,
        )
    }

    /// Makes the move that a command means.
    fn travel(&mut self, verb: Verb, text: &str) -> Made<()> {
        match move_of(&self.parse.session, self.parse.tokens, verb, text) {
            Ok(wanted) => self.go(wanted),
            Err(Refusal::NoNumber) => {
                put_refusal(&mut self.page, misused(verb));
                Ok(())
            }
            Err(refusal) => {
                let name = condition_at_fault(until_in(text).unwrap_or(""), refusal);
                self.view().refuse_name(name, refusal)
            }
        }
    }

    /// Changes the upcoming tokens, or writes them to a file.
    fn edit(&mut self, verb: Verb, text: &str) -> Made<()> {
        let (alloc, page) = (self.source.rt.alloc(), &mut self.page);
        let wants_word = verb != Verb::Drop;
        match verb {
            _ if wants_word == text.is_empty() => put_refusal(page, misused(verb)),
            Verb::Insert => {
                self.unsaved = true;
                return insert(alloc, &mut self.parse, page, text);
            }
            Verb::Drop => {
                self.unsaved = true;
                let made = self.parse.session.drop_next();
                put_edit(page, &self.parse, made);
            }
            verb => {
                let over = verb == Verb::SaveOver;
                if save(self.source, &self.parse, page, text, over) {
                    self.unsaved = false;
                }
            }
        }
        Ok(())
    }

    /// Sets a breakpoint.
    fn set_break(&mut self, text: &str) -> Made<()> {
        let alloc = self.source.rt.alloc();
        let condition = condition_of(&self.parse.session, self.parse.tokens, text);
        match condition {
            _ if text.is_empty() => put_refusal(&mut self.page, misused(Verb::Break)),
            Ok(condition) => {
                let (session, page) = (&self.parse.session, &mut self.page);
                return self.breaks.set(alloc, page, session, (text, condition));
            }
            Err(Refusal::NoNumber) => put_refusal(&mut self.page, misused(Verb::Break)),
            Err(refusal) => {
                let name = condition_at_fault(text, refusal);
                return self.view().refuse_name(name, refusal);
            }
        }
        Ok(())
    }

    /// Deletes breakpoints.
    fn delete(&mut self, text: &str) {
        match number_in(text, "breakpoints", 1, LAST) {
            _ if text.is_empty() => self.breaks.clear(&mut self.page),
            Ok(number) => self.breaks.delete(&mut self.page, number),
            Err(_) => put_refusal(&mut self.page, misused(Verb::Delete)),
        }
    }

    /// Shows lines of the text.
    fn list(&mut self, text: &str) {
        match list(&mut self.page, &self.parse, text) {
            Ok(()) => {}
            Err(Refusal::NoNumber) => put_refusal(&mut self.page, misused(Verb::List)),
            Err(refusal) => put_refusal(&mut self.page, refusal),
        }
    }

    /// Shows what needs no arguments of the command.
    fn look(&mut self, verb: Verb) -> Made<()> {
        let (parse, page) = (&self.parse, &mut self.page);
        match verb {
            Verb::Where => {
                put_where(page, &parse.session, parse.tokens);
                put_ahead(page, parse);
            }
            Verb::Stack => put_stack(page, &parse.session),
            Verb::Upcoming => put_upcoming(page, parse),
            Verb::Expected => return self.view().show_expected(),
            Verb::Explain => return self.view().show_position(),
            Verb::Grammar => put_grammar(page, parse.session.tables(), &parse.lines),
            Verb::Conflicts => return self.view().show_conflicts(),
            Verb::Breaks => self.breaks.put(page, &parse.session),
            Verb::Errors => put_errors(page, parse),
            // These are answered before. Each stands here, so that a new command has its answer
            // or doesn't compile.
            Verb::Step | Verb::Back | Verb::To | Verb::Run | Verb::Quit | Verb::Reload => {}
            Verb::Insert | Verb::Drop | Verb::Save | Verb::SaveOver => {}
            Verb::State | Verb::Why | Verb::Rule | Verb::Symbol => {}
            Verb::Tree | Verb::Derivation | Verb::History | Verb::Help => {}
            Verb::Continue | Verb::Next | Verb::Finish => {}
            Verb::Break | Verb::Delete | Verb::List => {}
        }
        Ok(())
    }

    /// Shows what the arguments of the command ask for.
    fn show(&mut self, verb: Verb, text: &str) -> Made<()> {
        match verb {
            Verb::State => self.view().show_state(text),
            Verb::Why => return self.view().show_why(text),
            Verb::Rule => self.view().show_rule(text),
            Verb::Symbol => return self.view().show_symbol(text),
            Verb::Tree => return self.view().show_tree(text),
            Verb::Derivation => return self.view().show_derivation(text),
            Verb::History => self.view().show_history(text),
            Verb::List => self.list(text),
            Verb::Break => return self.set_break(text),
            Verb::Delete => self.delete(text),
            Verb::Help => return show_help(self.source.rt.alloc(), &mut self.page, text),
            verb if text.is_empty() => return self.look(verb),
            verb => put_refusal(&mut self.page, misused(verb)),
        }
        Ok(())
    }

    /// Does what a command and its arguments say.
    fn obey(&mut self, verb: Verb, text: &str) -> io::Result<Flow> {
        match verb {
            Verb::Quit if text.is_empty() => return Ok(Flow::Quits),
            Verb::Step | Verb::Back | Verb::To | Verb::Run => self.travel(verb, text)?,
            Verb::Continue | Verb::Next | Verb::Finish => self.travel(verb, text)?,
            Verb::Insert | Verb::Drop | Verb::Save | Verb::SaveOver => self.edit(verb, text)?,
            Verb::Reload if text.is_empty() => {
                self.last = None;
                reload(&mut self.page, &mut self.parse, self.source)?;
                self.breaks.renew(&mut self.page, &self.parse);
            }
            verb => self.show(verb, text)?,
        }
        Ok(Flow::GoesOn)
    }

    /// Answers a line; an empty one makes the last move again, where there was one.
    fn answer(&mut self, line: &str) -> io::Result<Flow> {
        let (word, text) = first_word(line);
        match verb_of(word) {
            _ if word.is_empty() => {
                if let Some(wanted) = self.last {
                    self.go(wanted)?;
                }
            }
            Found::One(verb) => return self.obey(verb, text),
            Found::Many => put_candidates(&mut self.page, word),
            Found::Nothing => put_unknown(self.source.rt.alloc(), &mut self.page, word)?,
        }
        Ok(Flow::GoesOn)
    }

    /// Answers a line, also where there is no memory for what it asks.
    fn serve(&mut self, line: &[u8]) -> io::Result<Flow> {
        let Ok(line) = str::from_utf8(line) else {
            self.page.show(Escaped(line));
            self.page.line(" is no UTF-8 text.");
            return Ok(Flow::GoesOn);
        };
        match self.answer(line) {
            Err(error) if error.kind() == ErrorKind::OutOfMemory => {
                if self.page.column > 0 {
                    self.page.end();
                }
                put_refusal(&mut self.page, Refusal::Memory);
                Ok(Flow::GoesOn)
            }
            answered => answered,
        }
    }

    /// The end of the lines. A person with edits that no file has is asked once.
    fn end(&mut self) -> Flow {
        let asks = self.setting.terminal && self.unsaved && has_edits(&self.parse.session);
        if !asks {
            return Flow::Ends;
        }
        self.unsaved = false;
        self.page.line("The edits are in no file: save FILE writes the input, quit ends.");
        Flow::GoesOn
    }

    /// Asks a person at a terminal for a line, after how many lines wait for a further screen.
    fn ask(&mut self) {
        let waiting = self.page.writer().waiting();
        self.page.writer().end();
        if waiting > 0 {
            let lines = if waiting == 1 { "line" } else { "lines" };
            let _ = writeln!(
                self.page,
                "-- {waiting} {lines} more: an empty line shows them --"
            );
        }
        self.page.painted(Paint::Strong, "(ydebug) ");
    }

    /// Begins the screen for what a line is answered with. Where it is empty and lines wait, these
    /// are the answer, which is given, and said to be.
    fn begin_screen(&mut self, is_empty: bool) -> io::Result<bool> {
        let (alloc, screen) = (self.source.rt.alloc(), self.page.writer());
        let goes_on = is_empty && screen.waiting() > 0;
        if goes_on {
            screen.go_on(alloc)?;
        } else {
            screen.begin();
        }
        Ok(goes_on)
    }

    /// Asks for a line where a person sits at a terminal, reads it and answers it.
    fn turn<R: Read>(&mut self, reader: &mut BufReader<R>, line: &mut Vec<u8>) -> io::Result<Flow> {
        if let Some(path) = &self.journal {
            // The session goes on without it.
            let _ = keep(self.source.rt, path, &self.parse, &self.breaks);
        }
        if self.setting.terminal {
            self.ask();
        }
        self.page.flush()?;
        let came = next_line(reader, line)?;
        if came != Came::End {
            self.page.column = 0;
        }
        if self.setting.terminal && came != Came::End {
            let is_empty = came == Came::Line && line.trim_ascii().is_empty();
            if self.begin_screen(is_empty)? {
                return Ok(Flow::GoesOn);
            }
        }
        match came {
            Came::End => {
                if self.setting.terminal {
                    self.page.end();
                }
                Ok(self.end())
            }
            Came::Long => {
                self.page.line("That line is too long.");
                Ok(Flow::GoesOn)
            }
            Came::Line => self.serve(line),
        }
    }

    /// Greets a person at a terminal: with where the session is, if it goes on.
    fn greet(&mut self, goes_on: bool) {
        if !self.setting.terminal {
            return;
        }
        if goes_on {
            self.page.end();
            put_where(&mut self.page, &self.parse.session, self.parse.tokens);
            return put_ahead(&mut self.page, &self.parse);
        }
        let (tables, page) = (self.parse.session.tables(), &mut self.page);
        let counts = tables.conflicts();
        let conflicts = counts.shift_reduce.saturating_add(counts.reduce_reduce);
        page.count(last_rule(grammar_of(tables)), "rule, ", "rules, ");
        page.count(tables.automaton().states(), "state, ", "states, ");
        page.count(conflicts as usize, "conflict, ", "conflicts, ");
        page.count(self.parse.tokens, "token; ", "tokens; ");
        page.line("type help");
    }
}

impl<F: Files + AllocGlobal, W: Write> Desk<'_, F, W> {
    /// Answers the lines of a reader, up to `quit` or their end.
    fn answer_all<R: Read + Drop>(&mut self, reader: R) -> io::Result<Flow> {
        let alloc = self.source.rt.alloc();
        let mut line = Vec::with_capacity(alloc, LONGEST)?;
        let mut reader = BufReader::new(alloc, reader)?;
        for _ in 0..u64::MAX {
            let flow = self.turn(&mut reader, &mut line)?;
            if flow != Flow::GoesOn {
                return Ok(flow);
            }
        }
        Ok(Flow::Ends)
    }

    /// Answers the lines of a script, without asking for them.
    fn follow(&mut self, script: &[u8]) -> io::Result<Flow> {
        let terminal = self.setting.terminal;
        self.setting.terminal = false;
        let flow = self.answer_all(script)?;
        self.setting.terminal = terminal;
        Ok(flow)
    }
}

/// A session over a parse: command lines of a script, and then from the reader, what they show to
/// the writer, up to `quit` or the end of the input.
///
/// An error is that of the reader or of the writer, or memory ran out before the first line.
pub fn debug<F: Files + AllocGlobal, R: Read + Drop, W: Write + Drop>(
    source: &Source<'_, F>,
    setting: Setting,
    parse: Parse,
    beginning: Beginning<'_>,
    reader: R,
    writer: W,
) -> io::Result<()> {
    let alloc = source.rt.alloc();
    let (mut parse, mut breaks) = (parse, Breaks::new(alloc));
    let (mut journal, mut goes_on) = (None, false);
    if let Some(path) = beginning.journal {
        goes_on = resume(source.rt, path, &mut parse, &mut breaks)?;
        journal = Some(String::from_str(alloc, path)?);
    }
    let size = setting.lines.map(|lines| Size {
        lines,
        columns: setting.columns.unwrap_or(usize::MAX),
    });
    let screen = Screen::new(alloc, writer, size);
    let mut desk = Desk {
        source,
        setting,
        parse,
        page: Page::new(screen, setting.colour),
        last: None,
        breaks,
        journal,
        unsaved: goes_on,
    };
    desk.greet(goes_on);
    if desk.follow(beginning.script)? != Flow::Quits {
        let _ = desk.answer_all(reader)?;
    }
    desk.page.flush()
}
