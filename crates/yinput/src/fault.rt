//! Why an input, or the SPEC by which inputs are cut, isn't taken.

use crate::grammars::GrammarFile;
use std::alloc::Global;
use std::io::{self, ErrorKind, Write};
use std::rt::Files;
use yexplain::lines::Lines;
use yexplain::reads::{Made, grammar_of};
use yexplain::text::{Escaped, Name};
use yfaults::opening::{Opened, file_fault};
use yfiles::diagnostic::{Diagnostic, Diagnostics};
use yfiles::place::{Place, Spot};
use yfiles::reading::Limited;
use ylex::fault::Wrong;
use yparse::TokenFault;
use ysymbols::{Grammar, Sym};
use ytables::Tables;

/// The most bytes that are shown of what nothing matches.
const MOST_BYTES: usize = 8;

/// What is wrong with a file.
#[derive(Clone, Copy)]
pub enum What {
    /// It can't be read.
    Unread,
    /// It is an input of more bytes than it may have.
    Long,
    /// It is a SPEC of more bytes than it may have.
    LongSpec,
    /// It is a tokens file with this fault.
    Tokens(TokenFault),
    /// It is a text, and nothing matches after so many bytes.
    Unmatched(usize),
    /// It is a text, and a token too many begins after so many bytes.
    TooMany(usize),
    /// It is a SPEC with this fault after so many bytes.
    Spec(usize, Wrong),
    /// It is a SPEC without a line for this token.
    Ungiven(Sym),
}

/// A file that isn't taken: all that is wrong with it, and its bytes, as far as they were read.
#[derive(Drop)]
pub struct Fault {
    path: String,
    most: u64,
    bytes: Vec<u8>,
    all: Vec<What>,
}

/// How many words of a file show whether it is a text.
const FIRST_WORDS: usize = 3;

/// What is said beside a word of a tokens file that names nothing.
const NO_TEXT: &str = "the input is read as names of tokens; a text is read by --lex SPEC";

/// The grammar of a language, its file, and where things stand in it, where that is known.
#[derive(Clone, Copy)]
struct About<'a> {
    path: &'a str,
    grammar: &'a Grammar,
    lines: Option<&'a Lines>,
}

/// That no line of a SPEC gives a token, with its place in the grammar file.
fn ungiven(alloc: Global, spec: &str, about: About<'_>, token: Sym) -> io::Result<Diagnostic> {
    let mut first = None;
    if let Some(lines) = about.lines {
        let mut mentions = lines.mentions.iter();
        first = Some(match mentions.find(|it| it.symbol == token) {
            Some(it) => it.spot,
            None => Spot {
                line: 1,
                column: None,
            },
        });
    }
    let name = Name(about.grammar, token);
    let mut one = Diagnostic::new(alloc, Some(about.path), first)?;
    write!(
        one.message,
        "{name}: no line of {spec} gives this token; write one, or name it after %none"
    )?;
    Ok(one)
}

/// A fault of a tokens file of these bytes; that it isn't read as a text, where one of its first
/// words names nothing.
fn tokens_fault(
    alloc: Global,
    grammar: &Grammar,
    file: (&str, &[u8]),
    fault: TokenFault,
) -> io::Result<Diagnostic> {
    let mut one = file_fault(alloc, grammar, file, fault)?;
    if let TokenFault::Unknown(place) | TokenFault::BadLiteral(place) = fault {
        if place <= FIRST_WORDS {
            one.note(alloc, NO_TEXT)?;
        }
    }
    Ok(one)
}

/// What is said where no line of a SPEC matches a text.
pub const UNMATCHED: &str = "no line of the SPEC matches here";

/// What is said where a token too many begins.
pub const TOO_MANY: &str = "more than 1,000,000 tokens; this is one more";

/// What is wrong at a place of a text, and the first bytes there up to the end of the line; a
/// newline where the line ends there.
pub fn fault_at(alloc: Global, place: Place<'_>, what: &str) -> io::Result<Diagnostic> {
    let rest = place.source.get(place.at..).unwrap_or(&[]);
    let newline = rest.iter().skip(1).position(|b| *b == b'\n');
    let end = newline.map_or(rest.len(), |count| count.saturating_add(1));
    let shown = Escaped(rest.get(..end.min(MOST_BYTES)).unwrap_or(rest));
    let more = if end > MOST_BYTES { ".." } else { "" };
    let mut one = Diagnostic::at(alloc, place, true)?;
    write!(one.message, "{what}: {shown}{more}")?;
    Ok(one)
}

impl Fault {
    /// What is wrong with a file of these bytes.
    pub fn new(alloc: Global, file: Limited<'_>, bytes: Vec<u8>, what: What) -> Made<Fault> {
        let mut all = Vec::new(alloc);
        all.push(what)?;
        Fault::of_all(alloc, file, bytes, all)
    }

    /// All that is wrong with a file of these bytes, in the order in which it is told.
    pub fn of_all(alloc: Global, file: Limited<'_>, bytes: Vec<u8>, all: Vec<What>) -> Made<Fault> {
        let Limited { path, most } = file;
        let path = format!(in alloc; "{path}")?;
        Ok(Fault {
            path,
            most,
            bytes,
            all,
        })
    }

    /// The bytes that were read of a file; or why there are none, `long` where there are too many.
    pub fn of_reading(
        alloc: Global,
        file: Limited<'_>,
        long: What,
        read: io::Result<Option<Vec<u8>>>,
    ) -> io::Result<Result<Vec<u8>, Fault>> {
        let what = match read {
            Ok(Some(bytes)) => return Ok(Ok(bytes)),
            Ok(None) => long,
            Err(error) if error.kind() == ErrorKind::OutOfMemory => return Err(error),
            Err(_) => What::Unread,
        };
        Ok(Err(Fault::new(alloc, file, Vec::new(alloc), what)?))
    }

    /// The exit status of a run that ends with it.
    fn status(&self) -> u8 {
        match self.all.first() {
            Some(What::Unread) => 3,
            _ => 1,
        }
    }

    /// Its place, where so many bytes stand before it.
    fn place(&self, at: usize) -> Place<'_> {
        Place {
            path: &self.path,
            source: &self.bytes,
            at,
        }
    }

    /// What is wrong with a line of a SPEC.
    fn line_fault(&self, alloc: Global, at: usize, wrong: Wrong) -> io::Result<Diagnostic> {
        let place = self.place(at);
        let mut one = Diagnostic::at(alloc, place, true)?;
        if matches!(wrong, Wrong::Expression(_)) {
            one.say("the expression doesn't compile: ")?;
        }
        one.say(wrong.text())?;
        Ok(one)
    }

    /// One thing that is wrong, with its place and the text there.
    fn diagnostic<F: Files + AllocGlobal>(
        &self,
        rt: &F,
        about: About<'_>,
        what: What,
    ) -> io::Result<Diagnostic> {
        let (alloc, path, most) = (rt.alloc(), self.path.as_str(), self.most);
        match what {
            What::Unread => {
                let mut one = Diagnostic::new(alloc, Some(path), None)?;
                one.say("cannot read it")?;
                Ok(one)
            }
            What::Long => Limited { path, most }.too_long(rt, true),
            What::LongSpec => Limited { path, most }.too_long(rt, false),
            What::Tokens(fault) => {
                tokens_fault(alloc, about.grammar, (path, self.bytes.as_slice()), fault)
            }
            What::Unmatched(at) => fault_at(alloc, self.place(at), UNMATCHED),
            What::TooMany(at) => fault_at(alloc, self.place(at), TOO_MANY),
            What::Spec(at, wrong) => self.line_fault(alloc, at, wrong),
            What::Ungiven(token) => ungiven(alloc, path, about, token),
        }
    }

    /// Says all that is wrong, and gives the exit status.
    fn tell_all<F: Files + AllocGlobal>(
        &self,
        rt: &F,
        told: &mut Diagnostics,
        about: About<'_>,
    ) -> io::Result<u8> {
        for what in &self.all {
            told.add(self.diagnostic(rt, about, *what)?)?;
        }
        Ok(self.status())
    }

    /// Says what is wrong, and gives the exit status. The grammar of the language has these tables,
    /// and this is the path of its file.
    pub fn tell_of<'a, F: Files + AllocGlobal>(
        &self,
        rt: &F,
        told: &mut Diagnostics,
        path: &'a str,
        tables: &'a Tables,
    ) -> io::Result<u8> {
        let about = About {
            path,
            grammar: grammar_of(tables),
            lines: None,
        };
        self.tell_all(rt, told, about)
    }

    /// Says what is wrong, and gives the exit status. The grammar of the language is open, and this
    /// is its file.
    pub fn tell<F: Files + AllocGlobal>(
        &self,
        rt: &F,
        told: &mut Diagnostics,
        file: GrammarFile<'_>,
        opened: &Opened,
    ) -> io::Result<u8> {
        let about = About {
            path: file.path,
            grammar: grammar_of(&opened.tables),
            lines: Some(&opened.lines),
        };
        self.tell_all(rt, told, about)
    }

    /// Writes what is wrong for people, and gives the exit status.
    pub fn put<F: Files + AllocGlobal, W: Write>(
        &self,
        rt: &F,
        out: &mut W,
        file: GrammarFile<'_>,
        opened: &Opened,
    ) -> io::Result<u8> {
        let mut told = Diagnostics::new(rt.alloc());
        let status = self.tell(rt, &mut told, file, opened)?;
        told.put(out, "ydebug")?;
        Ok(status)
    }

    /// Writes what is wrong first as a plain line, and gives the exit status.
    pub fn put_plain<W: Write>(&self, out: &mut W) -> io::Result<u8> {
        let path = self.path.as_str();
        let written = match self.all.first() {
            Some(What::Unread) | None => writeln!(out, "{path}: cannot read it"),
            Some(What::Tokens(fault)) => writeln!(out, "{path}: {fault}"),
            Some(What::Unmatched(at) | What::TooMany(at) | What::Spec(at, _)) => {
                let spot = self.place(*at).spot();
                writeln!(out, "{path}: refused at {spot}")
            }
            Some(What::Long | What::LongSpec) => writeln!(out, "{path}: too long"),
            Some(What::Ungiven(_)) => writeln!(out, "{path}: a token is missing"),
        };
        written?;
        Ok(self.status())
    }
}
