//! What both programs write to standard error, and the exit status.

ghost use Rattle.std.specs.Prelude.{◌≡◌, ◌++◌, ◌==◌, ◌&&◌, is_some, codes};
ghost use Rattle.ylink.specs.Link.{device_of};
ghost use Rattle.ylink.specs.Sends.{Sends};
ghost use Rattle.ygrammar.specs.GrammarOf.{line_in};
ghost use Rattle.ygenerate.specs.Messages.{conflicts_line, grammar_code, message};
ghost use Rattle.ygenerate.specs.Messages.{message_line, name_of, usage_of};
ghost use Rattle.ygenerate.specs.Generating.{IsGenerating};
ghost use Rattle.ygenerate.specs.Programs.{SaysSome, of_source, status};

use crate::arguments::YaccWords;
use crate::generate::GenerateFault;
use crate::source::SourceFault;
use std::io::Write;
use ygrammar::GrammarFault;
use ylalr::BuildFault;
use ylink::pieces::Piece::{Number, Words};
use ylink::pieces::{END, put_pieces};
use ylink::put::put;
use ytables::{Counts, Link};

/// One of the programs.
#[derive(Clone, Copy, PartialEq, Eq)]
pub enum Program {
    /// The parser generator.
    Yacc,
    /// The stepper.
    Ystep,
}

impl Program {
    /// The name that its messages begin with.
    fn name(self) -> &'static [u8]
        ensures { result.now ≡ name_of self }
    {
        match self {
            Program::Yacc => b"yacc",
            Program::Ystep => b"ystep",
        }
    }

    /// The message where the words are refused.
    fn usage(self) -> &'static [u8]
        ensures { result.now ≡ usage_of self }
    {
        match self {
            Program::Yacc => b"usage: yacc [-v] [-b prefix] grammar\n",
            Program::Ystep => b"usage: ystep grammar tokens\n",
        }
    }

    /// Writes a message, with a place where it has one. `None` where the link failed.
    pub fn say<'a, E: Write>(
        self,
        link: &mut Link<E>,
        what: &'a [u8],
        at: &'a [u8],
        number: Option<usize>,
    ) -> Option<()>
        ensures { Sends E.contents link.old link.new (is_some result)
            (message_line self what.now at.now number) }
    {
        let name = Words(self.name());
        let (between, what) = (Words(b": "), Words(what));
        match number {
            Some(n) => put_pieces(link, &[name, between, what, Words(at), Number(n), END]),
            None => put_pieces(link, &[name, between, what, END]),
        }
    }
}

/// Writes the help text; where the link fails, nothing more is said.
pub fn put_help<W: Write>(writer: &mut Link<W>, text: &str)
    ensures { SaysSome W.contents (device_of writer.old) writer.new }
{
    let _ = put(writer, text.as_bytes());
    let _ = writer.flush();
}

/// Whether both counts are 0.
fn is_free(counts: Counts) -> bool
    ensures { result ≡ (counts.shift_reduce == 0 && counts.reduce_reduce == 0) }
{
    counts.shift_reduce == 0 && counts.reduce_reduce == 0
}

/// Writes the line on conflicts, where there are some. `None` where the link failed.
pub(crate) fn put_conflicts<E: Write>(link: &mut Link<E>, counts: Counts) -> Option<()>
    ensures { Sends E.contents link.old link.new (is_some result) (conflicts_line counts) }
{
    if is_free(counts) {
        return Some(());
    }
    let first = Number(counts.shift_reduce as usize);
    let second = Number(counts.reduce_reduce as usize);
    let between = Words(b" shift/reduce, ");
    let end = Words(b" reduce/reduce\n");
    put_pieces(link, &[Words(b"conflicts: "), first, between, second, end])
}

/// Why a program ends before its work is done.
#[derive(Clone, Copy)]
pub enum Trouble<'a> {
    /// The words are refused.
    Usage,
    /// The grammar file is refused.
    Grammar(GrammarFault),
    /// The grammar has too many item sets.
    TooManySets,
    /// Memory ran out.
    NoMemory,
    /// The file at this path can't be read.
    CannotRead(&'a str),
    /// The file of this prefix and ending can't be written.
    CannotWrite(&'a str, &'static str),
}

impl<'a> From<GrammarFault> for Trouble<'a> {
    ghost use Rattle.ygenerate.specs.Programs.{of_grammar};

    ghost from_gives = { λ fault trouble. trouble ≡ of_grammar fault };

    fn from(fault: GrammarFault) -> Trouble<'a> {
        match fault {
            GrammarFault::Memory => Trouble::NoMemory,
            _ => Trouble::Grammar(fault),
        }
    }
}

impl<'a> From<BuildFault> for Trouble<'a> {
    ghost use Rattle.ygenerate.specs.Programs.{of_tables};

    ghost from_gives = { λ fault trouble. trouble ≡ of_tables fault };

    fn from(fault: BuildFault) -> Trouble<'a> {
        match fault {
            BuildFault::TooManySets => Trouble::TooManySets,
            BuildFault::Memory => Trouble::NoMemory,
        }
    }
}

impl<'a> Trouble<'a> {
    /// Why the program ends, where there are no tables of the grammar file at this path.
    pub fn of_source(path: &'a str, fault: SourceFault) -> Trouble<'a>
        ensures { result ≡ of_source path.entry fault }
    {
        match fault {
            SourceFault::Unread => Trouble::CannotRead(path),
            SourceFault::NoRoom | SourceFault::Tables => Trouble::NoMemory,
            SourceFault::Grammar(fault) => Trouble::from(fault),
            SourceFault::Build(fault) => Trouble::from(fault),
        }
    }

    /// Why the program ends, where not all files of a grammar were written.
    pub(crate) fn of_generating(words: YaccWords<'a>, fault: GenerateFault) -> Trouble<'a>
        ensures { IsGenerating words.entry fault result }
    {
        match fault {
            GenerateFault::Source(fault) => Trouble::of_source(words.grammar(), fault),
            GenerateFault::NoRoom(_) => Trouble::NoMemory,
            GenerateFault::Unopened(text) | GenerateFault::Unwritten(text) => {
                Trouble::CannotWrite(words.prefix(), text.ending())
            }
        }
    }

    /// The exit status: 1 where the grammar file is refused, 2 where the words are, 3 where a file
    /// fails, memory runs out, or there are too many item sets.
    pub fn status(&self) -> u8
        ensures { result ≡ status self.now }
    {
        match self {
            Trouble::Grammar(_) => 1,
            Trouble::Usage => 2,
            Trouble::TooManySets => 3,
            Trouble::NoMemory => 3,
            Trouble::CannotRead(_) => 3,
            Trouble::CannotWrite(_, _) => 3,
        }
    }

    /// Writes the program's message, one line. `None` where the link failed.
    pub fn put<E: Write>(&self, link: &mut Link<E>, program: Program) -> Option<()>
        ensures { Sends E.contents link.old link.new (is_some result) (message program self.now) }
    {
        match self {
            Trouble::Usage => put(link, program.usage()),
            Trouble::Grammar(fault) => {
                let (code, line) = (grammar_code(*fault), grammar_line(*fault));
                program.say(link, code, b" at line ", line)
            }
            Trouble::TooManySets => program.say(link, b"B1", b"", None),
            Trouble::NoMemory => program.say(link, b"no memory", b"", None),
            Trouble::CannotRead(path) => {
                let (name, path) = (Words(program.name()), Words(path.as_bytes()));
                put_pieces(link, &[name, Words(b": cannot read "), path, END])
            }
            Trouble::CannotWrite(prefix, ending) => {
                let (name, prefix) = (Words(program.name()), Words(prefix.as_bytes()));
                let ending = Words(ending.as_bytes());
                put_pieces(
                    link,
                    &[name, Words(b": cannot write "), prefix, ending, END],
                )
            }
        }
    }
}

/// The code of a fault of a grammar file.
fn grammar_code(fault: GrammarFault) -> &'static [u8]
    ensures { result.now ≡ grammar_code fault }
{
    match fault {
        GrammarFault::TooLong => b"G1",
        GrammarFault::Unfinished { line: _ } => b"G2",
        GrammarFault::BadLiteral { line: _ } => b"G3",
        GrammarFault::Foreign { line: _ } => b"G4",
        GrammarFault::Syntax { line: _ } => b"G5",
        GrammarFault::TokenLeft { line: _ } => b"G6",
        GrammarFault::Undefined { line: _ } => b"G7",
        GrammarFault::TwicePrecedence { line: _ } => b"G8",
        GrammarFault::BadNumber { line: _ } => b"G9",
        GrammarFault::BadStart { line: _ } => b"G10",
        GrammarFault::Unproductive { line: _ } => b"G11",
        GrammarFault::BadPrec { line: _ } => b"G12",
        GrammarFault::Limit { line: _ } => b"G13",
        GrammarFault::Memory => b"no memory",
    }
}

/// The line of a fault of a grammar file, where it has one.
fn grammar_line(fault: GrammarFault) -> Option<usize>
    ensures { result ≡ line_in fault }
{
    match fault {
        GrammarFault::TooLong | GrammarFault::Memory => None,
        GrammarFault::Unfinished { line }
        | GrammarFault::BadLiteral { line }
        | GrammarFault::Foreign { line }
        | GrammarFault::Syntax { line }
        | GrammarFault::TokenLeft { line }
        | GrammarFault::Undefined { line }
        | GrammarFault::TwicePrecedence { line }
        | GrammarFault::BadNumber { line }
        | GrammarFault::BadStart { line }
        | GrammarFault::Unproductive { line }
        | GrammarFault::BadPrec { line }
        | GrammarFault::Limit { line } => Some(line),
    }
}
