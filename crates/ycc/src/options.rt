//! The options of `ycc`: what each is called, what stands after it, and what it asks for.

/// What stands after an option.
#[derive(Clone, Copy, PartialEq, Eq)]
pub enum Has {
    /// Nothing.
    Nothing,
    /// A value, in the next word too.
    Value(&'static str),
    /// A value in the same word, which may be left out.
    Perhaps(&'static str),
}

/// Who has an option.
#[derive(Clone, Copy, PartialEq, Eq)]
pub enum Whose {
    /// All.
    All,
    /// bison: its letter counts in a call as bison alone.
    Bison,
    /// byacc: it counts in any other call.
    Byacc,
}

/// What an option asks for.
#[derive(Clone, Copy, PartialEq, Eq)]
pub enum Ask {
    Help,
    Version,
    DataFolder,
    LocaleFolder,
    Header,
    NoLines,
    Trace,
    Report,
    Things,
    ReportFile,
    Page,
    Yacc,
    Pure,
    Locations,
    Bison,
    Lists,
    Names,
    FilePrefix,
    Output,
    NamePrefix,
    Messages,
    Spec,
    Define,
    Force,
    Table,
    Graph,
    OldGraph,
    Language,
    Skeleton,
    Kinds,
    Features,
    Nothing,
    /// What isn't done, for this reason.
    Refused(&'static str),
}

/// An option: its letter, its long names with a space between two, who has it, what stands after
/// it, what it asks for, and what is said of it.
pub type Known = (Option<char>, &'static str, Whose, Has, Ask, &'static str);

/// Why an output isn't there.
const NO_OUTPUT: Ask = Ask::Refused("ycc has no such output");

const NO_MAP: Ask = Ask::Refused("paths stay what they are in #line");

const NO_UPDATE: Ask = Ask::Refused("ycc changes no grammar file");

const ONE_FILE: Ask = Ask::Refused("code and tables stand in one file");

const NO_WAY_BACK: Ask = Ask::Refused("there are no parsers that go back");

const NOTHING: Has = Has::Nothing;

const FILE: Has = Has::Value("FILE");

const FILE_PERHAPS: Has = Has::Perhaps("FILE");

const PREFIX: Has = Has::Value("PREFIX");

const THINGS: Has = Has::Value("THINGS");

const THINGS_PERHAPS: Has = Has::Perhaps("THINGS");

const VARIABLE: Has = Has::Value("NAME=VALUE");

const LANGUAGE: Has = Has::Value("LANGUAGE");

/// How many options there are.
pub const COUNT: usize = 47;

/// How many of them stand in a list, but for the last one.
const PART: usize = 12;

/// The options, in the order of their help, in several lists: what names a list costs its proof
/// by the square of its length.
const FIRST: [Known; PART] = [
    (
        Some('h'),
        "help",
        Whose::All,
        NOTHING,
        Ask::Help,
        "Writes this text",
    ),
    (
        Some('V'),
        "version",
        Whose::All,
        NOTHING,
        Ask::Version,
        "Writes a text on the version",
    ),
    (
        None,
        "print-datadir",
        Whose::All,
        NOTHING,
        Ask::DataFolder,
        "Writes where bison has its skeletons",
    ),
    (
        None,
        "print-localedir",
        Whose::All,
        NOTHING,
        Ask::LocaleFolder,
        "Writes where bison has its translations",
    ),
    (
        Some('b'),
        "file-prefix",
        Whose::All,
        PREFIX,
        Ask::FilePrefix,
        "What the names of the files begin with",
    ),
    (
        Some('o'),
        "output output-file",
        Whose::All,
        FILE,
        Ask::Output,
        "The file of the parser",
    ),
    (
        Some('d'),
        "",
        Whose::All,
        NOTHING,
        Ask::Header,
        "Writes a header too",
    ),
    (
        None,
        "header defines",
        Whose::All,
        FILE_PERHAPS,
        Ask::Header,
        "Writes a header too, to this file",
    ),
    (
        Some('H'),
        "",
        Whose::Bison,
        FILE_PERHAPS,
        Ask::Header,
        "Writes a header too, to this file",
    ),
    (
        Some('H'),
        "",
        Whose::Byacc,
        FILE,
        Ask::Header,
        "Writes a header too, to this file",
    ),
    (
        Some('v'),
        "verbose",
        Whose::All,
        NOTHING,
        Ask::Report,
        "Writes the report on states too",
    ),
    (
        None,
        "report",
        Whose::All,
        THINGS_PERHAPS,
        Ask::Things,
        "Writes the report on states too",
    ),
];

const SECOND: [Known; PART] = [
    (
        Some('r'),
        "",
        Whose::Bison,
        THINGS,
        Ask::Things,
        "Writes the report on states too",
    ),
    (
        None,
        "report-file",
        Whose::All,
        FILE,
        Ask::ReportFile,
        "The file of the report",
    ),
    (
        None,
        "html",
        Whose::All,
        FILE_PERHAPS,
        Ask::Page,
        "Writes the report as a page for a browser too, to this file",
    ),
    (
        None,
        "table",
        Whose::All,
        FILE_PERHAPS,
        Ask::Table,
        "Writes the table of yacc too, to this file",
    ),
    (
        None,
        "graph",
        Whose::All,
        FILE_PERHAPS,
        Ask::Graph,
        "Writes the automaton as a graph in DOT too, to this file",
    ),
    (
        Some('g'),
        "",
        Whose::Bison,
        FILE_PERHAPS,
        Ask::Graph,
        "Writes the automaton as a graph in DOT too, to this file",
    ),
    (
        Some('g'),
        "",
        Whose::Byacc,
        NOTHING,
        Ask::OldGraph,
        "Writes the automaton as a graph in DOT too, laid out as byacc's",
    ),
    (
        Some('y'),
        "yacc fixed-output-files",
        Whose::All,
        NOTHING,
        Ask::Yacc,
        "The files have the names that yacc gives them",
    ),
    (
        None,
        "bison",
        Whose::All,
        NOTHING,
        Ask::Bison,
        "As in a call as bison",
    ),
    (
        Some('p'),
        "name-prefix",
        Whose::All,
        PREFIX,
        Ask::NamePrefix,
        "What names in C begin with, yy unless given",
    ),
    (
        Some('l'),
        "no-lines",
        Whose::All,
        NOTHING,
        Ask::NoLines,
        "Writes no #line",
    ),
    (
        Some('t'),
        "debug",
        Whose::All,
        NOTHING,
        Ask::Trace,
        "The parser can trace its steps",
    ),
];

const THIRD: [Known; PART] = [
    (
        Some('P'),
        "",
        Whose::All,
        NOTHING,
        Ask::Pure,
        "The parser has no variables that its calls share",
    ),
    (
        None,
        "locations",
        Whose::All,
        NOTHING,
        Ask::Locations,
        "Symbols have places",
    ),
    (
        Some('L'),
        "",
        Whose::Byacc,
        NOTHING,
        Ask::Locations,
        "Symbols have places",
    ),
    (
        Some('L'),
        "",
        Whose::Bison,
        LANGUAGE,
        Ask::Language,
        "The language, c or c++",
    ),
    (
        None,
        "language",
        Whose::All,
        LANGUAGE,
        Ask::Language,
        "The language, c or c++",
    ),
    (
        Some('S'),
        "skeleton",
        Whose::All,
        FILE,
        Ask::Skeleton,
        "The skeleton, yacc.c or lalr1.cc",
    ),
    (
        Some('k'),
        "token-table",
        Whose::All,
        NOTHING,
        Ask::Names,
        "The parser has a table of names",
    ),
    (
        Some('D'),
        "define",
        Whose::All,
        VARIABLE,
        Ask::Define,
        "Sets a variable of %define",
    ),
    (
        Some('F'),
        "force-define",
        Whose::All,
        VARIABLE,
        Ask::Force,
        "Sets one in place of what the file says",
    ),
    (
        None,
        "messages",
        Whose::All,
        FILE,
        Ask::Messages,
        "The parser says the messages of this file for its errors",
    ),
    (
        None,
        "lex",
        Whose::All,
        Has::Value("SPEC"),
        Ask::Spec,
        "Their inputs are texts, which this file cuts into tokens",
    ),
    (
        None,
        "bison-lists",
        Whose::All,
        NOTHING,
        Ask::Lists,
        "Errors list the tokens that bison would list",
    ),
];

const LAST: [Known; COUNT % PART] = [
    (
        Some('W'),
        "warnings",
        Whose::All,
        Has::Perhaps("KINDS"),
        Ask::Kinds,
        "Which warnings are told, and which are errors",
    ),
    (
        Some('f'),
        "feature",
        Whose::All,
        Has::Perhaps("FEATURES"),
        Ask::Features,
        "syntax-only: writes no file; others change nothing",
    ),
    (
        None,
        "color",
        Whose::All,
        Has::Perhaps("WHEN"),
        Ask::Nothing,
        "Changes nothing",
    ),
    (
        None,
        "style",
        Whose::All,
        FILE,
        Ask::Nothing,
        "Changes nothing",
    ),
    (
        Some('s'),
        "",
        Whose::Byacc,
        NOTHING,
        Ask::Nothing,
        "Changes nothing: strings get no names in C",
    ),
    (Some('x'), "xml", Whose::All, FILE_PERHAPS, NO_OUTPUT, ""),
    (
        Some('M'),
        "file-prefix-map",
        Whose::All,
        Has::Value("OLD=NEW"),
        NO_MAP,
        "",
    ),
    (Some('u'), "update", Whose::All, NOTHING, NO_UPDATE, ""),
    (Some('i'), "", Whose::Byacc, NOTHING, NO_OUTPUT, ""),
    (Some('r'), "", Whose::Byacc, NOTHING, ONE_FILE, ""),
    (Some('B'), "", Whose::Byacc, NOTHING, NO_WAY_BACK, ""),
];

/// One of the first options, by its place among them.
fn first_at(place: usize) -> Option<Known> {
    FIRST.get(place).copied()
}

/// One of the second options, by its place among them.
fn second_at(place: usize) -> Option<Known> {
    SECOND.get(place).copied()
}

/// One of the third options, by its place among them.
fn third_at(place: usize) -> Option<Known> {
    THIRD.get(place).copied()
}

/// One of the last options, by its place among them.
fn last_at(place: usize) -> Option<Known> {
    LAST.get(place).copied()
}

/// An option by its number from 0 on.
pub fn option_at(number: usize) -> Option<Known> {
    let place = number % PART;
    match number / PART {
        0 => first_at(place),
        1 => second_at(place),
        2 => third_at(place),
        3 => last_at(place),
        _ => None,
    }
}
