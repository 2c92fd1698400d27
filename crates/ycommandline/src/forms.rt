//! The forms of the command line.

use crate::ways::{Argument, Way, argument};
use clap::Command;
use std::alloc::{AllocError, Global};

/// How a session is asked for; the other forms are those of [`FORMS`].
pub const USAGE: &str = "usage: ydebug grammar tokens [--lex SPEC] [--script FILE]\n";

/// The other forms, and what holds of all, as help and usage have them.
pub const FORMS: &str = "Other forms:\n\
    \x20 ydebug conflicts grammar [--all] [--save FOLDER] [-WNAME] [--strict[=NAME]]\n\
    \x20     [--expect N[,M]] [--accept FILE [--update]] [--format FORM]\n\
    \x20 ydebug check grammar tokens.. [--lex SPEC] [--messages FILE] [--choice] [--plain]\n\
    \x20     [--format FORM] [-WNAME]\n\
    \x20 ydebug errors grammar [--lex SPEC] [--states]\n\
    \x20     [--messages FILE [--complete] [--update | --table OUT]]\n\
    \x20 ydebug sentences grammar [--lex SPEC] [--cover KIND] [--near] [--save FOLDER]\n\
    \x20     [--strict]\n\
    \x20 ydebug sentences grammar --random N [--length L] [--seed S] [--lex SPEC] [--near]\n\
    \x20     [--save FOLDER] [--strict]\n\
    \x20 ydebug cover grammar tokens.. [--lex SPEC] [--states] [--actions] [--strict]\n\
    \x20 ydebug test grammar folder [--lex SPEC] [--messages FILE]\n\
    \x20 ydebug page grammar tokens [--lex SPEC] [-o FILE] [--first K] [--last K] [--conflicts]\n\
    \x20 ydebug tokens grammar --lex SPEC input\n\
    \x20 ydebug lex-spec grammar\n\
    \x20 ydebug import file [-o grammar] [-WNAME]\n\
    \x20 ydebug rules grammar [--header FILE] [--python FILE]\n\
    \x20 ydebug table [-v] [-b PREFIX] grammar\n\
    \x20 ydebug init name\n\
    \x20 ydebug serve\n\
    A grammar file of bison or byacc is read as one; --dialect D (yacc, bison, auto) says which it is.\n\
    With --limit N an input has up to N bytes; without it, up to 16777216.\n";

/// The version of the program.
const VERSION: &str = "1.0.0";

/// A form of the command line; `about` says what each does.
#[derive(Clone, Copy)]
pub enum Form {
    Debug,
    Conflicts,
    Check,
    Errors,
    Sentences,
    Cover,
    Test,
    Page,
    Import,
    Tokens,
    Sketch,
    Rules,
    Table,
    Init,
}

impl Form {
    /// The whole name of the program with the word for the form.
    pub fn name(self) -> &'static str {
        match self {
            Form::Debug => "ydebug",
            Form::Conflicts => "ydebug conflicts",
            Form::Check => "ydebug check",
            Form::Errors => "ydebug errors",
            Form::Sentences => "ydebug sentences",
            Form::Cover => "ydebug cover",
            Form::Test => "ydebug test",
            Form::Page => "ydebug page",
            Form::Import => "ydebug import",
            Form::Tokens => "ydebug tokens",
            Form::Sketch => "ydebug lex-spec",
            Form::Rules => "ydebug rules",
            Form::Table => "ydebug table",
            Form::Init => "ydebug init",
        }
    }

    /// The word for the form; the first one has none.
    pub fn word(self) -> &'static str {
        self.name().split_once(' ').map_or("", |(_, word)| word)
    }
}

/// The forms but the first.
pub const OTHERS: [Form; 13] = [
    Form::Conflicts,
    Form::Check,
    Form::Errors,
    Form::Sentences,
    Form::Cover,
    Form::Test,
    Form::Page,
    Form::Import,
    Form::Tokens,
    Form::Sketch,
    Form::Rules,
    Form::Table,
    Form::Init,
];

/// The form that a first word means.
pub fn form_of(word: Option<&&str>) -> Form {
    for form in &OTHERS {
        if word == Some(&form.word()) {
            return *form;
        }
    }
    Form::Debug
}

const GRAMMAR: Argument = ("grammar", Way::File("grammar"), "The grammar file");

const INPUT: Argument = (
    "tokens",
    Way::File("tokens"),
    "The tokens file; with --lex, a text",
);

const LEX: Argument = (
    "lex",
    Way::Value("SPEC"),
    "The file that says how the tokens of a text look",
);

const LIMIT: Argument = (
    "limit",
    Way::Value("N"),
    "The most bytes of an input; without it, 16777216",
);

const DIALECTS: &str = "yacc, bison (or byacc), or auto, which sees it; without it, auto";

const DIALECT: Argument = ("dialect", Way::Renamed("D", "from"), DIALECTS);

const FORMAT: Argument = (
    "format",
    Way::Value("FORM"),
    "gcc: a line for each thing; json: a document; text: for people",
);

const DEBUG: &[Argument] = &[
    GRAMMAR,
    INPUT,
    LEX,
    (
        "script",
        Way::Value("FILE"),
        "Follows the commands of this file first, a line for each",
    ),
    (
        "journal",
        Way::Value("FILE"),
        "Goes on where this file says, and keeps in it where the session is",
    ),
    (
        "more",
        Way::Value("WHEN"),
        "screen: stops at the end of a screen of LINES lines, as without it; never: goes on",
    ),
    LIMIT,
    DIALECT,
];

const WARNINGS: Argument = (
    "W",
    Way::Letters('W', "NAME"),
    "Shows warnings of a category; with no- before NAME it doesn't",
);

const CONFLICTS: &[Argument] = &[
    GRAMMAR,
    (
        "all",
        Way::Flag,
        "Explains each conflict whole, also where another one comes of the same cause",
    ),
    (
        "save",
        Way::Value("FOLDER"),
        "Writes the tokens of each conflict to a file of this folder",
    ),
    DIALECT,
    WARNINGS,
    (
        "strict",
        Way::Optional("NAME"),
        "Ends with 1 where a conflict isn't accepted, or there is a warning; of NAME alone",
    ),
    (
        "expect",
        Way::Value("N"),
        "Accepts N shift/reduce conflicts; with N,M also M reduce/reduce ones",
    ),
    (
        "accept",
        Way::Value("FILE"),
        "Accepts the conflicts that this file lists",
    ),
    (
        "update",
        Way::Flag,
        "Writes the list of accepted conflicts anew",
    ),
    FORMAT,
];

const MESSAGES: Argument = ("messages", Way::Value("FILE"), "A file of messages");

const INPUTS: Argument = (
    "tokens",
    Way::Files,
    "The tokens files, or with --lex texts; - is standard input",
);

const CHECK: &[Argument] = &[
    GRAMMAR,
    INPUTS,
    LEX,
    LIMIT,
    DIALECT,
    MESSAGES,
    (
        "all",
        Way::Flag,
        "Says all errors of an input, by the grammar's own recovery",
    ),
    (
        "choice",
        Way::Flag,
        "Says whether the grammar is free of choices",
    ),
    (
        "plain",
        Way::Flag,
        "Writes a plain line for the grammar and for each input",
    ),
    FORMAT,
    WARNINGS,
];

const ERRORS: &[Argument] = &[
    GRAMMAR,
    (
        "lex",
        Way::Value("SPEC"),
        "Inputs are texts, whose tokens look as this file says",
    ),
    MESSAGES,
    (
        "complete",
        Way::Flag,
        "Wants a message for each state in which an error is detected",
    ),
    (
        "update",
        Way::Flag,
        "Writes the file anew: its comments, and the states that are new",
    ),
    (
        "states",
        Way::Flag,
        "Gives each state a block, also where the same tokens could come",
    ),
    (
        "table",
        Way::Value("OUT"),
        "Writes the messages as data for drivers to this file",
    ),
    LIMIT,
    DIALECT,
];

const SENTENCES: &[Argument] = &[
    GRAMMAR,
    (
        "lex",
        Way::Value("SPEC"),
        "Writes texts, whose tokens look as this file says",
    ),
    (
        "cover",
        Way::Value("KIND"),
        "What they use: rules, states or actions; without it, rules",
    ),
    (
        "random",
        Way::Value("N"),
        "Draws so many sentences at random instead",
    ),
    (
        "length",
        Way::Value("L"),
        "The most tokens of each that is drawn; without it, 20",
    ),
    (
        "seed",
        Way::Value("S"),
        "What they are drawn by; without it, 1",
    ),
    (
        "near",
        Way::Flag,
        "Writes lists that are near to each too, with their verdicts",
    ),
    (
        "save",
        Way::Value("FOLDER"),
        "Writes each list to a file of this folder",
    ),
    DIALECT,
    (
        "strict",
        Way::Flag,
        "Ends with 1 where something isn't found, or a random sentence is refused",
    ),
];

const COVER: &[Argument] = &[
    GRAMMAR,
    INPUTS,
    LEX,
    LIMIT,
    DIALECT,
    ("states", Way::Flag, "Lists all states that aren't used"),
    (
        "actions",
        Way::Flagged("cells"),
        "Lists all actions that aren't used",
    ),
    (
        "strict",
        Way::Flag,
        "Ends with 1 where something isn't used",
    ),
];

const TEST: &[Argument] = &[
    GRAMMAR,
    (
        "folder",
        Way::File("folder"),
        "The folder that has good and bad, the folders of inputs",
    ),
    LEX,
    LIMIT,
    DIALECT,
    MESSAGES,
];

const PAGE: &[Argument] = &[
    GRAMMAR,
    INPUT,
    (
        "file",
        Way::Letter('o', "file"),
        "The file that the page goes to; without it, standard output",
    ),
    LEX,
    LIMIT,
    ("dialect", Way::Value("D"), DIALECTS),
    ("first", Way::Value("K"), "The first position that it shows"),
    (
        "last",
        Way::Renamed("K", "to"),
        "The last position that it shows",
    ),
    ("from", Way::Old, "A dialect, or the first position"),
    (
        "conflicts",
        Way::Flag,
        "Shows the conflicts of the grammar too",
    ),
];

const TOKENS: &[Argument] = &[
    GRAMMAR,
    ("tokens", Way::File("input"), "The text"),
    (
        "lex",
        Way::Wanted("SPEC"),
        "The file that says how the tokens of a text look",
    ),
    LIMIT,
    DIALECT,
];

const SKETCH: &[Argument] = &[GRAMMAR, DIALECT];

const IMPORT: &[Argument] = &[
    ("file", Way::File("file"), "The file of bison or byacc"),
    (
        "output",
        Way::Letter('o', "output"),
        "Writes the grammar to this file",
    ),
    WARNINGS,
];

const RULES: &[Argument] = &[
    GRAMMAR,
    (
        "header",
        Way::Value("FILE"),
        "Writes the names as a header in C to this file",
    ),
    (
        "python",
        Way::Value("FILE"),
        "Writes them as a module in Python to this file",
    ),
    DIALECT,
];

const TABLE: &[Argument] = &[
    GRAMMAR,
    ("v", Way::LetterFlag('v'), "Writes the report on states too"),
    (
        "prefix",
        Way::Letter('b', "prefix"),
        "What the names of the files begin with; without it, y",
    ),
];

const INIT: &[Argument] = &[(
    "name",
    Way::File("name"),
    "The name of the language, and of the folder that is made",
)];

/// What a form does.
fn about(form: Form) -> &'static str {
    match form {
        Form::Debug => "Steps a parse forward and back for a person at a terminal",
        Form::Conflicts => "Explains the conflicts of a grammar, and warns of what it doesn't use",
        Form::Check => "Says of each input whether it is a sentence of a grammar",
        Form::Errors => "Lists the errors of a grammar, each with a shortest wrong input",
        Form::Sentences => "Writes short sentences of a grammar that use all of it",
        Form::Cover => "Says what inputs use of a grammar, and what none of them uses",
        Form::Test => "Tries inputs that are to be accepted, and others that aren't",
        Form::Page => "Makes a page in HTML of a parse, to be looked at in a browser",
        Form::Import => "Makes a grammar file of bison or byacc one that yacc reads",
        Form::Tokens => "Writes the tokens of a text as a tokens file",
        Form::Sketch => "Sketches the file that says how the tokens of a text look",
        Form::Rules => "Names the rules of a grammar for programs that read its table",
        Form::Table => "Writes the table of a grammar as yacc does",
        Form::Init => "Makes a folder with what a new language begins from",
    }
}

/// The arguments of a form.
pub fn arguments_of(form: Form) -> &'static [Argument] {
    match form {
        Form::Debug => DEBUG,
        Form::Conflicts => CONFLICTS,
        Form::Check => CHECK,
        Form::Errors => ERRORS,
        Form::Sentences => SENTENCES,
        Form::Cover => COVER,
        Form::Test => TEST,
        Form::Page => PAGE,
        Form::Import => IMPORT,
        Form::Tokens => TOKENS,
        Form::Sketch => SKETCH,
        Form::Rules => RULES,
        Form::Table => TABLE,
        Form::Init => INIT,
    }
}

/// The command line of a form, which the program has under this name. Help on the first one names
/// the others.
pub fn command_of<'a>(alloc: Global, name: &'a str, form: Form) -> Result<Command<'a>, AllocError> {
    let mut command = Command::new(alloc, name).about(about(form));
    for wanted in arguments_of(form) {
        command = command.arg(argument(alloc, *wanted)?)?;
    }
    match form {
        Form::Debug => Ok(command.version(VERSION).after_help(FORMS)),
        _ => Ok(command),
    }
}
