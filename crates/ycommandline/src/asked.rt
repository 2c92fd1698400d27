//! What words ask for.

use crate::ending::Refused;
use crate::forms::Form;
use crate::values::{
    NO_FOLDER, choice_in, drawn_in, grammar_in, input_in, is_given, kind_in, language_in,
    messages_in, most_of, number_of, page_in, value_of,
};
use crate::{begin, check, conflicts, cover, table, testing};
use clap::ArgMatches;
use ydiagnostics::checking;
use ydiagnostics::format::{Format, NO_FORM, form_of};
use yfiles::reading::Limited;
use yfrontend::import;
use yhtml::page;
use yhtml::walk::Part;
use yinput::grammars::GrammarFile;
use yinput::language::LanguageFiles;
use ymessages::run as messages;
use yrules::rules;
use ysentences::run as sentences;
use ysentences::walk::Listed;

/// What is asked for: a session.
#[derive(Clone, Copy)]
pub struct SessionAsked<'a> {
    /// The files of the language.
    pub files: LanguageFiles<'a>,
    /// The input.
    pub input: Limited<'a>,
    /// The path of a script.
    pub script: Option<&'a str>,
    /// The path of a journal.
    pub journal: Option<&'a str>,
    /// Whether what is written stops at the end of a screen.
    pub stops: bool,
}

/// What words ask for.
#[derive(Drop)]
pub enum Asked<'a> {
    /// A session.
    Session(SessionAsked<'a>),
    /// A report on conflicts.
    Conflicts(conflicts::Asked<'a>),
    /// Verdicts on inputs.
    Check(check::Asked<'a>),
    /// Errors by example.
    Errors(messages::Asked<'a>),
    /// Sentences of a grammar.
    Sentences(sentences::Asked<'a>),
    /// What inputs use.
    Cover(cover::Asked<'a>),
    /// The tests of a language.
    Test(testing::Asked<'a>),
    /// A page of a parse over the files of a language and an input.
    Page(LanguageFiles<'a>, Limited<'a>, page::Asked<'a>),
    /// An import.
    Import(import::Asked<'a>),
    /// The tokens of a text.
    Tokens(LanguageFiles<'a>, Limited<'a>),
    /// A sketch of how tokens look.
    Sketch(GrammarFile<'a>),
    /// Names for rules.
    Rules(rules::Asked<'a>),
    /// The files that `yacc` writes.
    Table(table::Asked<'a>),
    /// The folder of a new language of this name.
    Init(&'a str),
}

impl Asked<'_> {
    /// Whether what is written is for people alone, so that long lines may be broken.
    pub fn is_for_people(&self) -> bool {
        match self {
            Asked::Session(_) | Asked::Cover(_) => true,
            Asked::Conflicts(asked) => form_of(asked.format) == Some(Format::Text),
            Asked::Check(asked) => asked.inputs.format == Format::Text && !asked.plain,
            _ => false,
        }
    }
}

/// A report on conflicts.
fn conflicts_in<'m>(matches: &'m ArgMatches<'_>) -> Result<Asked<'m>, Refused> {
    let asked = conflicts::Asked {
        grammar: grammar_in(matches)?,
        all: is_given(matches, "all"),
        save: matches.get_str("save"),
        strict: matches.get_str("strict").is_some(),
        choice: choice_in(matches)?,
        expect: matches.get_str("expect"),
        accept: matches.get_str("accept"),
        update: is_given(matches, "update"),
        format: matches.get_str("format"),
    };
    match conflicts::wrong_in(&asked) {
        Some(wrong) => Err(Refused::Wrong(wrong)),
        None => Ok(Asked::Conflicts(asked)),
    }
}

/// Verdicts on inputs.
fn check_in<'m>(matches: &'m ArgMatches<'_>) -> Result<Asked<'m>, Refused> {
    let format = form_of(matches.get_str("format"));
    let asked = check::Asked {
        inputs: checking::Asked {
            files: language_in(matches)?,
            inputs: matches.get_strs("tokens").unwrap_or(&[]),
            messages: matches.get_str("messages"),
            most: most_of(matches)?,
            all: is_given(matches, "all"),
            shown: choice_in(matches)?.shown,
            format: format.unwrap_or(Format::Text),
        },
        choice: is_given(matches, "choice"),
        plain: is_given(matches, "plain"),
    };
    match format {
        None => Err(Refused::Wrong(NO_FORM)),
        Some(Format::Gcc | Format::Json) if asked.plain || asked.choice => {
            Err(Refused::Wrong("--choice and --plain want --format text"))
        }
        Some(_) if asked.plain && asked.inputs.all => {
            Err(Refused::Wrong("--plain and --all don't go together"))
        }
        Some(_) => Ok(Asked::Check(asked)),
    }
}

/// Why options for errors don't go together, where they don't.
fn wrong_in(asked: messages::Asked<'_>) -> Option<&'static str> {
    let is_more = asked.complete || asked.update || asked.table.is_some();
    if asked.messages.is_none() && is_more {
        Some("--complete, --update and --table want --messages FILE")
    } else if asked.update && asked.table.is_some() {
        Some("--update and --table don't go together")
    } else if asked.table == Some("") {
        Some("--table wants the name of a file")
    } else if asked.alone && asked.messages.is_some() && !asked.update {
        Some("--states lists blocks: it wants --update beside --messages FILE")
    } else {
        None
    }
}

/// Errors by example.
fn errors_in<'m>(matches: &'m ArgMatches<'_>) -> Result<Asked<'m>, Refused> {
    let asked = messages::Asked {
        files: language_in(matches)?,
        messages: messages_in(matches)?,
        complete: is_given(matches, "complete"),
        update: is_given(matches, "update"),
        alone: is_given(matches, "states"),
        table: matches.get_str("table"),
    };
    match wrong_in(asked) {
        Some(wrong) => Err(Refused::Wrong(wrong)),
        None => Ok(Asked::Errors(asked)),
    }
}

/// Sentences of a grammar.
fn sentences_in<'m>(matches: &'m ArgMatches<'_>) -> Result<Asked<'m>, Refused> {
    let asked = sentences::Asked {
        files: language_in(matches)?,
        kind: kind_in(matches)?,
        drawn: drawn_in(matches)?,
        near: is_given(matches, "near"),
        save: matches.get_str("save"),
        strict: is_given(matches, "strict"),
    };
    if asked.save == Some("") {
        return Err(Refused::Wrong(NO_FOLDER));
    }
    Ok(Asked::Sentences(asked))
}

/// What inputs use.
fn cover_in<'m>(matches: &'m ArgMatches<'_>) -> Result<Asked<'m>, Refused> {
    Ok(Asked::Cover(cover::Asked {
        files: language_in(matches)?,
        inputs: matches.get_strs("tokens").unwrap_or(&[]),
        most: most_of(matches)?,
        listed: Listed {
            states: is_given(matches, "states"),
            actions: is_given(matches, "actions"),
        },
        strict: is_given(matches, "strict"),
    }))
}

/// The tests of a language.
fn test_in<'m>(matches: &'m ArgMatches<'_>) -> Result<Asked<'m>, Refused> {
    Ok(Asked::Test(testing::Asked {
        files: language_in(matches)?,
        folder: value_of(matches, "folder")?,
        messages: messages_in(matches)?,
        most: most_of(matches)?,
    }))
}

/// The folder of a new language.
fn init_in<'m>(matches: &'m ArgMatches<'_>) -> Result<Asked<'m>, Refused> {
    let name = value_of(matches, "name")?;
    match begin::wrong_in(name) {
        Some(wrong) => Err(Refused::Wrong(wrong)),
        None => Ok(Asked::Init(name)),
    }
}

/// A session.
fn session_in<'m>(matches: &'m ArgMatches<'_>) -> Result<Asked<'m>, Refused> {
    let stops = match matches.get_str("more") {
        None | Some("screen") => true,
        Some("never") => false,
        Some(_) => return Err(Refused::Wrong("--more takes screen or never")),
    };
    Ok(Asked::Session(SessionAsked {
        files: language_in(matches)?,
        input: input_in(matches)?,
        script: matches.get_str("script"),
        journal: matches.get_str("journal"),
        stops,
    }))
}

/// A page of a parse.
fn page_of<'m>(matches: &'m ArgMatches<'_>) -> Result<Asked<'m>, Refused> {
    let (grammar, from) = page_in(matches)?;
    let spec = matches.get_str("lex");
    let files = LanguageFiles { grammar, spec };
    let input = input_in(matches)?;
    let to = number_of(matches, "last", "--last takes a position")?;
    let asked = page::Asked {
        file: matches.get_str("file"),
        part: Part { from, to },
        conflicts: is_given(matches, "conflicts"),
    };
    Ok(Asked::Page(files, input, asked))
}

/// What a form and what stands after it ask for.
pub fn asked_in<'m>(form: Form, matches: &'m ArgMatches<'_>) -> Result<Asked<'m>, Refused> {
    match form {
        Form::Debug => session_in(matches),
        Form::Conflicts => conflicts_in(matches),
        Form::Check => check_in(matches),
        Form::Errors => errors_in(matches),
        Form::Sentences => sentences_in(matches),
        Form::Cover => cover_in(matches),
        Form::Test => test_in(matches),
        Form::Page => page_of(matches),
        Form::Import => Ok(Asked::Import(import::Asked {
            file: value_of(matches, "file")?,
            output: matches.get_str("output"),
            shown: choice_in(matches)?.shown,
        })),
        Form::Tokens => {
            let (files, input) = (language_in(matches)?, input_in(matches)?);
            Ok(Asked::Tokens(files, input))
        }
        Form::Sketch => Ok(Asked::Sketch(grammar_in(matches)?)),
        Form::Rules => Ok(Asked::Rules(rules::Asked {
            grammar: grammar_in(matches)?,
            header: matches.get_str("header"),
            python: matches.get_str("python"),
        })),
        Form::Table => Ok(Asked::Table(table::Asked {
            grammar: value_of(matches, "grammar")?,
            prefix: matches.get_str("prefix").unwrap_or("y"),
            report: is_given(matches, "v"),
        })),
        Form::Init => init_in(matches),
    }
}
