//! What the arguments of a form say: files, numbers, flags.

use crate::ending::Refused;
use clap::ArgMatches;
use yfiles::category::{Choice, NO_CATEGORY};
use yfiles::reading::{LONGEST_INPUT, Limited};
use yfrontend::import::Dialect;
use yinput::grammars::GrammarFile;
use yinput::language::LanguageFiles;
use ysentences::elements::Kind;
use ysentences::run::Drawn;

/// What is said of a folder without a name.
pub const NO_FOLDER: &str = "--save wants the name of a folder";

/// The value of an argument that is required.
pub fn value_of<'a>(matches: &ArgMatches<'a>, name: &str) -> Result<&'a str, Refused> {
    matches.get_str(name).ok_or(Refused::Arguments)
}

/// Whether a flag is given.
pub fn is_given(matches: &ArgMatches<'_>, name: &str) -> bool {
    matches.get_str(name) == Some("true")
}

/// Which warnings are shown, and which make the run fail.
pub fn choice_in(matches: &ArgMatches<'_>) -> Result<Choice, Refused> {
    let shown = matches.get_strs("W").unwrap_or(&[]);
    let strict = matches.get_strs("strict").unwrap_or(&[]);
    Choice::of(shown, strict).ok_or(Refused::Wrong(NO_CATEGORY))
}

/// The dialect that a word names.
fn dialect_in(word: &str) -> Result<Dialect, Refused> {
    match word {
        "auto" => Ok(Dialect::Seen),
        "yacc" => Ok(Dialect::Yacc),
        "bison" | "byacc" => Ok(Dialect::Bison),
        _ => Err(Refused::Wrong("--dialect takes yacc, bison or auto")),
    }
}

/// The grammar file, and how it is read.
pub fn grammar_in<'a>(matches: &ArgMatches<'a>) -> Result<GrammarFile<'a>, Refused> {
    let path = value_of(matches, "grammar")?;
    let dialect = match matches.get_str("dialect") {
        Some(word) => dialect_in(word)?,
        None => Dialect::Seen,
    };
    Ok(GrammarFile { path, dialect })
}

/// The files of a language.
pub fn language_in<'a>(matches: &ArgMatches<'a>) -> Result<LanguageFiles<'a>, Refused> {
    Ok(LanguageFiles {
        grammar: grammar_in(matches)?,
        spec: matches.get_str("lex"),
    })
}

/// The number that an option gives, where it is given; else this is wrong.
pub fn number_of(
    matches: &ArgMatches<'_>,
    name: &str,
    wrong: &'static str,
) -> Result<Option<usize>, Refused> {
    match matches.get_str(name) {
        Some(word) => match word.parse::<usize>() {
            Ok(number) => Ok(Some(number)),
            Err(_) => Err(Refused::Wrong(wrong)),
        },
        None => Ok(None),
    }
}

/// A file of this path, and how long it may be.
fn limited<'a>(matches: &ArgMatches<'a>, path: &'a str) -> Result<Limited<'a>, Refused> {
    let most = most_of(matches)?;
    Ok(Limited { path, most })
}

/// The input, and how long it may be.
pub fn input_in<'a>(matches: &ArgMatches<'a>) -> Result<Limited<'a>, Refused> {
    limited(matches, value_of(matches, "tokens")?)
}

/// How many bytes an input may have.
pub fn most_of(matches: &ArgMatches<'_>) -> Result<u64, Refused> {
    match number_of(matches, "limit", "--limit takes a number of bytes")? {
        Some(most) => Ok(most as u64),
        None => Ok(LONGEST_INPUT),
    }
}

/// The grammar file of a page, and the first position that it shows: `--from` has had both a dialect
/// and a position, and each may be given once at most.
pub fn page_in<'a>(matches: &ArgMatches<'a>) -> Result<(GrammarFile<'a>, usize), Refused> {
    let mut file = grammar_in(matches)?;
    let mut first = number_of(matches, "first", "--first takes a position")?;
    let mut is_said = matches.get_str("dialect").is_some();
    for word in matches.get_strs("from").unwrap_or(&[]) {
        match (dialect_in(word), first) {
            (Ok(dialect), _) if !is_said => {
                file.dialect = dialect;
                is_said = true;
            }
            (Err(_), None) if word.parse::<usize>().is_ok() => first = word.parse::<usize>().ok(),
            _ => return Err(Refused::Wrong("--from takes a dialect and a position, each once")),
        }
    }
    Ok((file, first.unwrap_or(0)))
}

/// The file of messages, where one is given.
pub fn messages_in<'a>(matches: &ArgMatches<'a>) -> Result<Option<Limited<'a>>, Refused> {
    match matches.get_str("messages") {
        Some(path) => limited(matches, path).map(Some),
        None => Ok(None),
    }
}

/// What sentences are to use; rules where nothing is said.
pub fn kind_in(matches: &ArgMatches<'_>) -> Result<Kind, Refused> {
    match matches.get_str("cover") {
        None | Some("rules") => Ok(Kind::Rules),
        Some("states") => Ok(Kind::States),
        Some("actions") => Ok(Kind::Cells),
        Some(_) => Err(Refused::Wrong("--cover takes rules, states or actions")),
    }
}

/// How sentences are drawn, where that is asked for; options for one way alone stand without those
/// for the other.
pub fn drawn_in(matches: &ArgMatches<'_>) -> Result<Option<Drawn>, Refused> {
    let length = number_of(matches, "length", "--length takes a number of tokens")?;
    let seed = number_of(matches, "seed", "--seed takes a number")?;
    let is_cover = matches.get_str("cover").is_some();
    match number_of(matches, "random", "--random takes a number of sentences")? {
        Some(count) if !is_cover => Ok(Some(Drawn {
            count,
            length: length.unwrap_or(20) as u64,
            seed: seed.unwrap_or(1) as u64,
        })),
        Some(_) => Err(Refused::Wrong("--random and --cover don't go together")),
        None if length.is_none() && seed.is_none() => Ok(None),
        None => Err(Refused::Wrong("--length and --seed want --random N")),
    }
}
