//! The words of the programs.

ghost use Rattle.std.specs.Prelude.{◌≡◌, IfOk, IfErr, IsOkAnd, map, true, false, codes, List, ℕ};
ghost use Rattle.std.specs.Option.{option_map_or};
ghost use Rattle.std.specs.Borrow.{Bor};
ghost use Rattle.std.specs.Str.{bytes_eq};
ghost use Rattle.clap.specs.Words.{App, FailsBy, IsParsedFrom, app_of, fault_of, kind_of, takes};
ghost use Rattle.clap.specs.Words.{is_simple, is_simple_and_free};
ghost use Rattle.clap.specs.declared.error.kind.ErrorKind.TheVariants.{OutOfMemory};
ghost use Rattle.clap.specs.declared.parser.matches.ArgMatches.{ArgMatches};
ghost use Rattle.ygenerate.specs.Arguments.{ystep_app, yacc_app, ArePathsIn, AreYaccWordsIn};
ghost use Rattle.ygenerate.specs.Arguments.{HasBoth};
ghost use Rattle.ygenerate.specs.Arguments.{HasGrammar, IsArgument, IsNewCommand, ReadsAs};
ghost use Rattle.ygenerate.specs.Arguments.{required_argument, short_flag, short_option};

use clap::{Arg, ArgAction, ArgMatches, Command, Error};
use std::alloc::{AllocError, Global};

/// The words of `ystep`: the paths of a grammar file and of a tokens file.
#[derive(Clone, Copy)]
pub struct YstepWords<'a> {
    grammar: &'a str,
    tokens: &'a str,
}

impl<'a> YstepWords<'a> {
    /// The path of the grammar file.
    pub fn grammar(&self) -> &'a str
        ensures { result ≡ self.now.grammar }
    {
        self.grammar
    }

    /// The path of the tokens file.
    pub fn tokens(&self) -> &'a str
        ensures { result ≡ self.now.tokens }
    {
        self.tokens
    }
}

/// A command without arguments, of this name and of this line of help.
fn new_command<'a>(alloc: Global, name: &'a str, about: &'a str) -> Command<'a>
    ensures { IsNewCommand name.entry.now result }
{
    Command::new(alloc, name).about(about)
}

/// The grammar file, of both programs.
fn grammar_argument<'a>(alloc: Global) -> Arg<'a>
    ensures { IsArgument (required_argument (codes "grammar")) result }
{
    Arg::new(alloc, "grammar")
        .required(true)
        .action(ArgAction::Set)
        .help("The grammar file")
}

fn tokens_argument<'a>(alloc: Global) -> Arg<'a>
    ensures { IsArgument (required_argument (codes "tokens")) result }
{
    Arg::new(alloc, "tokens")
        .required(true)
        .action(ArgAction::Set)
        .help("The tokens file")
}

/// The command line of `ystep`. A parse of it gives both of its arguments.
fn ystep_command<'a>(alloc: Global) -> Result<Command<'a>, AllocError>
    ensures app { IfOk result (λ command. app_of command ≡ ystep_app) }
    ensures both { IfOk result (λ command. (found : ArgMatches) → IsParsedFrom command found
        → HasBoth found) }
{
    let about = "Steps a parse forward and back by the command lines of standard input";
    new_command(alloc, "ystep", about)
        .arg(grammar_argument(alloc))?
        .arg(tokens_argument(alloc))
}

/// What a command line makes of words, of which the first is the program's name.
fn matches_by<'a>(
    command: Result<Command<'a>, AllocError>,
    words: &'a [&'a str],
) -> Result<ArgMatches<'a>, Error>
    ensures reads { (app : App) → IfOk command.entry (λ line. app_of line ≡ app)
        → is_simple app ≡ true → is_simple_and_free app ≡ true
        → ReadsAs app (map (λ word. word.now) words.entry.now) result }
    ensures parsed { IfOk result (λ found.
        IsOkAnd command.entry (λ line. IsParsedFrom line found)) }
{
    command?.try_get_matches_from(words)
}

/// Reads the words of `ystep`, of which the first is the program's name.
///
/// An error is one of `clap`: a request for help, a mistake in the words, or no memory.
pub fn ystep_words<'a>(alloc: Global, words: &'a [&'a str]) -> Result<YstepWords<'a>, Error>
    // The paths are the values that the words give the two arguments.
    ensures paths { IfOk result (ArePathsIn (map (λ word. word.now) words.entry.now)) }
    // An error is the first fault of the words, or no memory; words with a fault are refused.
    ensures faults { FailsBy (fault_of ystep_app (map (λ word. word.now) words.entry.now)) result }
    // Where the command line takes the words, the only error is that memory ran out.
    ensures taken { IfErr result (λ e.
        takes ystep_app (map (λ word. word.now) words.entry.now) ≡ true → kind_of e ≡ OutOfMemory) }
{
    let matches = matches_by(ystep_command(alloc), words)?;
    let grammar = matches.get_str("grammar").unwrap();
    let tokens = matches.get_str("tokens").unwrap();
    Ok(YstepWords { grammar, tokens })
}

/// The words of `yacc`: the path of a grammar file, the prefix of the files to write, and whether
/// a report is wanted.
#[derive(Clone, Copy)]
pub struct YaccWords<'a> {
    grammar: &'a str,
    prefix: &'a str,
    verbose: bool,
}

impl<'a> YaccWords<'a> {
    /// The path of the grammar file.
    pub fn grammar(&self) -> &'a str
        ensures { result ≡ self.now.grammar }
    {
        self.grammar
    }

    /// The beginning of the names of the files to write; `y` where none was given.
    pub fn prefix(&self) -> &'a str
        ensures { result ≡ self.now.prefix }
    {
        self.prefix
    }

    /// Whether the report is wanted beside the table.
    pub fn verbose(&self) -> bool
        ensures { result ≡ self.now.verbose }
    {
        self.verbose
    }
}

fn verbose_flag<'a>(alloc: Global) -> Arg<'a>
    ensures { IsArgument (short_flag (codes "verbose") 118) result }
{
    Arg::new(alloc, "verbose")
        .short('v')
        .action(ArgAction::SetTrue)
        .help("Writes the report PREFIX.output beside the table")
}

fn prefix_argument<'a>(alloc: Global) -> Arg<'a>
    ensures { IsArgument (short_option (codes "prefix") 98) result }
{
    Arg::new(alloc, "prefix")
        .short('b')
        .action(ArgAction::Set)
        .help("The prefix of the files to write, y unless given")
}

/// The command line of `yacc`. A parse of it gives a grammar.
fn yacc_command<'a>(alloc: Global) -> Result<Command<'a>, AllocError>
    ensures app { IfOk result (λ command. app_of command ≡ yacc_app) }
    ensures given { IfOk result (λ command. (found : ArgMatches) → IsParsedFrom command found
        → HasGrammar found) }
{
    let about = "Writes the LALR(1) table of a grammar file to PREFIX.tab";
    new_command(alloc, "yacc", about)
        .arg(verbose_flag(alloc))?
        .arg(prefix_argument(alloc))?
        .arg(grammar_argument(alloc))
}

/// Whether this value of a flag means that the flag was given.
fn is_set(value: Option<&str>) -> bool
    ensures { result ≡ option_map_or (λ (word : Bor (List ℕ)). bytes_eq word.now (codes "true"))
        value.entry false }
{
    match value {
        Some(word) => word == "true",
        None => false,
    }
}

/// Reads the words of `yacc`, of which the first is the program's name.
///
/// An error is one of `clap`: a request for help, a mistake in the words, or no memory.
pub fn yacc_words<'a>(alloc: Global, words: &'a [&'a str]) -> Result<YaccWords<'a>, Error>
    // The values are those that the words give.
    ensures values { IfOk result (AreYaccWordsIn (map (λ word. word.now) words.entry.now)) }
    // An error is the first fault of the words, or no memory; words with a fault are refused.
    ensures faults { FailsBy (fault_of yacc_app (map (λ word. word.now) words.entry.now)) result }
    // Where the command line takes the words, the only error is that memory ran out.
    ensures taken { IfErr result (λ e.
        takes yacc_app (map (λ word. word.now) words.entry.now) ≡ true → kind_of e ≡ OutOfMemory) }
{
    let matches = matches_by(yacc_command(alloc), words)?;
    let grammar = matches.get_str("grammar").unwrap();
    let prefix = matches.get_str("prefix").unwrap_or("y");
    let verbose = is_set(matches.get_str("verbose"));
    Ok(YaccWords {
        grammar,
        prefix,
        verbose,
    })
}
