//! What the command line of `ycc` asks for.

use std::alloc::Global;
use yexplain::reads::Made;
use yfindings::kinds::Kinds;
use ylayouts::report::Things;
use yparts::options::Language;

/// What is written to standard error where the words are refused.
pub const USAGE: &[u8] = b"usage: ycc [-dlLtvyP] [-b prefix] [-o file] [-p prefix] [-H file] \
    [-D name=value] [-W kinds] grammar\n";

/// What is written for `--version`. Builds look for the first line, since they ask `bison`.
pub const VERSION: &[u8] = b"bison (GNU Bison) 3.8.2\n\
    This is no GNU Bison but ycc, which takes its grammars and its options.\n";

/// The folders that bison names; nothing in them is read.
pub const DATA_FOLDER: &[u8] = b"/usr/share/bison\n";

pub const LOCALE_FOLDER: &[u8] = b"/usr/share/locale\n";

/// What words ask for.
#[derive(Clone, Copy)]
pub struct Given<'a> {
    /// The grammar file.
    pub grammar: &'a str,
    /// What the names of the files that are written begin with, where that is given.
    pub files: Option<&'a str>,
    /// The file of the parser, where it is named.
    pub parser: Option<&'a str>,
    /// The file of the header, where it is named.
    pub header: Option<&'a str>,
    /// The file of the tables, where they are wanted; its name may be empty.
    pub table: Option<&'a str>,
    /// The file of the graph as of bison, where it is wanted; its name may be empty.
    pub graph: Option<&'a str>,
    /// Whether the graph as of byacc is wanted.
    pub old_graph: bool,
    /// What names in C begin with, where that is given.
    pub prefix: Option<&'a str>,
    /// Whether a header is wanted.
    pub define: bool,
    /// Whether `#line` is left out.
    pub no_lines: bool,
    /// Whether the parser can trace its steps.
    pub trace: bool,
    /// Whether the report is wanted.
    pub verbose: bool,
    /// What it says of states beside their kernels and actions.
    pub things: Things,
    /// The file of the report as a page, where it is wanted; its name may be empty.
    pub page: Option<&'a str>,
    /// Whether the names of files are those of `yacc`.
    pub yacc: bool,
    /// Whether the order and the names of bison are wanted.
    pub bison: bool,
    /// The language, where it is given.
    pub language: Option<Language>,
    /// That of the skeleton, where that is given.
    pub skeleton: Option<Language>,
    /// Whether the tokens that could come are listed as bison lists them.
    pub lists: bool,
    /// Whether each call has variables of its own.
    pub pure: bool,
    /// Whether symbols have places.
    pub locations: bool,
    /// Whether a table of names is wanted.
    pub names: bool,
    /// Whether no file is to be written.
    pub dry: bool,
    /// The file of the report, where it is named.
    pub report: Option<&'a str>,
    /// The file of messages for errors, where there are some.
    pub messages: Option<&'a str>,
    /// The SPEC that cuts their inputs, where these are texts.
    pub spec: Option<&'a str>,
    /// Which warnings are shown.
    pub kinds: Kinds,
}

/// What a report may be asked for, by its names.
const THINGS: [&str; 8] = [
    "none",
    "states",
    "itemsets",
    "lookaheads",
    "solved",
    "counterexamples",
    "cex",
    "all",
];

/// The place of a thing by its name, or by the beginning of no other one.
fn thing_named(word: &str) -> Option<usize> {
    let mut found = None;
    for (place, name) in THINGS.iter().enumerate() {
        if *name == word {
            return Some(place);
        }
        if name.starts_with(word) {
            if found.is_some() {
                return None;
            }
            found = Some(place);
        }
    }
    found
}

impl Given<'_> {
    /// Takes in what a report is asked for, which is all where there are no words, and says whether
    /// each is known.
    pub fn take_things(&mut self, words: &str) -> bool {
        let words = if words.is_empty() { "all" } else { words };
        for word in words.split(',') {
            let Some(place) = thing_named(word) else {
                return false;
            };
            let (is_all, before) = (place == 7, self.things);
            self.verbose = place > 0;
            self.things = match place {
                0 => Things::NONE,
                _ => Things {
                    items: before.items || is_all || place == 2,
                    lookaheads: before.lookaheads || is_all || place == 3,
                    settled: before.settled || is_all || place == 4,
                },
            };
        }
        true
    }

    /// No wishes, in a call as bison or not.
    pub fn none<'a>(bison: bool) -> Given<'a> {
        Given {
            grammar: "",
            files: None,
            parser: None,
            header: None,
            table: None,
            graph: None,
            old_graph: false,
            prefix: None,
            define: false,
            no_lines: false,
            trace: false,
            verbose: false,
            things: Things::NONE,
            page: None,
            yacc: false,
            bison,
            language: None,
            skeleton: None,
            lists: false,
            pure: false,
            locations: false,
            names: false,
            dry: false,
            report: None,
            messages: None,
            spec: None,
            kinds: Kinds::new(),
        }
    }
}

/// What words ask for.
#[derive(Drop)]
pub enum Asked<'a> {
    /// Parsers.
    Files(Wanted<'a>),
    /// The list of options.
    Help,
    /// This text.
    Text(&'static [u8]),
}

/// What words ask for of a grammar file.
pub struct Wanted<'a> {
    /// All but the variables.
    pub given: Given<'a>,
    /// The variables that words set, each with a zero after it. One by `-F` has an `F` before it,
    /// one by `-D` a `D`.
    pub variables: Vec<u8>,
}

impl Drop for Wanted<'_> {
    fn drop(self) {
        let Wanted {
            given: _,
            variables: _,
        } = self;
    }
}

impl<'a> Wanted<'a> {
    /// No wishes, in a call as bison or not.
    pub fn none(alloc: Global, bison: bool) -> Wanted<'a> {
        Wanted {
            given: Given::none(bison),
            variables: Vec::new(alloc),
        }
    }

    /// Sets a variable.
    pub fn define(&mut self, by: u8, variable: &str) -> Made<()> {
        self.variables.push(by)?;
        self.variables.extend_from_slice(variable.as_bytes())?;
        self.variables.push(0)?;
        Ok(())
    }
}
