//! The names of the files that are written.

use crate::words::Given;
use std::alloc::Global;
use std::str;
use yexplain::reads::Made;
use yparts::options::{Header, Language, Options};
use ysymbols::let_go;

/// A text, and the path of its file.
#[derive(Drop)]
pub struct Text<'a> {
    /// The path.
    pub path: &'a str,
    /// The text.
    pub bytes: Vec<u8>,
}

/// The paths of the parser, its header, the report and the tables.
pub struct Names {
    /// The parser.
    pub parser: String,
    /// The header.
    pub header: String,
    /// The report.
    pub report: String,
    /// The tables.
    pub table: String,
    /// The graph as of bison.
    pub graph: String,
    /// The report as a page.
    pub page: String,
    /// The graph as of byacc, and what its name begins with.
    pub old_graph: String,
    pub stem: String,
    /// How a parser in C++ includes its header.
    pub header_name: String,
    /// The file of its places, and how that is included; empty where it has none.
    pub places: String,
    pub places_name: String,
    /// Files that bison writes for older grammars.
    pub position: String,
    pub stack: String,
}

impl Drop for Names {
    // A call in each owner, which keeps their proofs short.
    fn drop(self) {
        let_go!(self: Names {
            parser, header, report, table, graph, page, old_graph, stem, header_name, places,
            places_name, position, stack
        });
    }
}

/// Endings of grammar files, each with those of the parser and of its header.
const GRAMMARS: [(&str, &str, &str); 6] = [
    (".y", ".c", ".h"),
    (".yy", ".cc", ".hh"),
    (".ypp", ".cpp", ".hpp"),
    (".yxx", ".cxx", ".hxx"),
    (".y++", ".c++", ".h++"),
    (".Y", ".C", ".H"),
];

/// The endings of a parser in C and its header.
const PLAIN: (&str, &str) = (".c", ".h");

/// The end of a stem of which a report has no use, and the ending of tables.
const TAB: &str = ".tab";

/// A text and what follows it.
fn joined(alloc: Global, front: &str, end: &str) -> Made<String> {
    let mut path = String::from_str(alloc, front)?;
    path.push_str(end)?;
    Ok(path)
}

/// A path without the ending of a parser in C, and the ending of its header.
fn cut(path: &str) -> (&str, &'static str) {
    for (_, ending, header) in GRAMMARS {
        if let Some(stem) = path.strip_suffix(ending) {
            return (stem, header);
        }
    }
    (path, ".h")
}

/// The names of what stands beside a parser, by what comes before their endings.
fn names_beside(alloc: Global, front: &str) -> Made<Names> {
    let mut names = Names {
        parser: String::new(alloc),
        header: String::new(alloc),
        report: String::new(alloc),
        table: String::new(alloc),
        graph: String::new(alloc),
        page: String::new(alloc),
        old_graph: String::new(alloc),
        stem: String::new(alloc),
        header_name: String::new(alloc),
        places: String::new(alloc),
        places_name: String::new(alloc),
        position: String::new(alloc),
        stack: String::new(alloc),
    };
    names.report = joined(alloc, front, ".output")?;
    names.table = joined(alloc, front, TAB)?;
    names.graph = joined(alloc, front, ".gv")?;
    names.page = joined(alloc, front, ".html")?;
    names.old_graph = joined(alloc, front, ".dot")?;
    names.stem = String::from_str(alloc, front)?;
    Ok(names)
}

/// The names where the file of the parser is named, as bison has them.
fn names_by_parser(alloc: Global, path: &str) -> Made<Names> {
    let (stem, header) = cut(path);
    let mut names = names_beside(alloc, stem.strip_suffix(TAB).unwrap_or(stem))?;
    names.parser = String::from_str(alloc, path)?;
    names.header = joined(alloc, stem, header)?;
    Ok(names)
}

/// What comes before the ending of a grammar file, and the endings of its parser and header, as
/// bison has them.
fn named_by(path: &str) -> (&str, (&'static str, &'static str)) {
    let name = path.rsplit('/').next().unwrap_or(path);
    for (ending, parser, header) in GRAMMARS {
        if let Some(stem) = name.strip_suffix(ending) {
            return (stem, (parser, header));
        }
    }
    (name, PLAIN)
}

/// A text of a file as one of words, where it can be one.
fn word(text: Option<&[u8]>) -> Option<&str> {
    str::from_utf8(text?).ok()
}

/// The names where no file is named: those of bison, or of `yacc` where the program is called so and
/// the parser is in C.
fn names_by_prefix(alloc: Global, given: &Given<'_>, options: &Options<'_>) -> Made<Names> {
    let (stem, mut named) = named_by(given.grammar);
    if named == PLAIN && options.language == Some(Language::Cxx) {
        named = (".cc", ".hh");
    }
    let is_other = !given.bison && !options.is_cxx();
    let is_yacc = given.yacc || options.is_yacc || is_other;
    let (own, endings) = if is_yacc { ("y", PLAIN) } else { (stem, named) };
    let prefix = word(options.file_prefix).or(given.files).unwrap_or(own);
    let mut names = names_beside(alloc, prefix)?;
    names.parser = joined(alloc, &names.table, endings.0)?;
    names.header = joined(alloc, &names.table, endings.1)?;
    Ok(names)
}

/// The names of all files but those that are named by themselves. For byacc a parser lends its
/// name to the others where it ends in `.c`.
fn names_for(
    alloc: Global,
    given: &Given<'_>,
    options: &Options<'_>,
    is_bison: bool,
) -> Made<Names> {
    let Some(path) = word(options.output).or(given.parser) else {
        return names_by_prefix(alloc, given, options);
    };
    if is_bison || path.ends_with(PLAIN.0) {
        return names_by_parser(alloc, path);
    }
    let mut names = names_by_prefix(alloc, given, options)?;
    names.parser = String::from_str(alloc, path)?;
    Ok(names)
}

/// A path as it is included.
fn quoted(alloc: Global, path: &str) -> Made<String> {
    let mut text = String::from_str(alloc, "\"")?;
    text.push_str(path)?;
    text.push_str("\"")?;
    Ok(text)
}

/// Names what a parser in C++ includes, and what bison writes beside it in its folder.
fn name_beside(
    alloc: Global,
    options: &Options<'_>,
    has_header: bool,
    names: &mut Names,
) -> Made<()> {
    let header = names.header.rsplit('/').next().unwrap_or("");
    names.header_name = quoted(alloc, header)?;
    let parser = names.parser.rsplit('/').next().unwrap_or("");
    let folder = names.parser.strip_suffix(parser).unwrap_or("");
    let folder = String::from_str(alloc, folder)?;
    names.position = joined(alloc, &folder, "position.hh")?;
    names.stack = joined(alloc, &folder, "stack.hh")?;
    let file = match word(options.class.location_file) {
        None if has_header => "location.hh",
        None | Some("none") => return Ok(()),
        Some(file) => file,
    };
    names.places = joined(alloc, &folder, file)?;
    names.places_name = match word(options.class.location_include) {
        Some(text) => String::from_str(alloc, text)?,
        None => quoted(alloc, file)?,
    };
    Ok(())
}

/// The names of the files that words and a file ask for, for a parser of bison or of byacc. What
/// the file names counts before what words name, as for bison.
pub fn names_of(
    alloc: Global,
    given: &Given<'_>,
    options: &Options<'_>,
    is_bison: bool,
) -> Made<Names> {
    let mut names = names_for(alloc, given, options, is_bison)?;
    let header = match options.header {
        Header::At(path) => word(Some(path)),
        Header::No | Header::Beside => None,
    };
    if let Some(path) = header.or(given.header) {
        names.header = String::from_str(alloc, path)?;
    }
    let (report, table) = (given.report.unwrap_or(""), given.table.unwrap_or(""));
    let (graph, page) = (given.graph.unwrap_or(""), given.page.unwrap_or(""));
    if !graph.is_empty() {
        names.graph = String::from_str(alloc, graph)?;
    }
    if !page.is_empty() {
        names.page = String::from_str(alloc, page)?;
    }
    if !report.is_empty() {
        names.report = String::from_str(alloc, report)?;
    }
    if !table.is_empty() {
        names.table = String::from_str(alloc, table)?;
    }
    if options.is_cxx() {
        let has_header = given.define || options.header != Header::No;
        name_beside(alloc, options, has_header, &mut names)?;
    }
    Ok(names)
}
