//! Words of declarations that POSIX hasn't, and those that have another word now.

use crate::finding::{Better, Finding, Seen, What, warning};
use crate::kinds::Kind;
use yexplain::reads::Made;
use yforeign::directive::is_word;
use yforeign::lexeme::{Kind as Form, Lexeme};
use yforeign::survey::{inside, is_text};
use ysymbols::names::{SymbolTable, intern, is_among};

/// The directives of POSIX, and those that bison takes for such, with a space between two.
const POSIX: &str = "token left right nonassoc type start union prec debug locations lex-param \
    parse-param param";

/// Directives that have another word now.
const OLD: [(&str, &str); 3] = [
    ("pure-parser", "%define api.pure"),
    ("error-verbose", "%define parse.error verbose"),
    ("fixed-output-files", "%output \"y.tab.c\""),
];

/// Directives that have a dash where an older bison had a line below.
const DASHED: &str = "%expect-rr %token-table %no-lines %default-prec %no-default-prec";

/// What is kept of the value of a variable that has another name now.
#[derive(Clone, Copy, PartialEq, Eq)]
enum Kept {
    /// All of it, as a word.
    AsWord,
    /// All of it, in braces.
    InBraces,
    /// Nothing: the other directive has one.
    Nothing,
}

/// A variable, and the directive that sets it now.
type Renamed = (&'static str, &'static str, Kept);

/// Variables that have another name now.
const RENAMED: [Renamed; 12] = [
    ("api.push_pull", "%define api.push-pull", Kept::AsWord),
    (
        "api.tokens.prefix",
        "%define api.token.prefix",
        Kept::InBraces,
    ),
    ("filename_type", "%define api.filename.type", Kept::InBraces),
    ("lex_symbol", "%define api.token.constructor", Kept::AsWord),
    ("location_type", "%define api.location.type", Kept::InBraces),
    (
        "lr.default-reductions",
        "%define lr.default-reduction",
        Kept::AsWord,
    ),
    (
        "lr.keep_unreachable_states",
        "%define lr.keep-unreachable-state",
        Kept::AsWord,
    ),
    (
        "lr.keep-unreachable-states",
        "%define lr.keep-unreachable-state",
        Kept::AsWord,
    ),
    ("namespace", "%define api.namespace", Kept::InBraces),
    (
        "parser_class_name",
        "%define api.parser.class",
        Kept::InBraces,
    ),
    ("stype", "%define api.value.type", Kept::AsWord),
    ("variant", "%define api.value.type variant", Kept::Nothing),
];

/// Variables whose values are words.
const WANT_WORDS: &str = "api.pure api.push-pull api.value.type lr.default-reduction \
    lr.keep-unreachable-state lr.type parse.error parse.lac";

/// Variables whose values stand in braces.
const WANT_BRACES: &str = "api.location.type api.namespace api.parser.class api.prefix \
    api.token.prefix";

/// The word of a list that a text is.
fn listed(list: &'static str, text: &[u8]) -> Option<&'static str> {
    for name in list.split(' ') {
        if is_word(text, name) {
            return Some(name);
        }
    }
    None
}

/// Whether a text is a word of a list, to the letter.
fn is_listed(list: &str, text: &[u8]) -> bool {
    for name in list.split(' ') {
        if name.as_bytes() == text {
            return true;
        }
    }
    false
}

/// A word in place of another one.
fn plain<'a>(word: &'static str) -> Better<'a> {
    Better {
        word,
        before: "",
        part: b"",
        after: "",
    }
}

/// The bytes of a file from one lexeme to another.
fn between<'a>(seen: &Seen<'a>, first: &Lexeme, last: &Lexeme) -> &'a [u8] {
    let text = seen.source.get(first.span.from..last.span.to);
    text.unwrap_or(b"")
}

/// The better word for a directive with what stands after it, and the text that it replaces.
fn better_word<'a>(seen: &Seen<'a>, lexemes: &[Lexeme]) -> Option<(&'a [u8], Better<'a>)> {
    let (word, rest) = lexemes.split_first()?;
    let text = seen.text(word);
    let name = text.get(1..)?;
    for (old, new) in &OLD {
        if is_word(name, old) {
            return Some((text, plain(new)));
        }
    }
    let string = rest.iter().find(|it| is_text(it.kind));
    if let (true, Some(string)) = (is_word(name, "name-prefix"), string) {
        let better = Better {
            word: "%define api.prefix",
            before: " {",
            part: inside(seen.source, string),
            after: "}",
        };
        return Some((between(seen, word, string), better));
    }
    if let (true, Some(dashed)) = (name.contains(&b'_'), listed(DASHED, text)) {
        return Some((text, plain(dashed)));
    }
    let equals = rest.first().filter(|it| it.kind == Form::Equals)?;
    let word_now = listed("%file-prefix %output", text)?;
    Some((between(seen, word, equals), plain(word_now)))
}

/// A directive as bison names it where it isn't one of POSIX: with dashes, and with an equals sign
/// that belongs to it.
fn shown<'a>(seen: &Seen<'a>, lexemes: &[Lexeme], text: &'a [u8]) -> &'a [u8] {
    if let Some(dashed) = listed(DASHED, text) {
        return dashed.as_bytes();
    }
    match lexemes {
        [word, equals, ..] if equals.kind == Form::Equals && !is_word(text, "%output") => {
            between(seen, word, equals)
        }
        _ if is_word(text, "%fixed-output-files") => b"%output",
        _ => text,
    }
}

/// Finds what is to be said of the word of a declaration, or of one in a body.
pub fn find_in_word<'a>(
    seen: &Seen<'a>,
    lexemes: &[Lexeme],
    found: &mut Vec<Finding<'a>>,
) -> Made<()> {
    let Some(word) = lexemes.first() else {
        return Ok(());
    };
    let (at, text) = (word.span.from, seen.text(word));
    if !is_listed(POSIX, text.get(1..).unwrap_or(b"")) {
        let word = shown(seen, lexemes, text);
        found.push(warning(Kind::Yacc, at, What::NoDirective(word)))?;
    }
    if let Some((old, better)) = better_word(seen, lexemes) {
        found.push(warning(Kind::Deprecated, at, What::Old(old, better)))?;
    }
    Ok(())
}

/// The variable of a name that has another one now.
fn renamed_of(name: &[u8]) -> Option<Renamed> {
    for renamed in &RENAMED {
        if renamed.0.as_bytes() == name {
            return Some(*renamed);
        }
    }
    None
}

/// The name of the variable that a directive sets.
fn name_in(define: &'static str) -> &'static [u8] {
    define.split(' ').nth(1).unwrap_or("").as_bytes()
}

/// The value of a variable, without the quotes of a string and the braces of code.
fn value_in<'a>(source: &'a [u8], value: &Lexeme) -> &'a [u8] {
    if value.kind == Form::Braced || is_text(value.kind) {
        inside(source, value)
    } else {
        value.text(source)
    }
}

/// What is kept of the value of a variable.
fn part_kept<'a>(source: &'a [u8], value: Option<&Lexeme>, kept: Kept) -> &'a [u8] {
    match value {
        Some(value) if kept != Kept::Nothing => value_in(source, value),
        _ => &[],
    }
}

/// What is to be said of a variable that has another name now, with this directive and with its
/// value, where it has one.
fn old_define<'a>(
    seen: &Seen<'a>,
    (word, name): (&Lexeme, &Lexeme),
    value: Option<&Lexeme>,
    (_, define, kept): Renamed,
) -> Finding<'a> {
    let old = between(seen, word, value.unwrap_or(name));
    let part = part_kept(seen.source, value, kept);
    let (before, after) = match kept {
        _ if part.is_empty() => ("", ""),
        Kept::InBraces => (" {", "}"),
        _ => (" ", ""),
    };
    let better = Better {
        word: define,
        before,
        part,
        after,
    };
    warning(Kind::Deprecated, word.span.from, What::Old(old, better))
}

/// What is to be said of the value of a variable, where it should be a word or stand in braces.
fn wanted<'a>(name: &'a [u8], value: Option<&Lexeme>) -> Option<What<'a>> {
    let kind = value.map(|it| it.kind);
    let is_braced = matches!(kind, Some(Form::Braced));
    if is_listed(WANT_BRACES, name) && !is_braced {
        return Some(What::WantsBraces(name));
    }
    let is_code = is_braced && name != b"api.value.type".as_slice();
    let is_string = matches!(kind, Some(Form::Text | Form::Translated));
    if is_listed(WANT_WORDS, name) && (is_code || is_string) {
        return Some(What::WantsWord(name));
    }
    None
}

/// Finds what is to be said of a variable that is set; those that were set before are among these
/// names.
pub fn find_in_define<'a>(
    seen: &Seen<'a>,
    lexemes: &[Lexeme],
    defined: &mut SymbolTable,
    found: &mut Vec<Finding<'a>>,
) -> Made<()> {
    let [word, name, rest @ ..] = lexemes else {
        return Ok(());
    };
    let at = word.span.from;
    let own = seen.text(name);
    let value = rest.first().filter(|it| it.kind != Form::Semicolon);
    let renamed = renamed_of(own);
    if let Some(renamed) = renamed {
        found.push(old_define(seen, (word, name), value, renamed))?;
    }
    let known = match renamed {
        Some((_, define, _)) => name_in(define),
        None => own,
    };
    if let Some(what) = wanted(known, value) {
        found.push(warning(Kind::Deprecated, at, what))?;
    }
    if is_among(defined, known) {
        found.push(warning(Kind::Other, at, What::Redefined(known)))?;
    }
    intern(seen.alloc, defined, known)
}
