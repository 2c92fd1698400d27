//! Kinds of warnings, by the names that bison has for them, and which of them are shown.

/// A kind of warnings.
#[derive(Clone, Copy, Drop, PartialEq, Eq)]
pub enum Kind {
    /// Conflicts in which the shift is taken.
    ConflictsSr,
    /// Conflicts between rules alone.
    ConflictsRr,
    /// Examples for conflicts.
    Counterexamples,
    /// Strings that no token has.
    DanglingAlias,
    /// Directives that have another word now.
    Deprecated,
    /// Empty rules without `%empty`.
    EmptyRule,
    /// Values of actions within bodies that are set or used in vain.
    MidruleValues,
    /// Precedences that settle nothing.
    Precedence,
    /// What isn't as POSIX has it.
    Yacc,
    /// All else.
    Other,
}

/// When a kind is shown.
#[derive(Clone, Copy, PartialEq, Eq)]
enum When {
    /// Unless it is turned off.
    Always,
    /// Where all kinds are asked for.
    All,
    /// Where its name is.
    Named,
}

/// A kind by its name.
type Named = (Kind, &'static str, When);

/// How many kinds there are.
const COUNT: usize = 10;

/// The kinds, by their names.
const KINDS: [Named; COUNT] = [
    (Kind::ConflictsSr, "conflicts-sr", When::Always),
    (Kind::ConflictsRr, "conflicts-rr", When::Always),
    (Kind::Counterexamples, "counterexamples", When::Named),
    (Kind::DanglingAlias, "dangling-alias", When::Named),
    (Kind::Deprecated, "deprecated", When::Always),
    (Kind::EmptyRule, "empty-rule", When::All),
    (Kind::MidruleValues, "midrule-values", When::All),
    (Kind::Precedence, "precedence", When::All),
    (Kind::Yacc, "yacc", When::Named),
    (Kind::Other, "other", When::Always),
];

/// What help says of kinds.
pub const LISTED: &str = "conflicts-sr, conflicts-rr, deprecated, other (told unless turned off);
  empty-rule, midrule-values, precedence (told by -Wall); counterexamples, dangling-alias, yacc
  (told by their names); all, none; no- before a name turns it off, error= before one makes it an
  error
";

/// What words say of a kind.
#[derive(Clone, Copy, PartialEq, Eq)]
enum Word {
    /// Nothing.
    No,
    /// That it is.
    On,
    /// That it isn't.
    Off,
}

/// How a warning is shown.
#[derive(Clone, Copy, Drop, PartialEq, Eq)]
pub enum Telling {
    /// Not at all.
    Not,
    /// As a warning.
    Warning,
    /// As an error, by which the run fails.
    Error,
}

/// Which warnings are shown, and which of these as errors.
#[derive(Clone, Copy)]
pub struct Kinds {
    told: [Word; COUNT],
    errors: [Word; COUNT],
    all_errors: bool,
}

/// What a name is that words give for kinds, with what is done with them.
#[derive(Clone, Copy)]
struct Choice<'a> {
    name: &'a str,
    is_off: bool,
    is_error: bool,
}

/// What a word says.
fn choice_of(word: &str) -> Choice<'_> {
    let (rest, is_off) = match word.strip_prefix("no-") {
        Some(rest) => (rest, true),
        None => (word, false),
    };
    let (name, is_error) = match rest.strip_prefix("error") {
        Some(rest) => (rest.strip_prefix('=').unwrap_or(rest), true),
        None => (rest, false),
    };
    Choice {
        name,
        is_off,
        is_error,
    }
}

/// The number of the kind that has a name, or alone has one that begins so.
fn number_of(name: &str) -> Result<usize, &'static str> {
    let mut found = None;
    for (number, (_, named, _)) in KINDS.iter().enumerate() {
        if *named == name {
            return Ok(number);
        }
        if named.starts_with(name) {
            if found.is_some() {
                return Err("several kinds of warnings begin so");
            }
            found = Some(number);
        }
    }
    found.ok_or("there is no such kind of warnings")
}

impl Kinds {
    /// Those that are shown where words say nothing.
    pub fn new() -> Kinds {
        Kinds {
            told: [Word::No; COUNT],
            errors: [Word::No; COUNT],
            all_errors: false,
        }
    }

    /// Takes in what a list of words says, or gives the reason why one is refused.
    pub fn take(&mut self, words: &str) -> Result<(), &'static str> {
        for word in words.split(',') {
            self.take_word(word)?;
        }
        Ok(())
    }

    /// Takes in what a word says.
    fn take_word(&mut self, word: &str) -> Result<(), &'static str> {
        let Choice {
            name,
            is_off,
            is_error,
        } = choice_of(word);
        if is_error && name.is_empty() {
            self.all_errors = !is_off;
            return Ok(());
        }
        let off = is_off != (name == "none");
        let word = if off { Word::Off } else { Word::On };
        if matches!(name, "" | "all" | "none" | "everything") {
            let least = off || name == "everything";
            for (number, (_, _, when)) in KINDS.iter().enumerate() {
                if least || *when != When::Named {
                    self.set(number, word, is_error);
                }
            }
            return Ok(());
        }
        let number = match name {
            "cex" => number_of("counterexamples")?,
            _ => number_of(name)?,
        };
        self.set(number, word, is_error);
        Ok(())
    }

    /// Takes in what is said of the kind of a number: one that is an error is shown, one that is
    /// none stays what it is.
    fn set(&mut self, number: usize, word: Word, is_error: bool) {
        if is_error {
            if let Some(said) = self.errors.get_mut(number) {
                *said = word;
            }
        }
        if !is_error || word == Word::On {
            if let Some(said) = self.told.get_mut(number) {
                *said = word;
            }
        }
    }

    /// Whether words ask for a kind but those of conflicts.
    pub fn ask_for_more(&self) -> bool {
        for (number, (kind, _, _)) in KINDS.iter().enumerate() {
            let is_conflict = matches!(
                kind,
                Kind::ConflictsSr | Kind::ConflictsRr | Kind::Counterexamples
            );
            if !is_conflict && self.told.get(number) == Some(&Word::On) {
                return true;
            }
        }
        false
    }

    /// How a kind is shown, where `is_usual` says whether kinds are that no word names.
    pub fn telling(&self, kind: Kind, is_usual: bool) -> Telling {
        for (number, (it, _, when)) in KINDS.iter().enumerate() {
            if *it != kind {
                continue;
            }
            let is_told = match self.told.get(number) {
                Some(Word::On) => true,
                Some(Word::Off) => false,
                _ => is_usual && *when == When::Always,
            };
            let is_error = match self.errors.get(number) {
                Some(Word::On) => true,
                Some(Word::Off) => false,
                _ => self.all_errors,
            };
            return match (is_told, is_error) {
                (false, _) => Telling::Not,
                (true, false) => Telling::Warning,
                (true, true) => Telling::Error,
            };
        }
        Telling::Not
    }
}

/// The name of a kind.
pub fn name_of(kind: Kind) -> &'static str {
    for (it, name, _) in &KINDS {
        if *it == kind {
            return name;
        }
    }
    ""
}
