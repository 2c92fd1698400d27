//! Categories of warnings, by the names that bison has for them: which are shown, and which make a
//! run fail.

/// A category of warnings.
#[derive(Clone, Copy, Drop, PartialEq, Eq)]
pub enum Category {
    /// Conflicts in which the shift is taken.
    ConflictsSr,
    /// Conflicts between rules alone.
    ConflictsRr,
    /// Strings of a file of bison that no token has.
    DanglingAlias,
    /// Precedences that settle nothing.
    Precedence,
    /// What else of a file of bison isn't as POSIX has it.
    Yacc,
    /// Rules that are never reduced, and symbols that nothing uses or reaches.
    Other,
}

/// What is said of a name that no category has.
pub const NO_CATEGORY: &str = "-W and --strict= take conflicts-sr, conflicts-rr, dangling-alias, \
    precedence, yacc, other, all or none; -W also no- before one";

/// All categories.
const ALL: [Category; 6] = [
    Category::ConflictsSr,
    Category::ConflictsRr,
    Category::DanglingAlias,
    Category::Precedence,
    Category::Yacc,
    Category::Other,
];

impl Category {
    /// Its name.
    pub fn name(self) -> &'static str {
        match self {
            Category::ConflictsSr => "conflicts-sr",
            Category::ConflictsRr => "conflicts-rr",
            Category::DanglingAlias => "dangling-alias",
            Category::Precedence => "precedence",
            Category::Yacc => "yacc",
            Category::Other => "other",
        }
    }
}

/// Some categories.
#[derive(Clone, Copy, Drop, PartialEq, Eq)]
pub struct Categories {
    /// A mark for each, in their order.
    marks: [bool; 6],
}

impl Categories {
    /// Whether a category is one of them.
    pub fn has(self, category: Category) -> bool {
        let mut marked = ALL.iter().zip(&self.marks);
        marked.any(|(it, is_in)| *it == category && *is_in)
    }

    /// Puts the categories that a name means in, or takes them out, and says whether it means some.
    /// No name means those of a grammar, without those of what an import changes.
    fn take(&mut self, name: &str, is_in: bool) -> bool {
        let mut is_meant = false;
        for (it, mark) in ALL.iter().zip(self.marks.iter_mut()) {
            let of_import = matches!(it, Category::DanglingAlias | Category::Yacc);
            if name == "all" || name == it.name() || (name.is_empty() && !of_import) {
                *mark = is_in;
                is_meant = true;
            } else if name == "none" {
                *mark = !is_in;
                is_meant = true;
            }
        }
        is_meant
    }
}

/// Which warnings are shown, and which make a run fail.
#[derive(Clone, Copy, Drop, PartialEq, Eq)]
pub struct Choice {
    /// Those that are shown.
    pub shown: Categories,
    /// Those that make a run fail where they are shown.
    pub strict: Categories,
}

impl Choice {
    /// What the values of `-W` and of `--strict` choose, one after the other: all are shown at
    /// first, and none makes a run fail. `None` where one of them is no name.
    pub fn of(shown: &[&str], strict: &[&str]) -> Option<Choice> {
        let mut choice = Choice {
            shown: Categories { marks: [true; 6] },
            strict: Categories { marks: [false; 6] },
        };
        for word in shown {
            let (name, is_in) = match word.strip_prefix("no-") {
                Some(name) => (name, false),
                None => (*word, true),
            };
            if name.is_empty() || !choice.shown.take(name, is_in) {
                return None;
            }
        }
        for name in strict {
            if !choice.strict.take(name, true) {
                return None;
            }
        }
        Some(choice)
    }

    /// Whether a warning of a category makes the run fail.
    pub fn fails_by(self, category: Category) -> bool {
        self.shown.has(category) && self.strict.has(category)
    }

    /// The same, but that no conflict makes the run fail.
    pub fn without_conflicts(self) -> Choice {
        let mut choice = self;
        choice.strict.take("conflicts-sr", false);
        choice.strict.take("conflicts-rr", false);
        choice
    }
}
