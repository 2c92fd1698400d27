//! What a file wishes of its parser as a whole.

/// How far a parser does without variables that all its calls share.
#[derive(Clone, Copy, PartialEq, Eq)]
pub enum Purity {
    /// It shares them.
    No,
    /// It has its own, and hands them to `yylex`.
    Yes,
    /// It hands the place of an error to `yyerror` too.
    Full,
}

/// What is said of an error.
#[derive(Clone, Copy, PartialEq, Eq)]
pub enum Errors {
    /// That there is one.
    Simple,
    /// Which token came and which could come, named as in the file, with quotes.
    Verbose,
    /// The same, named without quotes.
    Detailed,
    /// What a function of the user's says.
    Custom,
}

/// The type of values.
#[derive(Clone, Copy, PartialEq, Eq)]
pub enum Values<'a> {
    /// That of `%union`, or else numbers.
    Declared,
    /// A union with a member for each symbol that has a tag; the tag is its type.
    Symbols,
    /// The type of each symbol by itself, which its tag is.
    Variant,
    /// A type by its name.
    Named(&'a [u8]),
}

/// The language of a parser.
#[derive(Clone, Copy, PartialEq, Eq)]
pub enum Language {
    /// C, which C++ takes too.
    C,
    /// C++, with a class.
    Cxx,
}

/// The language of a name, in whatever case it is spelled.
pub fn language_of(name: &[u8]) -> Option<Language> {
    match name {
        b"c" | b"C" => Some(Language::C),
        b"c++" | b"C++" => Some(Language::Cxx),
        _ => None,
    }
}

/// The language of a skeleton.
pub fn skeleton_of(name: &[u8]) -> Option<Language> {
    match name {
        b"yacc.c" => Some(Language::C),
        b"lalr1.cc" => Some(Language::Cxx),
        _ => None,
    }
}

/// What only a parser in C++ has.
#[derive(Clone, Copy)]
pub struct Class<'a> {
    /// `api.namespace`.
    pub namespace: Option<&'a [u8]>,
    /// `api.parser.class`.
    pub name: Option<&'a [u8]>,
    /// Whether tokens are made by functions, `api.token.constructor`.
    pub constructors: bool,
    /// Whether values are checked while it runs, `parse.assert`.
    pub asserts: bool,
    /// Whether actions move what they name, `api.value.automove`.
    pub moves: bool,
    /// The file of places, `api.location.file`: `none` for none.
    pub location_file: Option<&'a [u8]>,
    /// How it is included, `api.location.include`.
    pub location_include: Option<&'a [u8]>,
    /// The type of the names of files in places, `api.filename.type`.
    pub file_name: Option<&'a [u8]>,
    /// Whether places can be compared, `define_location_comparison`.
    pub compares: bool,
}

/// Whether a header is wished for.
#[derive(Clone, Copy, PartialEq, Eq)]
pub enum Header<'a> {
    /// None.
    No,
    /// One beside the parser.
    Beside,
    /// One at a path.
    At(&'a [u8]),
}

/// Which states reduce by default, at tokens that are none of theirs.
#[derive(Clone, Copy, PartialEq, Eq)]
pub enum Defaults {
    /// Nothing is said of it.
    Unsaid,
    /// bison's: by the commonest reduction.
    Most,
    /// byacc's: by the one reduction of a state.
    Sole,
    /// States that reduce by one rule at every token.
    Consistent,
}

/// Whether a parse fetches its tokens.
#[derive(Clone, Copy, PartialEq, Eq)]
pub enum Pull {
    /// It does.
    Only,
    /// They are pushed into it.
    Never,
    /// Either.
    Also,
}

/// What a file wishes of its parser as a whole.
#[derive(Clone, Copy)]
pub struct Options<'a> {
    /// Whether it has a directive that only bison has.
    pub is_bison: bool,
    /// `%language`, where it is given.
    pub language: Option<Language>,
    /// The language of `%skeleton`, where it is given.
    pub skeleton: Option<Language>,
    /// What only a parser in C++ has.
    pub class: Class<'a>,
    /// The version of bison that it requires, as 30802.
    pub required: usize,
    /// Whether the names of files are those of `yacc`.
    pub is_yacc: bool,
    /// `api.pure`.
    pub purity: Purity,
    /// Whether symbols have places.
    pub locations: bool,
    /// `parse.error`.
    pub errors: Errors,
    /// Whether the parser can trace its steps.
    pub trace: bool,
    /// Whether a table of names is wished for.
    pub has_names: bool,
    /// Whether `#line` is left out.
    pub no_lines: bool,
    /// Whether the report on states is wished for.
    pub verbose: bool,
    /// The header.
    pub header: Header<'a>,
    /// The file of the parser.
    pub output: Option<&'a [u8]>,
    /// What the names of files begin with.
    pub file_prefix: Option<&'a [u8]>,
    /// What names in C begin with in place of `yy`.
    pub name_prefix: Option<&'a [u8]>,
    /// The same, of types and macros too.
    pub api_prefix: Option<&'a [u8]>,
    /// What the names of tokens in C begin with.
    pub token_prefix: Option<&'a [u8]>,
    /// What the names of the kinds of symbols begin with.
    pub symbol_prefix: Option<&'a [u8]>,
    /// The type of values.
    pub values: Values<'a>,
    /// The name of the union of values.
    pub union_name: Option<&'a [u8]>,
    /// The type of places.
    pub location_type: Option<&'a [u8]>,
    /// What the parser includes for its header.
    pub include: Option<&'a [u8]>,
    /// Whether `parse.lac` asks to look ahead before an error.
    pub lac: bool,
    /// `lr.default-reduction`.
    pub defaults: Defaults,
    /// `api.push-pull`.
    pub pull: Pull,
    /// `api.token.raw`: whether the numbers of tokens are those of symbols.
    pub raw: bool,
    /// Whether the file is one that `yacc` reads as it is.
    pub is_profile: bool,
}

impl Options<'_> {
    /// No wishes.
    pub fn none<'a>() -> Options<'a> {
        Options {
            is_bison: false,
            language: None,
            skeleton: None,
            class: Class {
                namespace: None,
                name: None,
                constructors: false,
                asserts: false,
                moves: false,
                location_file: None,
                location_include: None,
                file_name: None,
                compares: false,
            },
            required: 0,
            is_yacc: false,
            purity: Purity::No,
            locations: false,
            errors: Errors::Simple,
            trace: false,
            has_names: false,
            no_lines: false,
            verbose: false,
            header: Header::No,
            output: None,
            file_prefix: None,
            name_prefix: None,
            api_prefix: None,
            token_prefix: None,
            symbol_prefix: None,
            values: Values::Declared,
            union_name: None,
            location_type: None,
            include: None,
            lac: false,
            defaults: Defaults::Unsaid,
            pull: Pull::Only,
            raw: false,
            is_profile: false,
        }
    }

    /// Whether the parser is in C++: by its skeleton, or else by its language.
    pub fn is_cxx(&self) -> bool {
        self.skeleton.or(self.language) == Some(Language::Cxx)
    }
}
