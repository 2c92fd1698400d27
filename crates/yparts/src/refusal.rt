//! Why a parser isn't made for what a file says.

/// What a file asks for that no parser of this kind has.
#[derive(Clone, Copy, Drop, PartialEq, Eq)]
pub enum Refusal {
    /// Another language than C and C++.
    Language,
    /// A skeleton of another kind of parser.
    Skeleton,
    /// Other tables than LALR(1).
    Tables,
    /// Values of several types that aren't members of a union, in C.
    Variant,
    /// A union with a name, in C++.
    NamedUnion,
    /// Functions that make tokens where values aren't of several types.
    Constructors,
    /// A literal where the numbers of tokens are those of symbols.
    Literal,
    /// A variable of `%define` that no parser of this language has.
    Variable,
    /// A value that the variable doesn't have.
    Value,
    /// A value of a variable that is yes or no.
    Boolean,
    /// A parameter without a name.
    Parameter,
    /// A place for code that isn't known.
    Qualifier,
    /// A later bison than the one whose files are taken.
    Later,
    /// No version.
    Version,
    /// `%union` beside a variable for the type of values.
    Values,
    /// Another value for a variable.
    Redefined,
    /// Further code for the same values.
    SecondCare,
}

/// What a file asks for in vain, and where.
#[derive(Clone, Copy)]
pub struct Refused<'a> {
    /// Why it is refused.
    pub refusal: Refusal,
    /// How many bytes of the file stand before it.
    pub at: usize,
    /// What is refused: a variable, a place of code, a language, a version, whose values.
    pub name: &'a [u8],
    /// The value of a variable, or the directive of code.
    pub value: &'a [u8],
    /// Where the same was said before.
    pub before: Option<usize>,
}

impl<'a> Refused<'a> {
    /// What is refused by its name, with no value and nothing before it.
    pub fn new(refusal: Refusal, at: usize, name: &'a [u8]) -> Refused<'a> {
        Refused {
            refusal,
            at,
            name,
            value: b"",
            before: None,
        }
    }
}

impl Refusal {
    /// What is said of it.
    pub fn text(self) -> &'static str {
        match self {
            Refusal::Language => "parsers are in C or C++",
            Refusal::Skeleton => "there are two skeletons, yacc.c and lalr1.cc",
            Refusal::Tables => "tables are those of LALR(1)",
            Refusal::Variant => "values in C are of one type or members of a union",
            Refusal::NamedUnion => "named %union is invalid in C++",
            Refusal::Constructors => {
                "cannot use '%define api.token.constructor' without '%define api.value.type variant'"
            }
            Refusal::Literal => "character literals cannot be used together with api.token.raw",
            Refusal::Variable => "this variable isn't known",
            Refusal::Value | Refusal::Boolean => "the variable has no such value",
            Refusal::Parameter => "a parameter has a name",
            Refusal::Qualifier => "code has no such place",
            Refusal::Later => "it requires a later bison than 3.8.2",
            Refusal::Version => "no version of bison is spelled so",
            Refusal::Values => "a file has either %union or api.value.type",
            Refusal::Redefined => "the variable has another value already",
            Refusal::SecondCare => "these values have such code already",
        }
    }
}
