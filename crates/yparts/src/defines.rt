//! The variables of `%define`.

use crate::options::{Class, Defaults, Errors, Options, Pull, Purity, Values};
use crate::refusal::Refusal;
use yforeign::directive::is_word;

/// A variable, by what is done with its value.
#[derive(Clone, Copy, PartialEq, Eq)]
enum Variable {
    Pure,
    Errors,
    Trace,
    Locations,
    ApiPrefix,
    TokenPrefix,
    SymbolPrefix,
    Raw,
    Namespace,
    Class,
    Constructors,
    Asserts,
    Moves,
    LocationFile,
    LocationInclude,
    FileName,
    Compares,
    Values,
    Variant,
    UnionName,
    LocationType,
    Include,
    Tables,
    Push,
    Lac,
    Defaults,
    /// It changes nothing.
    Idle,
}

/// The variables that are known.
const VARIABLES: [(&str, Variable); 39] = [
    ("api.pure", Variable::Pure),
    ("parse.error", Variable::Errors),
    ("parse.trace", Variable::Trace),
    ("parse.lac", Variable::Lac),
    ("parse.assert", Variable::Asserts),
    ("assert", Variable::Asserts),
    ("locations", Variable::Locations),
    ("api.prefix", Variable::ApiPrefix),
    ("api.token.prefix", Variable::TokenPrefix),
    ("api.tokens.prefix", Variable::TokenPrefix),
    ("api.symbol.prefix", Variable::SymbolPrefix),
    ("api.token.raw", Variable::Raw),
    ("api.token.constructor", Variable::Constructors),
    ("lex_symbol", Variable::Constructors),
    ("api.namespace", Variable::Namespace),
    ("namespace", Variable::Namespace),
    ("api.parser.class", Variable::Class),
    ("parser_class_name", Variable::Class),
    ("api.value.automove", Variable::Moves),
    ("api.location.file", Variable::LocationFile),
    ("api.location.include", Variable::LocationInclude),
    ("api.filename.type", Variable::FileName),
    ("filename_type", Variable::FileName),
    ("define_location_comparison", Variable::Compares),
    ("api.value.type", Variable::Values),
    ("stype", Variable::Values),
    ("variant", Variable::Variant),
    ("api.value.union.name", Variable::UnionName),
    ("api.location.type", Variable::LocationType),
    ("location_type", Variable::LocationType),
    ("api.header.include", Variable::Include),
    ("lr.type", Variable::Tables),
    ("lr.default-reduction", Variable::Defaults),
    ("lr.default-reductions", Variable::Defaults),
    ("lr.keep-unreachable-state", Variable::Idle),
    ("lr.keep-unreachable-states", Variable::Idle),
    ("lr.keep_unreachable_states", Variable::Idle),
    ("api.push-pull", Variable::Push),
    ("api.push_pull", Variable::Push),
];

/// Yes or no.
fn switch(value: &[u8]) -> Result<bool, Refusal> {
    match value {
        b"" | b"true" => Ok(true),
        b"false" => Ok(false),
        _ => Err(Refusal::Boolean),
    }
}

/// How far a parser does without shared variables.
fn purity(value: &[u8]) -> Result<Purity, Refusal> {
    match value {
        b"full" => Ok(Purity::Full),
        b"" | b"true" => Ok(Purity::Yes),
        b"false" => Ok(Purity::No),
        _ => Err(Refusal::Value),
    }
}

/// What is said of an error.
fn errors(value: &[u8]) -> Result<Errors, Refusal> {
    match value {
        b"simple" => Ok(Errors::Simple),
        b"verbose" => Ok(Errors::Verbose),
        b"detailed" => Ok(Errors::Detailed),
        b"custom" => Ok(Errors::Custom),
        _ => Err(Refusal::Value),
    }
}

/// The type of values; one in braces is one of C.
fn values(value: &[u8], is_code: bool) -> Result<Values<'_>, Refusal> {
    match value {
        _ if is_code => Ok(Values::Named(value)),
        b"union" => Ok(Values::Symbols),
        b"variant" => Ok(Values::Variant),
        b"union-directive" => Ok(Values::Declared),
        _ => Ok(Values::Named(value)),
    }
}

/// Whether a parse fetches its tokens.
fn pull(value: &[u8]) -> Result<Pull, Refusal> {
    match value {
        b"pull" => Ok(Pull::Only),
        b"push" => Ok(Pull::Never),
        b"both" => Ok(Pull::Also),
        _ => Err(Refusal::Value),
    }
}

/// Which states reduce by default.
fn defaults(value: &[u8]) -> Result<Defaults, Refusal> {
    match value {
        b"most" => Ok(Defaults::Most),
        b"sole" => Ok(Defaults::Sole),
        b"consistent" | b"accepting" => Ok(Defaults::Consistent),
        _ => Err(Refusal::Value),
    }
}

/// Nothing, where the tables are those of LALR(1).
fn tables(value: &[u8]) -> Result<(), Refusal> {
    match value {
        b"lalr" => Ok(()),
        b"lr(0)" | b"ielr" | b"canonical-lr" => Err(Refusal::Tables),
        _ => Err(Refusal::Value),
    }
}

/// Whether a parser looks ahead before an error.
fn lac(value: &[u8]) -> Result<bool, Refusal> {
    match value {
        b"full" => Ok(true),
        b"none" => Ok(false),
        _ => Err(Refusal::Value),
    }
}

/// The variable of a name.
fn variable_of(name: &[u8]) -> Option<Variable> {
    for (known, variable) in &VARIABLES {
        if is_word(name, known) {
            return Some(*variable);
        }
    }
    None
}

impl<'a> Class<'a> {
    /// Gives a variable that only C++ has its value.
    fn define(&mut self, variable: Variable, value: &'a [u8]) -> Result<(), Refusal> {
        match variable {
            Variable::Namespace => self.namespace = Some(value),
            Variable::Class => self.name = Some(value),
            Variable::Constructors => self.constructors = switch(value)?,
            Variable::Asserts => self.asserts = switch(value)?,
            Variable::Moves => self.moves = switch(value)?,
            Variable::LocationFile => self.location_file = Some(value),
            Variable::LocationInclude => self.location_include = Some(value),
            Variable::FileName => self.file_name = Some(value),
            Variable::Compares => self.compares = switch(value)?,
            _ => {}
        }
        Ok(())
    }
}

impl<'a> Options<'a> {
    /// Gives a variable a value, the text between its quotes or braces, and says whether it stood
    /// in braces.
    pub fn define(&mut self, name: &[u8], value: &'a [u8], is_code: bool) -> Result<(), Refusal> {
        match variable_of(name).ok_or(Refusal::Variable)? {
            Variable::Pure => self.purity = purity(value)?,
            Variable::Errors => self.errors = errors(value)?,
            Variable::Trace => self.trace = switch(value)?,
            Variable::Locations => self.locations = switch(value)?,
            Variable::ApiPrefix => self.api_prefix = Some(value),
            Variable::TokenPrefix => self.token_prefix = Some(value),
            Variable::SymbolPrefix => self.symbol_prefix = Some(value),
            Variable::Raw => self.raw = switch(value)?,
            Variable::Values => self.values = values(value, is_code)?,
            Variable::Variant => self.values = Values::Variant,
            Variable::UnionName => self.union_name = Some(value),
            Variable::LocationType => self.location_type = Some(value),
            Variable::Include => self.include = Some(value),
            Variable::Tables => tables(value)?,
            Variable::Push => self.pull = pull(value)?,
            Variable::Lac => self.lac = lac(value)?,
            Variable::Defaults => self.defaults = defaults(value)?,
            Variable::Idle => {}
            variable => self.class.define(variable, value)?,
        }
        Ok(())
    }

    /// Why a parser of this language doesn't have a variable that is known, where that is so.
    pub fn refusal_of(&self, name: &[u8]) -> Option<Refusal> {
        let variable = variable_of(name)?;
        if self.is_cxx() {
            return match variable {
                Variable::Pure | Variable::Push | Variable::Include => Some(Refusal::Variable),
                Variable::UnionName => Some(Refusal::NamedUnion),
                Variable::Constructors
                    if self.class.constructors && self.values != Values::Variant => {
                    Some(Refusal::Constructors)
                }
                _ => None,
            };
        }
        match variable {
            Variable::Values | Variable::Variant if self.values == Values::Variant => {
                Some(Refusal::Variant)
            }
            Variable::Namespace
            | Variable::Class
            | Variable::Constructors
            | Variable::Moves
            | Variable::LocationFile
            | Variable::LocationInclude
            | Variable::FileName
            | Variable::Compares => Some(Refusal::Variable),
            _ => None,
        }
    }
}

/// The values that a variable of this name accepts, in bison's order, with a space between two;
/// nothing where all are or bison doesn't list them.
pub fn accepted(name: &[u8]) -> &'static str {
    match variable_of(name) {
        Some(Variable::Pure) => "false true  full",
        Some(Variable::Errors) => "custom detailed simple verbose",
        Some(Variable::Lac) => "full none",
        Some(Variable::Tables) => "lr(0) lalr ielr canonical-lr",
        Some(Variable::Push) => "pull push both",
        Some(Variable::Defaults) => "most consistent accepting sole",
        _ => "",
    }
}
