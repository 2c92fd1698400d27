//! The forms of what is said.

/// A form of what is said.
#[derive(Clone, Copy, Drop, PartialEq, Eq)]
pub enum Format {
    /// For people.
    Text,
    /// A line for each thing, as gcc writes them.
    Gcc,
    /// One document in JSON.
    Json,
}

/// What is said of a word that means no form.
pub const NO_FORM: &str = "--format takes text, gcc or json";

/// The form that a word means; without one it is for people.
pub fn form_of(word: Option<&str>) -> Option<Format> {
    match word {
        None | Some("text") => Some(Format::Text),
        Some("gcc") => Some(Format::Gcc),
        Some("json") => Some(Format::Json),
        Some(_) => None,
    }
}
