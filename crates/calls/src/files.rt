//! Each call that takes memory, without those of a session, and the name that is written where it
//! is refused memory.

use crate::said::{say, say_refused};
use clap::error::ErrorKind as WordsKind;
use std::alloc::Global;
use std::fs;
use std::io::ErrorKind;
use ygenerate::arguments::{YstepWords, ystep_words};
use ygrammar::{Grammar, GrammarFault, read_grammar};
use ylalr::{Automaton, BuildFault, build};
use yparse::{TokenFault, Tokens, read_tokens};
use ytables::{Tables, resolve};

/// A call that takes memory.
#[derive(Clone, Copy)]
pub enum Call {
    /// Reading the words.
    Words,
    /// Reading a file.
    Read,
    /// Reading the grammar of a file's bytes.
    ReadGrammar,
    /// Building the automaton.
    Build,
    /// Making the tables.
    Resolve,
    /// Reading the tokens of a file's bytes.
    ReadTokens,
}

/// Why a call has made nothing.
#[derive(Clone, Copy)]
pub enum Refusal {
    /// This call ran out of memory.
    Memory(Call),
    /// This call refused what it was given.
    Fault(Call),
}

/// What a call has made, or why it has made nothing.
pub type Made<T> = Result<T, Refusal>;

impl Call {
    fn name(self) -> &'static str {
        match self {
            Call::Words => "ystep_words",
            Call::Read => "read",
            Call::ReadGrammar => "read_grammar",
            Call::Build => "build",
            Call::Resolve => "resolve",
            Call::ReadTokens => "read_tokens",
        }
    }
}

impl Refusal {
    /// Says what was refused, and answers whether the call is worth another try.
    fn say(self, rt: &HostRuntime) -> bool {
        match self {
            Refusal::Memory(call) => {
                say_refused(rt, call.name());
                true
            }
            Refusal::Fault(call) => {
                say(rt, &[call.name().as_bytes(), b": fault"]);
                false
            }
        }
    }
}

/// The words of the program, which are those of `ystep`.
pub fn words_of<'a>(alloc: Global, words: &'a [&'a str]) -> Made<YstepWords<'a>> {
    match ystep_words(alloc, words) {
        Ok(words) => Ok(words),
        Err(error) => match error.kind() {
            WordsKind::OutOfMemory => Err(Refusal::Memory(Call::Words)),
            _ => Err(Refusal::Fault(Call::Words)),
        },
    }
}

/// The bytes of a file.
pub fn bytes_at(rt: &HostRuntime, path: &str) -> Made<Vec<u8>> {
    match fs::read(rt, path) {
        Ok(bytes) => Ok(bytes),
        Err(error) => match error.kind() {
            ErrorKind::OutOfMemory => Err(Refusal::Memory(Call::Read)),
            _ => Err(Refusal::Fault(Call::Read)),
        },
    }
}

fn grammar_over(alloc: Global, source: &[u8]) -> Made<Grammar> {
    match read_grammar(alloc, source) {
        Ok(grammar) => Ok(grammar),
        Err(GrammarFault::Memory) => Err(Refusal::Memory(Call::ReadGrammar)),
        Err(_) => Err(Refusal::Fault(Call::ReadGrammar)),
    }
}

fn automaton_of(alloc: Global, grammar: Grammar) -> Made<Automaton> {
    match build(alloc, grammar) {
        Ok(automaton) => Ok(automaton),
        Err(BuildFault::Memory) => Err(Refusal::Memory(Call::Build)),
        Err(_) => Err(Refusal::Fault(Call::Build)),
    }
}

fn resolved(alloc: Global, automaton: Automaton) -> Made<Tables> {
    match resolve(alloc, automaton) {
        Ok(tables) => Ok(tables),
        Err(_) => Err(Refusal::Memory(Call::Resolve)),
    }
}

/// The tables of the grammar that these bytes mean.
pub fn tables_over(alloc: Global, source: &[u8]) -> Made<Tables> {
    resolved(alloc, automaton_of(alloc, grammar_over(alloc, source)?)?)
}

/// The tokens that these bytes mean.
pub fn tokens_over(alloc: Global, tables: &Tables, source: &[u8]) -> Made<Tokens> {
    match read_tokens(alloc, tables, source) {
        Ok(tokens) => Ok(tokens),
        Err(TokenFault::Memory) => Err(Refusal::Memory(Call::ReadTokens)),
        Err(_) => Err(Refusal::Fault(Call::ReadTokens)),
    }
}

/// What a call makes. Where memory ran out, the call is made once more; `None` where it has made
/// nothing then.
pub fn twice<T: Drop, F: FnMut() -> Made<T>>(rt: &HostRuntime, mut call: F) -> Option<T>
    requires { F.IsAlwaysCallable call }
{
    for _ in 0..2 {
        match call() {
            Ok(value) => return Some(value),
            Err(refusal) => {
                if !refusal.say(rt) {
                    return None;
                }
            }
        }
    }
    None
}
