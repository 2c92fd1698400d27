//! The tables of a grammar: of its bytes, or of a file.

ghost use Rattle.std.specs.Prelude.{IfOk, IfErr};
ghost use Rattle.ygenerate.specs.Sources.{AreTablesOf, HasTables, NoTables, SourceFails};

use std::alloc::Global;
use std::io::ErrorKind;
use thiserror::Error;
use yfolder::Folder;
use ygrammar::{GrammarFault, LONGEST_FILE, read_grammar};
use ylalr::{BuildFault, build};
use ytables::{Tables, resolve};

/// So many bytes of a grammar show that it is too long, even where it never ends.
const GRAMMAR_BYTES: usize = LONGEST_FILE + 1;

/// Why there are no tables of a grammar.
#[derive(Debug, Drop, Error)]
pub enum SourceFault {
    /// The grammar can't be opened or read.
    #[error("cannot read the grammar")]
    Unread,
    /// Memory ran out while the grammar was opened or read.
    #[error("no memory")]
    NoRoom,
    /// The grammar is refused.
    #[error("{0}")]
    Grammar(GrammarFault),
    /// There are more than 16,384 item sets, or memory ran out for them.
    #[error("{0}")]
    Build(BuildFault),
    /// Memory ran out for the tables.
    #[error("no memory")]
    Tables,
}

/// The tables of the grammar that the bytes mean.
pub fn tables_over(alloc: Global, source: &[u8]) -> Result<Tables, SourceFault>
    ensures tables { IfOk result (λ t. AreTablesOf source.now t) }
    ensures refused { IfErr result (λ fault. NoTables source.now fault) }
{
    let grammar = match read_grammar(alloc, source) {
        Ok(grammar) => grammar,
        Err(fault) => return Err(SourceFault::Grammar(fault)),
    };
    let automaton = match build(alloc, grammar) {
        Ok(automaton) => automaton,
        Err(fault) => return Err(SourceFault::Build(fault)),
    };
    let _guide = automaton.states();
    match resolve(alloc, automaton) {
        Ok(tables) => Ok(tables),
        Err(_) => Err(SourceFault::Tables),
    }
}

/// The tables of the grammar file at this path.
pub fn tables_from<D: Folder>(
    alloc: Global,
    folder: &mut D,
    grammar: &str,
) -> Result<Tables, SourceFault>
    ensures tables { IfOk result (HasTables D.reads grammar.now folder.old folder.new) }
    ensures fails { IfErr result
        (SourceFails D.reads D.unreadable grammar.now folder.old folder.new) }
{
    match folder.read(alloc, grammar, Some(GRAMMAR_BYTES)) {
        Ok(bytes) => tables_over(alloc, &bytes),
        Err(error) => match error.kind() {
            ErrorKind::OutOfMemory => Err(SourceFault::NoRoom),
            _ => Err(SourceFault::Unread),
        },
    }
}
