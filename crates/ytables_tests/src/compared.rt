//! The lookaheads of whole grammars, against plain saturation over the public calls; and the
//! limit of states.

use crate::reference::{agrees, lookaheads};
use std::alloc::{AllocError, Global};
use std::test::Fail;
use testkit::texts::repeated;
use ygrammar::read_grammar;
use ylalr::{Automaton, BuildFault, build};

/// The automaton of a grammar file.
pub fn automaton(alloc: Global, source: &[u8]) -> Result<Automaton, Fail> {
    Ok(build(alloc, read_grammar(alloc, source)?)?)
}

/// The number of states, or `None` where the lookaheads are not those of the reference.
fn checked_of(alloc: Global, m: &Automaton) -> Result<Option<usize>, AllocError> {
    let Some(facts) = lookaheads(alloc, m)? else {
        return Ok(None);
    };
    let right = agrees(m, &facts);
    drop(facts);
    Ok(right.then_some(m.states()))
}

/// The number of states, or `None` where the lookaheads of the file's grammar are not those of the
/// reference.
fn checked(alloc: Global, source: &[u8]) -> Result<Option<usize>, Fail> {
    let m = automaton(alloc, source)?;
    let states = checked_of(alloc, &m);
    drop(m);
    Ok(states?)
}

/// The numbers of states of those files whose lookaheads are those of the reference.
fn checked_each(alloc: Global, sources: &[&[u8]]) -> Result<Vec<usize>, Fail> {
    let mut states = Vec::new(alloc);
    for source in sources {
        if let Some(count) = checked(alloc, source)? {
            states.push(count)?;
        }
    }
    Ok(states)
}

/// The grammars that are read whole against the reference.
const WORKED: [&[u8]; 28] = [
    b"%% s : 'x' ;",
    b"%% s : ;",
    b"%token NUM %left '+' %left '*' %% e : e '+' e | e '*' e | NUM ;",
    b"%token IF ELSE X %% s : IF s | IF s ELSE s | X ;",
    b"%token ID %% s : l '=' r | r ; l : '*' r | ID ; r : l ;",
    b"%% s : 'a' p 'd' | 'b' q 'd' | 'a' q 'e' | 'b' p 'e' ; p : 'c' ; q : 'c' ;",
    b"%% s : p q 'x' ; p : 'y' ; q : ;",
    b"%% s : s | 'x' ;",
    b"%left 'x' %left HI %% s : e s | 'x' ; e : %prec HI ;",
    b"%token NUM %nonassoc '<' %% e : e '<' e | NUM ;",
    b"%token NUM %% list : | list NUM ';' | list error ';' ;",
    b"%% s : 'a' { x } 'b' { y } ;",
    b"%% s : 'a' ; | 'b' ;",
    b"%token A 300 B %% s : A B '\\x41' 'A' ;",
    b"%% s : { a } 'x' { b } t { c } ; t : { d } %prec 'x' { e } ;",
    b"%% s : { a } 'x' { b } t { c } ; t : { d } %prec 'x' ;",
    b"%% s : 'p' a 'q' ; a : 'r' b ; b : 't' c ; c : 'y' ;",
    b"%% s : p '+' | q '+' | 'n' '+' ; p : 'n' ; q : 'n' ;",
    b"%left '+' %left HI %% s : p '+' | q '+' | 'n' '+' ; p : 'n' %prec HI ; q : 'n' ;",
    b"%left L %left '+' %left H %% s: p '+' | q '+' | 'n' '+'; p: 'n' %prec H; q: 'n' %prec L;",
    b"%nonassoc '+' %% s : p '+' | q '+' | 'n' '+' ; p : 'n' %prec '+' ; q : 'n' ;",
    b"%% s : 'x' ; t : 'y' ;",
    b"%% s : 'a' | error ;",
    b"%left 'a' %% s :",
    b"%left 'a' %% s : 'a'",
    b"%left 'a' %% s : 'a' { x } ;",
    b"%token A 32767 %% s : A ;",
    b"%% s : | s 'x' ;",
];

#[test]
fn lookaheads_of_the_worked_grammars(rt: HostRuntime) -> Result<(), Fail> {
    let states = checked_each(rt.alloc(), &WORKED)?;
    assert_eq!(rt; states.len(), 28);
    Ok(())
}

/// A grammar of 65 bodies that begin with 65 literals: 64 of 255 symbols, and one of `last`.
fn rows_of_literals(alloc: Global, last: usize) -> Result<Vec<u8>, AllocError> {
    let mut file = Vec::from_slice(alloc, b"%% s : ")?;
    for byte in b'('..b'h' {
        // from the bracket on, the 63 literals below 'h' without the backslash, and 'y'
        let literal = if byte == b'\\' { b'y' } else { byte };
        let body = repeated(alloc, &[b'\'', literal, b'\''], b" 'x'", 254, b"\n | ")?;
        file.extend_from_slice(&body)?;
    }
    let body = repeated(alloc, b"'z'", b" 'x'", last.saturating_sub(1), b" ;\n")?;
    file.extend_from_slice(&body)?;
    Ok(file)
}

#[test]
fn the_limit_of_states(rt: HostRuntime) -> Result<(), Fail> {
    let most = rows_of_literals(rt.alloc(), 62)?;
    let states = checked(rt.alloc(), most.as_slice())?;
    assert_eq!(rt; states, Some(16_384));
    Ok(())
}

#[test]
fn one_state_more(rt: HostRuntime) -> Result<(), Fail> {
    let more = rows_of_literals(rt.alloc(), 63)?;
    let grammar = read_grammar(rt.alloc(), more.as_slice())?;
    let fault = build(rt.alloc(), grammar).err();
    assert!(rt; matches!(fault, Some(BuildFault::TooManySets)));
    Ok(())
}

/// A file with as many names as a grammar may have.
fn most_names(alloc: Global) -> Result<Vec<u8>, AllocError> {
    let mut file = Vec::from_slice(alloc, b"%token")?;
    for n in 0..4_092 {
        let name = format!(in alloc; " t{n}")?;
        file.extend_from_slice(name.as_bytes())?;
    }
    file.extend_from_slice(b"%% s : ;")?;
    Ok(file)
}

// As many bars, as many names and as long a body as a grammar may have.
#[test]
fn the_largest_files(rt: HostRuntime) -> Result<(), Fail> {
    let alloc = rt.alloc();
    let bars = repeated(alloc, b"%% s :", b" |", 8_190, b"")?;
    let names = most_names(alloc)?;
    let body = repeated(alloc, b"%% s :", b" 'a'", 255, b"")?;
    let action = repeated(alloc, b"%% s :", b" 'a'", 253, b" { x } 'a'")?;
    let states = checked_each(alloc, &[&bars, &names, &body, &action])?;
    assert!(rt; states.as_slice() == [2, 2, 257, 257].as_slice());
    Ok(())
}
