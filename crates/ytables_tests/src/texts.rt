//! Precedences, symbols that can't be reached, and kept texts, written by hand.

use crate::marks::marks_of;
use std::alloc::Global;
use std::test::Fail;
use ygrammar::read_grammar;

#[test]
fn marks_of_grammars(rt: HostRuntime) -> Result<(), Fail> {
    let files: [(&[u8], &[u8]); 11] = [
        (
            b"%token NUM %left '+' %left '*' %% e : e '+' e | e '*' e | NUM ;",
            b"$end error- NUM '+'/l1 '*'/l2 $accept e \n0\n1/l1\n2/l2\n3\n",
        ),
        (
            b"%left 'x' %left HI %% s : e s | 'x' ; e : %prec HI ;",
            b"$end error- 'x'/l1 HI/l2- $accept s e \n0\n1\n2/l1\n3/l2\n",
        ),
        (
            b"%left A %token U A 300 %right B C %nonassoc D %% s : A B C | U D ;",
            b"$end error- A/l1 U B/r2 C/r2 D/n3 $accept s \n0\n1/r2\n2/n3\n",
        ),
        (
            b"%left A %token B %% s : A B | A B %prec A | B { x } A s ;",
            b"$end error- A/l1 B $accept s $$1 \n0\n1\n2/l1\n3 { x }\n4/l1\n",
        ),
        (
            b"%% s : 'x' ; t : 'y' ;",
            b"$end error- 'x' 'y'- $accept s t- \n0\n1\n2\n",
        ),
        (
            b"%start t %% s : 'a' ; t : u ; u : error ;",
            b"$end error 'a'- $accept s- t u \n0\n1\n2\n3\n",
        ),
        (
            b"%% s : 'a' { x } 'b' { y } ;",
            b"$end error- 'a' 'b' $accept $$1 s \n0\n1 { x }\n2 { y }\n",
        ),
        (
            b"%% s : { a } 'x' { b } t { c } ; t : { d } %prec 'x' { e } ;",
            b"$end error- 'x' $accept $$1 $$2 s $$3 t \n\
             0\n1 { a }\n2 { b }\n3 { c }\n4 { d }\n5 { e }\n",
        ),
        (
            b"%% s : { a } 'x' { b } t { c } ; t : { d } %prec 'x' ;",
            b"$end error- 'x' $accept $$1 $$2 s t \n0\n1 { a }\n2 { b }\n3 { c }\n4 { d }\n",
        ),
        (
            b"%% s : {\tx = \"}\"; /* } */\r\n // }\n y = '\\'';{}} ;",
            b"$end error- $accept s \n0\n1 {\tx = \"}\"; /* } */\r\n // }\n y = '\\'';{}}\n",
        ),
        (
            b"%union { u } %token A %union {} %%\n\
              s : { a } A | { \"}\" } {{}} %prec A {c} ;; t : | A {} ; %% { z }",
            b"$end error- A $accept $$1 s $$2 $$3 t- \n\
             0\n1 { a }\n2\n3 { \"}\" }\n4 {{}}\n5 {c}\n6\n7 {}\n",
        ),
    ];
    for (file, text) in files {
        assert_eq!(rt; marks_of(rt.alloc(), file)?.as_slice(), text);
    }
    Ok(())
}

/// Whether the last rule of a file has this kept text.
fn keeps(alloc: Global, file: &[u8], text: &[u8]) -> Result<bool, Fail> {
    let grammar = read_grammar(alloc, file)?;
    let rules = grammar.rules();
    Ok(rules > 0 && grammar.action_text(rules - 1) == Some(text))
}

#[test]
fn a_kept_text_has_every_byte(rt: HostRuntime) -> Result<(), Fail> {
    let alloc = rt.alloc();
    let mut text = Vec::from_slice(alloc, b"{")?;
    for byte in 0..=255_u8 {
        if !matches!(byte, b'{' | b'}' | b'"' | b'\'' | b'/') {
            text.push(byte)?;
        }
    }
    text.push(b'}')?;
    let mut file = Vec::from_slice(alloc, b"%union { v } %% s : 'x' | ")?;
    file.extend_from_slice(&text)?;
    file.extend_from_slice(b";")?;
    assert!(rt; keeps(alloc, &file, &text)?);
    Ok(())
}
