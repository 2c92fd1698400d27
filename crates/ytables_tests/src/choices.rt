//! Grammars with and without cells that have a choice, and one with the greatest number of
//! conflicts.

use crate::made::tables_of;
use std::alloc::Global;
use std::test::Fail;
use testkit::texts::repeated;
use testkit::worked::{DANGLING, ENDLESS, LIST, ONE, SUMS};
use ytables::Counts;

/// Whether no cell has a choice.
fn choice_free(alloc: Global, grammar: &[u8]) -> Result<bool, Fail> {
    Ok(tables_of(alloc, grammar)?.choice_free())
}

#[test]
fn no_choices(rt: HostRuntime) -> Result<(), Fail> {
    let grammars: [&[u8]; 7] = [
        ONE,
        LIST,
        b"%% s : ;",
        b"%% s : 'a' { x } 'b' { y } ;",
        b"%% s : p q 'x' ; p : 'y' ; q : ;",
        b"%% s : 'p' a 'q' ; a : 'r' b ; b : 't' c ; c : 'y' ;",
        b"%token ID %% s : l '=' r | r ; l : '*' r | ID ; r : l ;",
    ];
    for grammar in grammars {
        assert!(rt; choice_free(rt.alloc(), grammar)?);
    }
    Ok(())
}

// A choice that precedences settle is a choice too.
#[test]
fn choices(rt: HostRuntime) -> Result<(), Fail> {
    let grammars: [&[u8]; 10] = [
        DANGLING,
        ENDLESS,
        SUMS,
        b"%% s : 'a' p 'd' | 'b' q 'd' | 'a' q 'e' | 'b' p 'e' ; p : 'c' ; q : 'c' ;",
        b"%% s : s | 'x' ;",
        b"%token NUM %nonassoc '<' %% e : e '<' e | NUM ;",
        b"%% s : p '+' | q '+' | 'n' '+' ; p : 'n' ; q : 'n' ;",
        b"%left '+' %left HI %% s : p '+' | q '+' | 'n' '+' ; p : 'n' %prec HI ; q : 'n' ;",
        b"%left L %left '+' %left H %% s: p '+' | q '+' | 'n' '+'; p: 'n' %prec H; q: 'n' %prec L;",
        b"%nonassoc '+' %% s : p '+' | q '+' | 'n' '+' ; p : 'n' %prec '+' ; q : 'n' ;",
    ];
    for grammar in grammars {
        assert!(rt; !choice_free(rt.alloc(), grammar)?);
    }
    Ok(())
}

#[test]
fn as_many_empty_rules_as_there_may_be(rt: HostRuntime) -> Result<(), Fail> {
    let most = repeated(rt.alloc(), b"%% s :", b"|", 8190, b"")?;
    let wanted = Counts {
        shift_reduce: 0,
        reduce_reduce: 8190,
    };
    let conflicts = tables_of(rt.alloc(), &most)?.conflicts();
    assert_eq!(rt; conflicts, wanted);
    Ok(())
}
