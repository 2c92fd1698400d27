//! Links from the symbols with which bodies can begin, where some symbols may be passed over.

ghost use Rattle.std.specs.Prelude.{◌≡◌, ◌<◌, length, All, IfOk, OnOk};
ghost use Rattle.ylalr.specs.Fronts.{AddsFront, AreFrontLinks};

use std::alloc::{AllocError, Global};
use ybitsets::links::Links;
use ybitsets::marks::Marks;
use ysymbols::{Grammar, Sym};

/// Links to `to` from each symbol of a form, up to the first one that isn't marked. It fails only
/// when memory runs out.
pub fn link_front(
    links: &mut Links,
    form: &[Sym],
    passed: &Marks,
    to: usize,
) -> Result<(), AllocError>
    requires form { All (λ s. s < length links.old) form.now }
    requires marks { length passed.now ≡ length links.old }
    ensures sized { OnOk result (length links.new ≡ length links.old) }
    ensures adds { OnOk result (AddsFront passed.now form.now to links.old links.new) }
{
    for s in form {
        links.push(*s, to)?;
        if !passed.has(*s) {
            return Ok(());
        }
    }
    Ok(())
}

/// Links to the left side of each rule from each symbol of its body, up to the first one that
/// isn't marked. It fails only when memory runs out.
pub fn front_links(alloc: Global, grammar: &Grammar, passed: &Marks) -> Result<Links, AllocError>
    requires { length passed.now ≡ grammar.now.bare.symbols }
    ensures { IfOk result (λ l.
        AreFrontLinks grammar.now.bare passed.now (length grammar.now.bare.rules) l) }
{
    let mut links = Links::new(alloc, grammar.symbols())?;
    for r in 0..grammar.rules() {
        let rule = grammar.rule(r);
        link_front(&mut links, rule.body(), passed, rule.left())?;
    }
    Ok(links)
}
