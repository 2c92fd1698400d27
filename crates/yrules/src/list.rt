//! The list for people.

use crate::sheet::Sheet;
use std::alloc::Global;
use std::io::{self, Write};
use yexplain::text::RuleText;
use yfiles::output::Output;

/// Writes the number, the name, the text and the line of a rule.
fn put_rule(out: &mut Output, sheet: Sheet<'_>, rule: usize) {
    out.number_to(7, rule);
    out.put("  ");
    out.put_characters(sheet.names.name(rule));
    out.tab(34);
    out.show(RuleText(sheet.grammar, rule));
    if let Some(line) = sheet.lines.rule(rule) {
        out.tab(74);
        out.put("line ");
        out.number(line);
    }
    out.line("");
}

/// Writes every rule, and the digest of the table.
pub fn put_list<W: Write>(
    alloc: Global,
    device: &mut W,
    path: &str,
    sheet: Sheet<'_>,
) -> io::Result<()> {
    let mut out = Output::new(alloc);
    let rules = sheet.grammar.rules();
    out.put(path);
    out.put(": ");
    out.number(rules.saturating_sub(1));
    out.put(if rules == 2 { " rule" } else { " rules" });
    out.put(", a table with the digest ");
    out.hex(sheet.digest);
    out.line("");
    for rule in 1..rules {
        put_rule(&mut out, sheet, rule);
        out.hand_on(device);
    }
    out.finish(device)
}
