//! The header in C.

use crate::sheet::Sheet;
use yexplain::text::RuleText;
use yfiles::output::Output;

/// The first line.
const ABOUT: &str = "/* Names for the numbers of a table of yacc: ydebug rules made them. */";

/// Writes the tokens as members of an enum, by the numbers that a lexer gives.
fn put_tokens(out: &mut Output, sheet: Sheet<'_>) {
    if sheet.tokens.is_empty() {
        return;
    }
    out.line("\n/* The numbers that a lexer gives. */\nenum {");
    for (index, token) in sheet.tokens.iter().enumerate() {
        let is_last = index.saturating_add(1) == sheet.tokens.len();
        out.put("  TOKEN_");
        out.put_characters(token.name);
        out.put(" = ");
        out.signed(i64::from(token.number));
        out.line(if is_last { "" } else { "," });
    }
    out.line("};");
}

/// Writes the header. Its guard has the digest, so those of two grammars can stand together.
pub fn put_header(out: &mut Output, sheet: Sheet<'_>) {
    out.line(ABOUT);
    for front in ["#ifndef YD_RULES_", "#define YD_RULES_"] {
        out.put(front);
        out.hex(sheet.digest);
        out.line("");
    }
    out.line("\n/* The digest of the table, for yd_read_checked. */");
    out.put("#define TABLE_DIGEST 0x");
    out.hex(sheet.digest);
    out.line("UL\n\nenum {");
    let rules = sheet.grammar.rules();
    for rule in 1..rules {
        let is_last = rule.saturating_add(1) == rules;
        out.put("  ");
        out.put_characters(sheet.names.name(rule));
        out.put(" = ");
        out.number(rule);
        out.put(if is_last { " /* " } else { ", /* " });
        out.show(RuleText(sheet.grammar, rule));
        out.line(" */");
    }
    out.line("};");
    put_tokens(out, sheet);
    out.line("\n#endif");
}
