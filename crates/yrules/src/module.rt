//! The module in Python.

use crate::sheet::Sheet;
use yexplain::text::RuleText;
use yfiles::output::Output;

/// The first line.
const ABOUT: &str = "\"\"\"Names for the numbers of a table of yacc: ydebug rules made them.\"\"\"";

/// Writes the module: the rules, and the tokens by the numbers that a lexer gives.
pub fn put_module(out: &mut Output, sheet: Sheet<'_>) {
    out.line(ABOUT);
    out.line("\n# The digest of the table, for read_table.");
    out.put("TABLE_DIGEST = 0x");
    out.hex(sheet.digest);
    out.line("\n");
    for rule in 1..sheet.grammar.rules() {
        out.put_characters(sheet.names.name(rule));
        out.put(" = ");
        out.number(rule);
        out.put("  # ");
        out.show(RuleText(sheet.grammar, rule));
        out.line("");
    }
    if !sheet.tokens.is_empty() {
        out.line("\n# The numbers that a lexer gives.");
    }
    for token in sheet.tokens {
        out.put("TOKEN_");
        out.put_characters(token.name);
        out.put(" = ");
        out.signed(i64::from(token.number));
        out.line("");
    }
}
