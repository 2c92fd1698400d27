//! The tables of a parser in C, and how they are read.

use crate::arrays::{IN_A_LINE, put_array, type_of};
use crate::declared::is_c_name;
use crate::skeleton::Skeleton;
use crate::strings::{Escaped, put_string};
use std::alloc::Global;
use yexplain::lines::is_inner;
use yexplain::reads::{Made, body_of, left_of, name_of, set};
use yfiles::output::Output;
use yinput::spelled::usual_call;
use ylalr::{END, ERROR, token_count};
use yparts::options::Errors;
use ysymbols::Sym;

/// How the arrays are read beside the numbers of cells, as the definitions of `ycode` have it:
/// whether a state makes its usual reduction at a token, and the state after a reduction.
pub const READING: &str = r##"
/* Whether a state that has no number of its own for a token makes its usual reduction. */
#define YYMEMBER(state, token) \
  ((yybits[yyset[state] * YYSETSIZE + ((token) >> 3)] >> ((token) & 7)) & 1)
/* The state that comes after a state and a nonterminal. `n` is no part of these. */
#define YYGOTO(n, state, left) \
  ((n) = yygrow[left] + (state), \
   (n) = yygcheck[n] == (state) ? yygvalue[n] : yytarget[left])
"##;

/// Writes what may stand in a name of C, with `_` before it for all that goes before it and may not,
/// and at the end for such.
fn put_signs(out: &mut Output, text: &[u8]) {
    let mut is_open = true;
    for byte in text {
        let is_sign = byte.is_ascii_alphanumeric() || *byte == b'_';
        if is_sign && is_open {
            out.put("_");
        }
        if is_sign {
            out.put_bytes(&[*byte]);
        }
        is_open = !is_sign;
    }
    if is_open {
        out.put("_");
    }
}

/// What bison calls an end that a file doesn't name.
const END_LABEL: &[u8] = b"\"end of file\"";
/// What bison calls a token with the name of what is no token, where the file has no string for it.
const UNDEFINED_LABEL: &[u8] = b"\"invalid token\"";
/// That name.
const UNDEFINED: &[u8] = b"YYUNDEF";

/// Whether an array of names has them as in the file, or without quotes.
#[derive(Clone, Copy, PartialEq, Eq)]
pub enum Spelled {
    /// As in the file.
    Quoted,
    /// Without quotes.
    Plain,
    /// Without quotes, as people call it.
    Called,
}

/// Writes that the name of a kind of symbols is translated.
fn put_translated(out: &mut Output, kind: usize) {
    out.put("  if (YY_CAST (int, yysymbol) == ");
    out.number(kind);
    out.put(")\n    return _(yysymbols[");
    out.number(kind);
    out.put("]);\n");
}

impl Skeleton<'_> {
    /// Writes what a symbol is called as an item of an array: by the string that a file has for it,
    /// or what stands there between `_(` and `)`; bison has one for the end too.
    fn put_item(&self, out: &mut Output, symbol: Sym, spelled: Spelled) {
        let is_undefined = name_of(self.grammar, symbol) == UNDEFINED && self.style.is_bison();
        let looks = self.parts.looks_of(symbol);
        let label = match looks.label {
            Some([b'_', b'(', text @ .., b')']) => Some(text.trim_ascii()),
            None if spelled == Spelled::Called => usual_call(self.grammar, symbol),
            None if symbol == 0 && self.style.is_bison() => self.own_end().or(Some(END_LABEL)),
            None if is_undefined => looks.label.or(Some(UNDEFINED_LABEL)),
            label => label,
        };
        out.put("  \"");
        match (label, spelled) {
            (Some([b'"', inner @ .., b'"']), Spelled::Plain | Spelled::Called) => {
                put_string(out, inner, Escaped::Trigraphs);
            }
            (Some(label), _) => put_string(out, label, Escaped::Quotes),
            (None, _) => {
                let mut name = name_of(self.grammar, symbol);
                if let (true, Some(number)) = (self.style.is_bison(), name.strip_prefix(b"$$")) {
                    out.put(if self.has_inner_value(symbol) {
                        "@"
                    } else {
                        "$@"
                    });
                    name = number;
                }
                put_string(out, name, Escaped::Quotes);
            }
        }
        out.put("\",\n");
    }

    /// What bison calls an end for which the file has no string, where its number is given there:
    /// its first name.
    pub fn own_end(&self) -> Option<&[u8]> {
        for given in &self.parts.numbers {
            if given.token == 0 {
                let end = self.parts.ends.first().copied();
                return end.or(Some(b"$end"));
            }
        }
        None
    }

    /// Writes the array of what symbols are called: tokens, what is no token, and nonterminals.
    pub fn put_symbols(&self, out: &mut Output, name: &str, spelled: Spelled) {
        let tokens = token_count(self.grammar);
        out.put_pieces(&[b"static const char *const ", name.as_bytes(), b"[] = {\n"]);
        for symbol in 0..tokens {
            self.put_item(out, symbol, spelled);
        }
        out.put(match spelled {
            Spelled::Quoted => "  \"\\\"invalid token\\\"\",\n",
            Spelled::Plain | Spelled::Called => "  \"invalid token\",\n",
        });
        for symbol in tokens..self.grammar.symbols() {
            self.put_item(out, symbol, spelled);
        }
        out.put("  YY_NULLPTR\n};\n");
    }

    /// Writes the array of what tokens are called by their numbers, as byacc has it.
    fn put_numbered(&self, out: &mut Output) {
        out.put("static const char *const yyname[] = {\n");
        let mut nulls: usize = 0;
        for token in &self.numbering.array {
            if *token < self.code.tokens {
                if nulls % IN_A_LINE != 0 {
                    out.put("\n");
                }
                nulls = 0;
                self.put_item(out, *token, Spelled::Quoted);
            } else {
                nulls = nulls.saturating_add(1);
                let is_last = nulls % IN_A_LINE == 0;
                out.put(if is_last {
                    " YY_NULLPTR,\n"
                } else {
                    " YY_NULLPTR,"
                });
            }
        }
        out.put("  \"illegal-symbol\"\n};\n");
    }

    /// Writes the names of rules.
    fn put_rules(&self, out: &mut Output) {
        let grammar = self.grammar;
        out.put("static const char *const yyrule[] = {\n");
        for rule in 0..grammar.rules() {
            out.put("  \"");
            if let Some(left) = left_of(grammar, rule) {
                put_string(out, name_of(grammar, left), Escaped::Quotes);
            }
            out.put(" :");
            for symbol in body_of(grammar, rule) {
                out.put(" ");
                put_string(out, name_of(grammar, *symbol), Escaped::Quotes);
            }
            out.put("\",\n");
        }
        out.put("  YY_NULLPTR\n};\n");
    }

    /// Writes the names of tokens and rules, for the trace and for texts of errors.
    fn put_names(&self, out: &mut Output) {
        let style = self.style;
        let has_plain = matches!(style.errors(), Errors::Detailed | Errors::Custom);
        let is_needed = style.options.has_names || style.errors() == Errors::Verbose;
        let front = match is_needed {
            true => "\n#if YYDEBUG || 1\n",
            false => "\n#if YYDEBUG\n",
        };
        if !style.is_bison() {
            out.put(front);
            self.put_numbered(out);
            out.put("# define yytname yyname\n");
            out.put(BYACC_NAME);
            out.put("#endif\n#if YYDEBUG\n");
            self.put_rules(out);
            out.put("#endif\n");
        } else if is_needed || !has_plain {
            out.put(front);
            self.put_symbols(out, "yytname", Spelled::Quoted);
            out.put("#endif\n");
        }
        if style.wishes.speaks {
            self.put_symbols(out, "yycalled", Spelled::Called);
        }
        if has_plain {
            self.put_symbols(out, "yysymbols", Spelled::Plain);
            out.put(SYMBOL_NAME);
            self.put_symbol_name(out);
        }
    }

    /// Writes the end of the function that names symbols.
    pub fn put_symbol_name(&self, out: &mut Output) {
        let mut any = false;
        for symbol in 0..self.grammar.symbols() {
            let label = self.parts.looks_of(symbol).label.unwrap_or(b"");
            if label.starts_with(b"_(") {
                any = true;
                put_translated(out, self.kind_of(symbol));
            }
        }
        if any {
            put_translated(out, self.code.tokens);
        }
        out.put("  return yysymbols[yysymbol];\n}\n");
    }

    /// Writes what the kind of a symbol is called: by its name, or, where it has none in C, by its
    /// number and what of its text may stand in a name, as bison calls it. So is a token that has
    /// the name of the kind of what is no token.
    pub fn put_kind(&self, out: &mut Output, symbol: Sym) {
        let (prefix, looks) = (self.style.symbol_prefix(), self.parts.looks_of(symbol));
        let name: &[u8] = match symbol {
            END => b"YYEOF",
            ERROR => b"YYerror",
            _ if symbol == token_count(self.grammar) => b"YYACCEPT",
            _ if looks.is_made => looks.label.unwrap_or(b""),
            _ => name_of(self.grammar, symbol),
        };
        if is_c_name(name) && name != UNDEFINED {
            out.put_pieces(&[prefix, name]);
            return;
        }
        let front: &[u8] = if prefix.is_empty() { b"_" } else { prefix };
        out.put_bytes(front);
        out.number(self.kind_of(symbol));
        put_signs(out, name);
    }

    /// Writes the members of the enum of kinds, each by its name and number.
    pub fn put_members(&self, out: &mut Output, margin: &str) {
        let (margin, prefix) = (margin.as_bytes(), self.style.symbol_prefix());
        out.put_pieces(&[margin, prefix, b"YYEMPTY = -2,\n"]);
        for symbol in 0..self.grammar.symbols() {
            out.put_bytes(margin);
            self.put_kind(out, symbol);
            out.put(" = ");
            out.number(self.kind_of(symbol));
            out.put(",\n");
        }
        out.put_pieces(&[margin, prefix, b"YYUNDEF = "]);
        out.number(self.code.tokens);
    }

    /// Writes how many there are of what.
    fn put_counts(&self, out: &mut Output) {
        let code = self.code;
        out.put("\n");
        let counts: [(&[u8], usize); 7] = [
            (b"YYNSTATES", code.states),
            (b"YYNRULES", code.rules),
            (b"YYNTOKENS", code.tokens),
            (
                b"YYNNTS",
                self.grammar.symbols().saturating_sub(code.tokens),
            ),
            (b"YYMAXTOKEN", self.numbering.array.len().saturating_sub(1)),
            (b"YYERRTOKEN", ERROR),
            (b"YYSETSIZE", code.span),
        ];
        for (name, count) in counts {
            out.put_pieces(&[b"#define ", name, b" "]);
            out.number(count);
            out.put("\n");
        }
        let kind = type_of(code.states).as_bytes();
        out.put_pieces(&[b"typedef ", kind, b" yystate_number;\n\n"]);
    }

    /// Writes the kind of the symbol that leads to each state, where it is asked for; to the one
    /// after all of them leads the end.
    fn put_leading(&self, alloc: Global, out: &mut Output) -> Made<()> {
        let style = self.style;
        let is_traced = !style.destroys;
        if style.options.is_cxx() || (is_traced && !style.holds("shows")) {
            return Ok(());
        }
        let symbols = self.code.symbols.as_slice();
        let mut kinds = Vec::new(alloc);
        for symbol in symbols {
            kinds.push(self.kind_of(*symbol))?;
        }
        kinds.push(END)?;
        out.put(if is_traced { "#if YYDEBUG\n" } else { "" });
        put_array(out, "yystos", &kinds, self.grammar.symbols());
        out.put(if is_traced { "#endif\n" } else { "" });
        Ok(())
    }

    /// Writes the tables of a parser, with these rules that bison would reduce by default, where
    /// its lists are wanted, and but for C++ with the names. Numbers of tokens are translated by
    /// the array of the code, unless the file has numbers that the grammar can't have.
    pub fn put_tables(&self, alloc: Global, out: &mut Output, defaults: &[usize]) -> Made<()> {
        let (code, numbering) = (self.code, self.numbering);
        self.put_counts(out);
        if self.style.is_raw() {
            // the number of a token is that of its symbol
        } else if numbering.is_changed {
            put_array(out, "yytranslate", &numbering.array, code.tokens);
            numbering.put_above(alloc, out, code.tokens)?;
        } else {
            let (numbers, greatest) = (code.numbers.as_slice(), code.numbers.greatest());
            put_array(out, "yytranslate", numbers, greatest);
        }
        for (name, numbers) in [
            ("yylhs", &code.lefts),
            ("yylen", &code.lengths),
            ("yyusual", &code.usual),
            ("yyset", &code.sets),
            ("yybits", &code.bits),
            ("yyrow", &code.actions.rows),
            ("yycheck", &code.actions.checks),
            ("yyvalue", &code.actions.values),
            ("yytarget", &code.targets),
            ("yygrow", &code.gotos.rows),
            ("yygcheck", &code.gotos.checks),
            ("yygvalue", &code.gotos.values),
        ] {
            put_array(out, name, numbers.as_slice(), numbers.greatest());
        }
        self.put_leading(alloc, out)?;
        self.put_listed(out, defaults);
        if !self.style.options.is_cxx() {
            self.put_names(out);
        }
        Ok(())
    }

    /// Writes the order of tokens in lists, where it isn't that of their symbols, and these rules
    /// that bison would reduce by default, where its lists are wanted.
    fn put_listed(&self, out: &mut Output, defaults: &[usize]) {
        let (style, tokens) = (self.style, self.code.tokens);
        if style.is_bison() && style.asks() && self.numbering.is_reordered {
            let order = self.numbering.order.get(..tokens).unwrap_or(&[]);
            put_array(out, "yylisted", order, tokens);
            out.put("#define YYLISTED(n) yylisted[n]\n");
        }
        if style.lists() {
            put_array(out, "yydefault", defaults, self.code.rules);
        }
    }

    /// Writes what a trace shows of rules and states as bison has it: the line that each rule
    /// begins on, its number, and the numbers of states, of which the last is that of the one in
    /// which the end is shifted.
    pub fn put_shown(&self, alloc: Global, out: &mut Output) -> Made<()> {
        let (grammar, parts) = (self.grammar, self.parts);
        let mut lines = Vec::new(alloc);
        let (mut body, mut greatest) = (0usize, 0usize);
        for rule in 0..grammar.rules() {
            let line = parts.lines.get(body).copied().unwrap_or(0);
            greatest = greatest.max(line);
            lines.push(line)?;
            if rule > 0 && !is_inner(grammar, rule) {
                body = body.saturating_add(1);
            }
        }
        for action in &parts.actions {
            if is_inner(grammar, action.rule) {
                greatest = greatest.max(action.piece.line);
                set(&mut lines, action.rule, action.piece.line);
            }
        }
        self.put_macros(out, "#if @DEBUG\n");
        put_array(out, "yyrline", &lines, greatest);
        put_array(out, "yyruleno", &self.numbering.rules, grammar.rules());
        put_array(out, "yystateno", self.states, self.code.states);
        out.put("#endif\n");
        Ok(())
    }
}

/// What a token is called by its number.
const BYACC_NAME: &str = r##"# define YYNAME(c) \
  yyname[YY_CAST (unsigned, c) <= YYMAXTOKEN && yyname[c] ? (c) : YYMAXTOKEN + 1]
"##;

/// How the function begins that names symbols.
const SYMBOL_NAME: &str = r##"
static const char *
yysymbol_name (yysymbol_kind_t yysymbol)
{
"##;
