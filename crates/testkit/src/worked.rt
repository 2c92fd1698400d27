//! Worked sessions: grammars, their tokens, and what all steps, trees and forms of them write.

/// One rule of one token.
pub const ONE: &[u8] = b"%% s : 'x' ;";

/// Lists of numbers, each with a semicolon after it; `error` stands for one that is spoiled.
pub const LIST: &[u8] = b"%token NUM %% list : | list NUM ';' | list error ';' ;";

/// Sums and products, by precedence.
pub const SUMS: &[u8] = b"%token NUM %left '+' %left '*' %% e : e '+' e | e '*' e | NUM ;";

/// The dangling `ELSE`.
pub const DANGLING: &[u8] = b"%token IF ELSE X %% s : IF s | IF s ELSE s | X ;";

/// An empty rule that is reduced before the only token, without end.
pub const ENDLESS: &[u8] = b"%left 'x' %left HI %% s : e s | 'x' ; e : %prec HI ;";

/// Texts of a session, and the lines of all its steps, its trees and its forms.
#[derive(Clone, Copy)]
pub struct Worked {
    /// The grammar.
    pub grammar: &'static [u8],
    /// The tokens.
    pub tokens: &'static [u8],
    /// What the steps, the trees and the forms write, in this order.
    pub text: &'static [u8],
}

/// One rule of one token.
pub const SHORT: Worked = Worked {
    grammar: ONE,
    tokens: b"'x'",
    text: b"1 shift 'x'\n2 reduce 1\n3 accept\n(1 'x'@1)\ns\n'x'\n",
};

/// A list of two numbers, of which the first is spoiled; so it has no forms.
pub const SPOILED: Worked = Worked {
    grammar: LIST,
    tokens: b"NUM NUM ';' NUM ';'",
    text: b"\
        1 reduce 1\n2 shift NUM\n3 detect\n4 pop NUM\n5 shift error\n6 discard NUM\n7 shift ';'\n\
        8 reduce 3\n9 shift NUM\n10 shift ';'\n11 reduce 2\n12 accept\n\
        (2 (3 (1) error ';'@3) NUM@4 ';'@5)\n",
};

/// A sum of a number and a product.
pub const SUM: Worked = Worked {
    grammar: SUMS,
    tokens: b"NUM '+' NUM '*' NUM",
    text: b"\
        1 shift NUM\n2 reduce 3\n3 shift '+'\n4 shift NUM\n5 reduce 3\n6 shift '*'\n7 shift NUM\n\
        8 reduce 3\n9 reduce 2\n10 reduce 1\n11 accept\n\
        (1 (3 NUM@1) '+'@2 (2 (3 NUM@3) '*'@4 (3 NUM@5)))\ne\ne '+' e\ne '+' e '*' e\n\
        e '+' e '*' NUM\ne '+' NUM '*' NUM\nNUM '+' NUM '*' NUM\n",
};

/// The first lines of a text, each with its newline; all of it where it has fewer.
pub fn first_lines(text: &[u8], lines: usize) -> &[u8] {
    let mut left = lines;
    for (index, byte) in text.iter().enumerate() {
        if left == 0 {
            return text.get(..index).unwrap_or(text);
        }
        if *byte == b'\n' {
            left -= 1;
        }
    }
    text
}

/// The part of a text after its first lines; empty where it has no more of them.
pub fn behind(text: &[u8], lines: usize) -> &[u8] {
    text.strip_prefix(first_lines(text, lines)).unwrap_or(b"")
}
