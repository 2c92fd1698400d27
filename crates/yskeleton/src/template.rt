//! Fixed texts in C of which some lines stand only under a condition.
//!
//! A line that begins with `@if` and a word begins such a part, `@else` begins the part for when
//! the condition doesn't hold, and `@end` ends it. Such parts nest. After `@`, the word of a
//! condition and a space a part stands that is the rest of its line.
//!
//! In texts in C++ a `$` stands for the name of the class, `^` for what the names of the kinds of
//! symbols begin with, and a backquote for what macros begin with.

use crate::style::Style;
use yfiles::output::Output;

impl Style<'_> {
    /// Writes a line, in C++ with the names that stand in it.
    fn put_line(&self, out: &mut Output, line: &str) {
        if !self.options.is_cxx() {
            return out.line(line);
        }
        for byte in line.as_bytes() {
            match *byte {
                b'$' => out.put_bytes(self.options.class.name.unwrap_or(b"parser")),
                b'^' => out.put_bytes(self.symbol_prefix()),
                b'`' => out.put_bytes(&self.macros),
                byte => out.put_bytes(&[byte]),
            }
        }
        out.put("\n");
    }

    /// Writes a text, of which each line has its newline, without the parts whose conditions don't
    /// hold.
    pub fn put_fixed(&self, out: &mut Output, text: &str) {
        let mut depth: usize = 0;
        // the outermost part that is left out, counted from 1; 0 where none is
        let mut hidden: usize = 0;
        for line in text.lines() {
            if let Some(word) = line.strip_prefix("@if ") {
                depth = depth.saturating_add(1);
                if hidden == 0 && !self.holds(word) {
                    hidden = depth;
                }
            } else if line == "@else" {
                if hidden == 0 {
                    hidden = depth;
                } else if hidden == depth {
                    hidden = 0;
                }
            } else if line == "@end" {
                if hidden == depth {
                    hidden = 0;
                }
                depth = depth.saturating_sub(1);
            } else if hidden == 0 {
                let own = line.strip_prefix("@").unwrap_or("");
                match own.split_once(' ') {
                    Some((word, rest)) if self.holds(word) => self.put_line(out, rest),
                    Some(_) => {}
                    None => self.put_line(out, line),
                }
            }
        }
    }
}
