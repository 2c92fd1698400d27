//! A report on its way: a text, or a page for a browser on which numbers of states and rules are
//! links.

use std::alloc::Global;
use yexplain::reads::Made;
use yfiles::output::Output;

/// What stands before the report on a page, up to its title, and from there on.
const HEAD: &str = "<!DOCTYPE html>\n<html lang=\"en\">\n<head>\n<meta charset=\"utf-8\">\n<title>";

const STYLE: &str = "</title>\n<style>
pre { font-family: monospace; }
a { color: #1f00ff; text-decoration: none; }
a:hover, a:target { color: #c00000; }
</style>\n</head>\n<body>\n<pre>\n";

/// What stands after it.
const FOOT: &str = "</pre>\n</body>\n</html>\n";

/// What a number is that of, and whether it stands where it is told of; elsewhere it leads there.
#[derive(Clone, Copy, PartialEq, Eq)]
pub enum Mark {
    /// A state, where it is told of.
    State,
    /// A state, elsewhere.
    ToState,
    /// A rule, in the list of rules.
    Rule,
    /// A rule, elsewhere.
    ToRule,
}

/// A report on its way.
pub struct Sheet {
    out: Output,
    is_page: bool,
}

impl Drop for Sheet {
    // A call in each owner, which keeps their proofs short.
    fn drop(self) {
        let Sheet { out: _, is_page: _ } = self;
    }
}

impl Sheet {
    /// An empty report on a grammar file, as a text or as a page.
    pub fn new(alloc: Global, path: &str, is_page: bool) -> Sheet {
        let mut sheet = Sheet {
            out: Output::new(alloc),
            is_page,
        };
        if is_page {
            sheet.out.put(HEAD);
            sheet.put_bytes(path.as_bytes());
            sheet.out.put(STYLE);
        }
        sheet
    }

    /// Writes a text without signs of HTML.
    pub fn put(&mut self, text: &str) {
        self.out.put(text);
    }

    /// Writes bytes.
    pub fn put_bytes(&mut self, bytes: &[u8]) {
        if !self.is_page {
            self.out.put_bytes(bytes);
            return;
        }
        for byte in bytes {
            match *byte {
                b'<' => self.out.put("&lt;"),
                b'>' => self.out.put("&gt;"),
                b'&' => self.out.put("&amp;"),
                byte => self.out.put_bytes(&[byte]),
            }
        }
    }

    /// Writes a number.
    pub fn number(&mut self, number: usize) {
        self.out.number(number);
    }

    /// Writes spaces.
    pub fn spaces(&mut self, count: usize) {
        for _ in 0..count {
            self.out.put(" ");
        }
    }

    /// Writes a title, and an empty line after it.
    pub fn title(&mut self, title: &str) {
        self.out.put(if self.is_page { "<b>" } else { "" });
        self.out.put(title);
        self.out.put(if self.is_page { "</b>\n\n" } else { "\n\n" });
    }

    /// Writes a word and the number of a state or a rule.
    pub fn mark(&mut self, word: &str, mark: Mark, number: usize) {
        if self.is_page {
            let is_told = matches!(mark, Mark::State | Mark::Rule);
            let is_state = matches!(mark, Mark::State | Mark::ToState);
            self.out
                .put(if is_told { "<a id=\"" } else { "<a href=\"#" });
            self.out.put(if is_state { "state_" } else { "rule_" });
            self.out.number(number);
            self.out.put("\">");
        }
        self.out.put(word);
        self.out.number(number);
        if self.is_page {
            self.out.put("</a>");
        }
    }

    /// The whole report, where memory sufficed for it.
    pub fn into_bytes(mut self) -> Made<Vec<u8>> {
        if self.is_page {
            self.out.put(FOOT);
        }
        let Sheet { out, is_page: _ } = self;
        out.into_bytes()
    }
}
