//! A parser in C++, and how its fixed texts are written.

use yfiles::output::Output;
use yskeleton::Skeleton;
use ysymbols::Sym;

/// A parser in C++.
#[derive(Clone, Copy)]
pub struct Cxx<'a> {
    /// What its texts are made of.
    pub skeleton: Skeleton<'a>,
    /// What its header is included as, where it has one.
    pub header: Option<&'a str>,
    /// What the file of its places is included as, where it has one.
    pub places: Option<&'a str>,
}

impl<'a> Cxx<'a> {
    /// A parser with what its header and the file of its places are included as, where it has them.
    pub fn new(
        skeleton: Skeleton<'a>,
        header: Option<&'a str>,
        places: Option<&'a str>,
    ) -> Cxx<'a> {
        Cxx {
            skeleton,
            header,
            places,
        }
    }

    /// The name of the class.
    pub fn class(&self) -> &'a [u8] {
        self.skeleton.style.options.class.name.unwrap_or(b"parser")
    }

    /// Writes a fixed text without the parts whose conditions don't hold.
    pub fn put_text(&self, out: &mut Output, text: &str) {
        self.skeleton.style.put_fixed(out, text);
    }

    /// The parts of the namespace, from the outermost.
    fn namespace(&self) -> &[u8] {
        let style = self.skeleton.style;
        match style.options.class.namespace {
            Some(namespace) => namespace.strip_prefix(b"::").unwrap_or(namespace),
            None => style.names.as_slice(),
        }
    }

    /// Opens the namespace.
    pub fn open(&self, out: &mut Output) {
        out.put("\n");
        for part in self.namespace().split(|b| *b == b':') {
            if !part.is_empty() {
                out.put_pieces(&[b"namespace ", part.trim_ascii(), b"\n{\n"]);
            }
        }
    }

    /// Closes it.
    pub fn close(&self, out: &mut Output) {
        for part in self.namespace().split(|b| *b == b':') {
            if !part.is_empty() {
                out.put("}\n");
            }
        }
    }

    /// Writes the kind of a symbol by its name.
    pub fn put_kind(&self, out: &mut Output, symbol: Sym) {
        out.put("symbol_kind::");
        self.skeleton.put_kind(out, symbol);
    }
}
