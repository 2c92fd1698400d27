//! The texts of a parser in C++: that of the parser, of its header, and of its places.

use crate::class::{BEGIN, COPIED, ERRORS, KINDS, MEMBERS, PRIVATE, STACK, SYMBOLS};
use crate::cxx::Cxx;
use crate::front::{INCLUDES, WORDS};
use crate::places::{INCLUDED, LOCATION, POSITION};
use std::alloc::Global;
use yexplain::reads::Made;
use yfiles::output::Output;
use yparts::options::Values;
use yparts::parts::Target;
use yskeleton::{MEMBERS as TOKENS, type_of};

/// Writes what keeps a text from being included twice, for a path.
fn put_guard(out: &mut Output, names: &[u8], path: &str) {
    for front in ["#ifndef YY_", "#define YY_"] {
        out.put(front);
        for bytes in [names, b"_".as_slice(), path.as_bytes()] {
            for byte in bytes {
                let is_kept = byte.is_ascii_alphanumeric();
                out.put_bytes(&[if is_kept {
                    byte.to_ascii_uppercase()
                } else {
                    b'_'
                }]);
            }
        }
        out.put("_INCLUDED\n");
    }
}

impl Cxx<'_> {
    /// Writes the classes of places.
    fn put_places(&self, out: &mut Output) {
        let name = self.skeleton.style.options.class.file_name;
        out.put(POSITION);
        let name = name.unwrap_or(b"const std::string");
        out.put_pieces(&[b"    typedef ", name, b" filename_type;"]);
        self.put_text(out, LOCATION);
    }

    /// Writes the type of values. Where a file has tags and no union, the type is the user's.
    fn put_values(&self, out: &mut Output) {
        let skeleton = &self.skeleton;
        let mut has_union = false;
        for block in &skeleton.parts.blocks {
            has_union = has_union || block.target == Target::Union;
        }
        match skeleton.style.options.values {
            Values::Variant => self.put_variant(out),
            Values::Named(name) => out.put_pieces(&[b"    typedef ", name, b" value_type;\n"]),
            Values::Symbols => skeleton.put_union(out),
            Values::Declared if has_union => skeleton.put_union(out),
            Values::Declared if skeleton.style.has_tags => {}
            Values::Declared => out.put("    typedef int value_type;\n"),
        }
        out.put("#endif\n    typedef value_type semantic_type;\n");
        if skeleton.style.locations {
            let name = skeleton.style.options.location_type.unwrap_or(b"location");
            out.put_pieces(&[b"    typedef ", name, b" location_type;\n"]);
        }
    }

    /// Writes the types of tokens and symbols.
    fn put_types(&self, out: &mut Output) {
        let is_variant = self.skeleton.style.options.values == Values::Variant;
        self.put_text(out, ERRORS);
        self.skeleton.put_all_tokens(out, TOKENS);
        self.put_text(out, KINDS);
        self.put_kinds(out);
        self.put_text(out, SYMBOLS);
        if is_variant {
            self.put_by_type(
                out,
                "this->kind ()",
                "value.template copy< ",
                " > (yyother.value)",
            );
        }
        self.put_text(out, COPIED);
        if is_variant {
            self.put_constructors(out);
        }
        out.put("    };\n");
    }

    /// Writes the class.
    fn put_class(&self, out: &mut Output) {
        let options = &self.skeleton.style.options;
        let is_variant = options.values == Values::Variant;
        self.put_text(out, BEGIN);
        self.put_values(out);
        self.put_types(out);
        out.put_pieces(&[b"\n    ", self.class(), b" ("]);
        self.put_taken(out);
        out.put(");\n");
        self.put_text(out, MEMBERS);
        if is_variant {
            self.put_makers(out);
        }
        self.put_text(out, PRIVATE);
        if is_variant {
            self.put_doings(out);
        }
        if is_variant && options.class.asserts {
            self.put_type_numbers(out);
        }
        let kind = type_of(self.skeleton.code.states).as_bytes();
        out.put_pieces(&[b"\n    typedef ", kind, b" state_type;\n"]);
        self.put_text(out, STACK);
        self.put_members(out);
        out.put("  };\n");
    }

    /// Writes what the parser declares: in its header, where it has one.
    pub fn put_declarations(&self, out: &mut Output) {
        let (skeleton, style) = (&self.skeleton, self.skeleton.style);
        skeleton.put_all(out, Target::Requires);
        self.put_text(out, INCLUDES);
        if let Some(places) = self.places {
            out.put_pieces(&[b"#include ", places.as_bytes(), b"\n"]);
        }
        self.put_text(out, WORDS);
        skeleton.put_macros(out, "\n#ifndef @DEBUG\n# define @DEBUG ");
        out.put(if style.wishes.debug {
            "1\n#endif\n"
        } else {
            "0\n#endif\n"
        });
        self.open(out);
        if style.locations && style.options.location_type.is_none() && self.places.is_none() {
            self.put_places(out);
        }
        self.put_class(out);
        self.close(out);
        skeleton.put_all(out, Target::Provides);
    }

    /// The text of the header.
    pub fn header(&self, alloc: Global) -> Made<Vec<u8>> {
        let mut out = Output::new(alloc);
        out.put("/* What a parser in C++ that ycc made declares. */\n");
        put_guard(&mut out, &self.skeleton.style.names, self.skeleton.own_path);
        self.put_declarations(&mut out);
        out.put("\n#endif\n");
        out.into_bytes()
    }

    /// The text of the file of places.
    pub fn places(&self, alloc: Global, path: &str) -> Made<Vec<u8>> {
        let mut out = Output::new(alloc);
        out.put("/* The places of a parser in C++ that ycc made. */\n");
        put_guard(&mut out, &self.skeleton.style.names, path);
        out.put(INCLUDED);
        self.open(&mut out);
        self.put_places(&mut out);
        self.close(&mut out);
        out.put("\n#endif\n");
        out.into_bytes()
    }
}
