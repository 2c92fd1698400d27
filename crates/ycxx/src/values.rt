//! The fixed texts in C++ of values of several types, and what is written of these types.

use crate::cxx::Cxx;
use yfiles::output::Output;
use ysymbols::Sym;

/// The class of values, up to its room.
pub const VARIANT: &str = r##"
    /* A value of one of several types. Of which one it is its symbol knows. */
    class value_type
    {
    public:
      typedef value_type self_type;

      value_type () noexcept
@asserts         : yytype_ (YY_NULLPTR)
      {}

      value_type (const self_type &) = delete;
      self_type &operator= (const self_type &) = delete;

      /* What it had is gone before. */
      ~value_type () noexcept
      {
@asserts         YY_ASSERT (!yytype_);
      }

      /* Makes a value of a type; it has none before. */
      template <typename T, typename... U>
      T &emplace (U &&... yyparts)
      {
@asserts         YY_ASSERT (!yytype_ && sizeof (T) <= sizeof yyroom_);
        T &yymade = *new (yyroom_) T (std::forward<U> (yyparts)...);
@asserts         yytype_ = &typeid (T);
        return yymade;
      }

      template <typename T>
      T &build ()
      {
        return emplace<T> ();
      }

      template <typename T>
      T &build (const T &yyvalue)
      {
        return emplace<T> (yyvalue);
      }

      /* The value that it has. */
      template <typename T>
      T &as () noexcept
      {
@asserts         YY_ASSERT (yytype_ && *yytype_ == typeid (T));
        void *yyroom = yyroom_;
        return *static_cast<T *> (yyroom);
      }

      template <typename T>
      const T &as () const noexcept
      {
@asserts         YY_ASSERT (yytype_ && *yytype_ == typeid (T));
        const void *yyroom = yyroom_;
        return *static_cast<const T *> (yyroom);
      }

      template <typename T>
      void swap (self_type &yyother) noexcept
      {
        std::swap (as<T> (), yyother.template as<T> ());
      }

      /* Takes the value of another, which has none then. */
      template <typename T>
      void move (self_type &yyother)
      {
        emplace<T> (std::move (yyother.template as<T> ()));
        yyother.template destroy<T> ();
      }

      template <typename T>
      void move (self_type &&yyother)
      {
        move<T> (yyother);
      }

      template <typename T>
      void copy (const self_type &yyother)
      {
        emplace<T> (yyother.template as<T> ());
      }

      /* Ends the value that it has. */
      template <typename T>
      void destroy ()
      {
        as<T> ().~T ();
@asserts         yytype_ = YY_NULLPTR;
      }

    private:
"##;

/// The end of the class.
pub const VARIANT_END: &str = r##"
@asserts       const std::type_info *yytype_;
    };
"##;

/// What is done with values by the kinds of their symbols.
#[derive(Clone, Copy)]
struct Doing {
    /// The function up to its cases.
    front: &'static str,
    /// What stands before a type.
    before: &'static str,
    /// What stands after it.
    after: &'static str,
}

/// How a value is taken from another symbol.
const TAKING: Doing = Doing {
    front: r##"
    /* Takes a value from another symbol of this kind. */
    static void yytake_ (int yykind, value_type &yyto, value_type &yyfrom)
    {
      YY_USE (yyto);
      YY_USE (yyfrom);
"##,
    before: "yyto.move< ",
    after: " > (yyfrom)",
};

/// What the value of a nonterminal is before its action.
const MAKING: Doing = Doing {
    front: r##"
    /* Makes the value that a symbol of this kind begins with. */
    static void yymake_ (int yykind, value_type &yyto)
    {
      YY_USE (yyto);
"##,
    before: "yyto.emplace< ",
    after: " > ()",
};

/// How a value ends.
const ENDING: Doing = Doing {
    front: r##"
    /* Ends the value of a symbol of this kind. */
    static void yyend_ (int yykind, value_type &yyto)
    {
      YY_USE (yyto);
"##,
    before: "yyto.destroy< ",
    after: " > ()",
};

impl<'a> Cxx<'a> {
    /// The tag of a symbol, where no symbol before it has the same.
    pub fn new_tag(&self, symbol: Sym) -> Option<&'a [u8]> {
        let parts = self.skeleton.parts;
        let tag = parts.tag_of(symbol)?;
        for before in 0..symbol {
            if parts.tag_of(before) == Some(tag) {
                return None;
            }
        }
        Some(tag)
    }

    /// Writes the cases of the symbols with a tag.
    fn put_labels(&self, out: &mut Output, tag: &[u8]) {
        for symbol in 0..self.skeleton.grammar.symbols() {
            if self.skeleton.parts.tag_of(symbol) == Some(tag) {
                out.put("        case ");
                self.put_kind(out, symbol);
                out.put(":\n");
            }
        }
    }

    /// Writes what is done by the kinds of symbols, with what stands before and after their types.
    pub fn put_by_type(&self, out: &mut Output, kind: &str, before: &str, after: &str) {
        out.put_pieces(&[b"      switch (", kind.as_bytes(), b")\n        {\n"]);
        for symbol in 0..self.skeleton.grammar.symbols() {
            if let Some(tag) = self.new_tag(symbol) {
                self.put_labels(out, tag);
                out.put_pieces(&[b"          ", before.as_bytes(), tag, after.as_bytes()]);
                out.put(";\n          break;\n");
            }
        }
        out.put("        default:\n          break;\n        }\n");
    }

    /// Writes a function that does something with values by the kinds of their symbols.
    fn put_doing(&self, out: &mut Output, doing: Doing) {
        out.put(doing.front);
        self.put_by_type(out, "yykind", doing.before, doing.after);
        out.put("    }\n");
    }

    /// Writes what is done with values of several types.
    pub fn put_doings(&self, out: &mut Output) {
        self.put_doing(out, TAKING);
        self.put_doing(out, MAKING);
        self.put_doing(out, ENDING);
    }

    /// Writes the class of values of several types, with room for each of them.
    pub fn put_variant(&self, out: &mut Output) {
        self.put_text(out, VARIANT);
        let symbols = self.skeleton.grammar.symbols();
        out.put("      union yysizes\n      {\n        char yynone;\n");
        for symbol in 0..symbols {
            if let Some(tag) = self.new_tag(symbol) {
                out.put("        char yysize");
                out.number(symbol);
                out.put_pieces(&[b"[sizeof (", tag, b")];\n"]);
            }
        }
        out.put("      };\n");
        for symbol in 0..symbols {
            if let Some(tag) = self.new_tag(symbol) {
                out.put_pieces(&[b"      alignas (", tag, b")\n"]);
            }
        }
        out.put("      unsigned char yyroom_[sizeof (yysizes)];\n");
        self.put_text(out, VARIANT_END);
    }
}
