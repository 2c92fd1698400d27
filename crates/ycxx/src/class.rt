//! The fixed texts in C++ of the class of a parser.

/// What the class begins with, up to the type of values.
pub const BEGIN: &str = r##"
  /* The parser. */
  class $
  {
  public:
#ifdef `STYPE
    typedef `STYPE value_type;
#else
"##;

/// What follows the types of values and places, up to the numbers of tokens.
pub const ERRORS: &str = r##"
    /* What a lexer or an action throws in place of a token or a value: an error of syntax. */
    struct syntax_error : std::runtime_error
    {
@if locations
      syntax_error (const location_type &yyplace, const std::string &yymessage)
        : std::runtime_error (yymessage), location (yyplace)
      {}
@else
      syntax_error (const std::string &yymessage)
        : std::runtime_error (yymessage)
      {}
@end
      syntax_error (const syntax_error &) = default;
      ~syntax_error () noexcept;
@locations       location_type location;
    };

    /* What the lexer calls tokens. */
    struct token
    {
      enum token_kind_type
      {"##;

/// What stands between the numbers of tokens and the kinds of symbols.
pub const KINDS: &str = r##"
      };
      typedef token_kind_type yytokentype;
    };
    typedef token::token_kind_type token_kind_type;
    typedef token_kind_type token_type;

    /* What the parser calls tokens and nonterminals. */
    struct symbol_kind
    {
      enum symbol_kind_type
      {
"##;

/// What follows the kinds of symbols, up to what is done with values by their types.
pub const SYMBOLS: &str = r##"
      };
    };
    typedef symbol_kind::symbol_kind_type symbol_kind_type;

    /* How many kinds of tokens there are. */
    static const symbol_kind_type YYNTOKENS = symbol_kind::YYNTOKENS;

    /* The kind of a symbol. */
    struct by_kind
    {
      typedef token_kind_type kind_type;

      by_kind () noexcept
        : kind_ (symbol_kind::^YYEMPTY)
      {}

      by_kind (by_kind &&yyother) noexcept
        : kind_ (yyother.kind_)
      {
        yyother.clear ();
      }

      by_kind (const by_kind &yyother) noexcept
        : kind_ (yyother.kind_)
      {}

      by_kind (kind_type yynumber) noexcept
        : kind_ (yytranslate_ (yynumber))
      {}

      void clear () noexcept
      {
        kind_ = symbol_kind::^YYEMPTY;
      }

      void move (by_kind &yyother)
      {
        kind_ = yyother.kind_;
        yyother.clear ();
      }

      symbol_kind_type kind () const noexcept
      {
        return kind_;
      }

      symbol_kind_type type_get () const noexcept
      {
        return kind_;
      }

      symbol_kind_type kind_;
    };
    typedef by_kind by_type;

    /* A symbol: its kind, its value, and its place. */
    template <typename Base>
    struct basic_symbol : Base
    {
      typedef Base super_type;

      basic_symbol () noexcept
        : value ()
@locations         , location ()
      {}

      basic_symbol (basic_symbol &&yyother)
        : Base (std::move (yyother))
@if variant
        , value ()
@else
        , value (std::move (yyother.value))
@end
@locations         , location (std::move (yyother.location))
      {
@variant         yytake_ (this->kind (), value, yyother.value);
      }

      basic_symbol (const basic_symbol &yyother)
        : Base (yyother)
@if variant
        , value ()
@else
        , value (yyother.value)
@end
@locations         , location (yyother.location)
      {
"##;

/// What follows the copies of values.
pub const COPIED: &str = r##"
      }

@if locations
      basic_symbol (typename Base::kind_type yynumber, location_type &&yyplace)
        : Base (yynumber), value (), location (std::move (yyplace))
      {}

@if variant
      template <typename T>
      basic_symbol (typename Base::kind_type yynumber, T &&yyvalue, location_type &&yyplace)
        : Base (yynumber), value (), location (std::move (yyplace))
      {
        value.template emplace<T> (std::move (yyvalue));
      }
@else
      basic_symbol (typename Base::kind_type yynumber, value_type &&yyvalue,
                    location_type &&yyplace)
        : Base (yynumber), value (std::move (yyvalue)), location (std::move (yyplace))
      {}
@end
@else
      basic_symbol (typename Base::kind_type yynumber)
        : Base (yynumber), value ()
      {}

@if variant
      template <typename T>
      basic_symbol (typename Base::kind_type yynumber, T &&yyvalue)
        : Base (yynumber), value ()
      {
        value.template emplace<T> (std::move (yyvalue));
      }
@else
      basic_symbol (typename Base::kind_type yynumber, value_type &&yyvalue)
        : Base (yynumber), value (std::move (yyvalue))
      {}
@end
@end

      ~basic_symbol ()
      {
        clear ();
      }

      /* Makes it empty. */
      void clear () noexcept
      {
@if variant
@destroys         yy_free_ (*this);
        yyend_ (this->kind (), value);
@end
        Base::clear ();
      }

      /* Takes all of another symbol, which is empty then; it is empty before. */
      void move (basic_symbol &yyother)
      {
        Base::move (yyother);
@if variant
        yytake_ (this->kind (), value, yyother.value);
@else
        value = std::move (yyother.value);
@end
@locations         location = std::move (yyother.location);
      }

      bool empty () const noexcept
      {
        return this->kind () == symbol_kind::^YYEMPTY;
      }

@if asks
@if verbose
      std::string name () const
@else
      const char *name () const noexcept
@end
      {
        return $::symbol_name (this->kind ());
      }
@else
@if names
      const char *name () const noexcept
      {
        return $::symbol_name (this->kind ());
      }
@else
#if `DEBUG
      const char *name () const noexcept
      {
        return $::symbol_name (this->kind ());
      }
#endif
@end
@end

      symbol_kind_type type_get () const noexcept
      {
        return this->kind ();
      }

      value_type value;
@locations       location_type location;
    };

    /* A token, as the lexer gives it. */
    struct symbol_type : basic_symbol<by_kind>
    {
      typedef basic_symbol<by_kind> super_type;

      symbol_type () noexcept
      {}
"##;

/// What stands between the tokens that are made and the parser's own members, up to its parameters.
pub const MEMBERS: &str = r##"
    virtual ~$ ();
    $ (const $ &) = delete;
    $ &operator= (const $ &) = delete;

    /* Parses; the result is 0 where the input is a sentence. */
    int operator() ();
    virtual int parse ();

#if `DEBUG
    std::ostream &debug_stream () const;
    void set_debug_stream (std::ostream &yyo);
    typedef int debug_level_type;
    debug_level_type debug_level () const;
    void set_debug_level (debug_level_type yylevel);
#endif

    /* Tells of an error; the user has the first of these. */
@if locations
    virtual void error (const location_type &yyplace, const std::string &yymessage);
@else
    virtual void error (const std::string &yymessage);
@end
    void error (const syntax_error &yyerror);

    /* What people call a symbol. */
@if asks
@if verbose
    static std::string symbol_name (symbol_kind_type yykind);
@else
    static const char *symbol_name (symbol_kind_type yykind);
@end
@else
@if names
    static const char *symbol_name (symbol_kind_type yykind);
@else
#if `DEBUG
    static const char *symbol_name (symbol_kind_type yykind);
#endif
@end
@end

@if asks
    /* Where an error is. */
    class context
    {
    public:
      context (const $ &yyparser, const symbol_type &yyla)
        : yyparser_ (yyparser), yyla_ (yyla)
      {}

      const symbol_type &lookahead () const noexcept
      {
        return yyla_;
      }

      symbol_kind_type token () const noexcept
      {
        return yyla_.kind ();
      }

@if locations
      const location_type &location () const noexcept
      {
        return yyla_.location;
      }

@end
      /* Notes up to so many tokens that could come, and gives their number, or 0 where there are
         more; without a place for them it counts them all. */
      int expected_tokens (symbol_kind_type yyarg[], int yyargn) const;

    private:
      const $ &yyparser_;
      const symbol_type &yyla_;
    };

@end
"##;

/// What only the parser itself sees, up to the type of states.
pub const PRIVATE: &str = r##"
  private:
    /* The stack has symbols, which are moved and never copied. */
    struct stack_symbol_type : basic_symbol<by_kind>
    {
      typedef basic_symbol<by_kind> super_type;

      stack_symbol_type () noexcept
      {}

      stack_symbol_type (stack_symbol_type &&yyother)
        : super_type (std::move (yyother))
      {}

      explicit stack_symbol_type (symbol_type &&yyother)
        : super_type (std::move (yyother))
      {}
    };

@custom     void report_syntax_error (const context &yyctx) const;
@expecting     virtual std::string yysyntax_error_ (const context &yyctx) const;
    static symbol_kind_type yytranslate_ (int yynumber) noexcept;
@if variant
@destroys     static void yy_free_ (basic_symbol<by_kind> &yysym);
    void yy_destroy_ (const char *yytitle, basic_symbol<by_kind> &yysym) const;
@else
    void yy_destroy_ (const char *yytitle, basic_symbol<by_kind> &yysym) const;
@end
"##;

/// What follows the type of states, up to the parameters.
pub const STACK: &str = r##"
    void yypop_ (unsigned yycount) noexcept;

    template <typename Symbol>
    void yypush_ (state_type yystate, Symbol &yysym)
    {
      yystates_.push_back (yystate);
      yystack_.emplace_back (std::move (yysym));
    }

    /* The stack: each state but the first stands for the symbol beside it. */
    std::vector<state_type> yystates_;
    std::vector<stack_symbol_type> yystack_;
@if lac

    /* Whether the token was tried before what is reduced at it. */
    bool yylooked_;
@end

#if `DEBUG
    virtual void yy_reduce_print_ (int yyrule) const;
    virtual void yy_stack_print_ () const;
    void yy_print_ (std::ostream &yyo, const basic_symbol<by_kind> &yysym) const;

    int yydebug_;
    std::ostream *yycdebug_;
#endif
"##;
