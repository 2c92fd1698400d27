//! The fixed texts in C++ of the machine that reads the tables of a parser. It makes the steps of
//! docs/FORMATS.md, "Steps by a table".

/// The members beside the machine, after the constructor.
pub const MEMBERS: &str = r##"
  $::~$ ()
  {}

  $::syntax_error::~syntax_error () noexcept
  {}

  $::symbol_kind_type
  $::yytranslate_ (int yynumber) noexcept
  {
    return static_cast<symbol_kind_type> (yykind_of (yynumber));
  }

#if `DEBUG
  std::ostream &
  $::debug_stream () const
  {
    return *yycdebug_;
  }

  void
  $::set_debug_stream (std::ostream &yyo)
  {
    yycdebug_ = &yyo;
  }

  $::debug_level_type
  $::debug_level () const
  {
    return yydebug_;
  }

  void
  $::set_debug_level (debug_level_type yylevel)
  {
    yydebug_ = yylevel;
  }
#endif

  void
  $::error (const syntax_error &yyerror)
  {
@if locations
    error (yyerror.location, yyerror.what ());
@else
    error (yyerror.what ());
@end
  }

  void
  $::yypop_ (unsigned yycount) noexcept
  {
    for (; yycount > 0; --yycount)
      {
        yystates_.pop_back ();
        yystack_.pop_back ();
      }
  }

  int
  $::operator() ()
  {
    return parse ();
  }
"##;

/// How values are ended that are thrown away, up to the cases: where they are of several types each
/// time that one ends, else where the parser throws one away.
pub const FREE: &str = r##"

  void
@if variant
  $::yy_free_ (basic_symbol<by_kind> &yysym)
  {
@else
  $::yy_destroy_ (const char *yytitle, basic_symbol<by_kind> &yysym) const
  {
    if (yytitle)
      YY_SYMBOL_PRINT (yytitle, yysym);
@end
    const int yykind = yysym.kind ();
    YY_USE (yysym);
"##;

/// The same where values need nothing.
pub const DESTROY: &str = r##"

  void
  $::yy_destroy_ (const char *yytitle, basic_symbol<by_kind> &yysym) const
  {
    if (yytitle)
      YY_SYMBOL_PRINT (yytitle, yysym);
  }
"##;

/// How a symbol is shown by a trace, up to the cases.
pub const PRINT: &str = r##"

#if `DEBUG
  void
  $::yy_print_ (std::ostream &yyo, const basic_symbol<by_kind> &yysym) const
  {
    std::ostream &yyoutput = yyo;
    const int yykind = yysym.kind ();
    YY_USE (yyoutput);
    if (yysym.empty ())
      {
        yyo << "empty symbol";
        return;
      }
    yyo << (yykind < YYNTOKENS ? "token " : "nterm ") << yysym.name () << " (";
@locations     yyo << yysym.location << ": ";
"##;

/// The end of that, and the trace of the stack and of a reduction.
pub const PRINT_END: &str = r##"
    yyo << ')';
  }

  void
  $::yy_stack_print_ () const
  {
    *yycdebug_ << "Stack now";
    for (std::size_t yyi = 0; yyi < yystates_.size (); ++yyi)
      *yycdebug_ << ' ' << int (yystateno[yystates_[yyi]]);
    *yycdebug_ << '\n';
  }

  void
  $::yy_reduce_print_ (int yyrule) const
  {
    const int yycount = yylen[yyrule];
    const stack_symbol_type *yyvsp = &yystack_.back () - yycount;
    *yycdebug_ << "Reducing stack by rule " << int (yyruleno[yyrule]) << " (line "
               << int (yyrline[yyrule]) << "):\n";
    for (int yyi = 1; yyi <= yycount; ++yyi)
      YY_SYMBOL_PRINT ("   \44" << yyi << " =", yyvsp[yyi]);
  }
#endif
"##;

/// The machine up to what comes before the first token.
pub const BEGIN: &str = r##"

  int
  $::parse ()
  {
    /* Indices have no sign, so that none is widened. */
    unsigned yystate;
    unsigned yytoken;
    unsigned yyn;
    /* While an action runs, how many symbols its rule has. */
    unsigned yym = 0;
    int yynerrs_ = 0;
    int yyerrstatus_ = 0;
    symbol_type yyla;
    stack_symbol_type *yyvsp;
@if locations
    /* Where an error begins and ends. */
    stack_symbol_type yyerror_range[3];
@if again
@else
    /* How deep the stack is where its top is an "error" that stands for what is discarded too. */
    std::size_t yyerrdepth = 0;
@end
@end
    int yyresult;

    YY_USE (yynerrs_);
@lac     YYUNLOOK ("init");
#if YY_EXCEPTIONS
    try
#endif
      {
    YYCDEBUG << "Starting parse\n";
"##;

/// The machine up to the call of the lexer.
pub const READ: &str = r##"
    yystates_.clear ();
    yystack_.clear ();
    yystates_.reserve (200);
    yystack_.reserve (200);
    yypush_ (0, yyla);

  yynewstate:
    yystate = yystates_.back ();
    YYENTER ();

@if again
@else
  yybackup:
@end
    if (yyset[yystate] == 0)
      {
        yyn = yyusual[yystate];
        goto yyreduce;
      }
    if (yyla.empty ())
      {
        YYCDEBUG << "Reading a token\n";
#if YY_EXCEPTIONS
        try
#endif
          {
"##;

/// The machine up to the actions.
pub const MACHINE: &str = r##"
          }
#if YY_EXCEPTIONS
        catch (const syntax_error &yyerror)
          {
            YYCDEBUG << "Caught exception: " << yyerror.what () << '\n';
            error (yyerror);
            goto yyerrlab1;
          }
#endif
      }
    YY_SYMBOL_PRINT ("Next token is", yyla);
    yytoken = static_cast<unsigned> (yyla.kind ());
    if (yytoken == YYERRTOKEN)
      {
        /* The lexer has told of the error itself. */
        yyla.kind_ = symbol_kind::^YYUNDEF;
        goto yyerrlab1;
      }
    yyn = yyrow[yystate] + yytoken;
    if (yycheck[yyn] != yytoken)
      {
@lac         YYLOOK;
        /* Rule 0 is never reduced: a state without reductions has it. */
        yyn = yyusual[yystate];
        if (yyn == 0 || !YYMEMBER (yystate, yytoken))
          goto yyerrlab;
        goto yyreduce;
      }
    yyn = yyvalue[yyn];
    if (yyn >= YYNSTATES)
      {
        yyn -= YYNSTATES;
@lac         if (yyn == YYNRULES && !YYMEMBER (yystate, symbol_kind::^YYUNDEF))
@lac           YYLOOK;
        if (yyn == YYNRULES)
          goto yyerrlab;
        if (yyn != 0)
          {
@lac             YYLOOK;
            goto yyreduce;
          }
        /* The end is an entry of bison's stack. */
        YY_SYMBOL_PRINT ("Shifting", yyla);
@lac         YYUNLOOK ("shift");
        yypush_ (YYNSTATES, yyla);
        YYENTER ();
        YYSTEP ('a', 0);
        YYACCEPT;
      }
    YY_SYMBOL_PRINT ("Shifting", yyla);
    YYSTEP ('s', static_cast<int> (yytoken));
    if (yyerrstatus_ > 0)
      --yyerrstatus_;
@lac     YYUNLOOK ("shift");
    yypush_ (static_cast<state_type> (yyn), yyla);
    goto yynewstate;

  yyreduce:
    yym = yylen[yyn];
    yyvsp = &yystack_.back ();
    YY_USE (yyvsp);
    YYSTEP ('r', static_cast<int> (yyn));
    {
      const unsigned yyleft = ::yylhs[yyn];
      stack_symbol_type yylhs;
@if variant
      yymake_ (YYNTOKENS + static_cast<int> (yyleft), yylhs.value);
@else
      yylhs.value = yym > 0 ? (yyvsp - yym + 1)->value : yyvsp->value;
@end
      yylhs.kind_ = static_cast<symbol_kind_type> (YYNTOKENS + static_cast<int> (yyleft));
@if locations
      {
        const stack_symbol_type *yybelow = yyvsp - yym;
        YYLLOC_DEFAULT (yylhs.location, yybelow, yym);
        yyerror_range[1].location = yylhs.location;
      }
@end
      YY_REDUCE_PRINT (static_cast<int> (yyn));
#if YY_EXCEPTIONS
      try
#endif
        {
  switch (yyn)
    {
"##;

/// The machine after the actions, up to what is said of an error.
pub const REDUCED: &str = r##"
    default:
      break;
    }
        }
#if YY_EXCEPTIONS
      catch (const syntax_error &yyerror)
        {
          YYCDEBUG << "Caught exception: " << yyerror.what () << '\n';
          error (yyerror);
          YYERROR;
        }
#endif
      YY_SYMBOL_PRINT ("-> \44\44 =", yylhs);
      yypop_ (yym);
      yym = 0;
      YYGOTO (yystate, yystates_.back (), yyleft);
      yypush_ (static_cast<state_type> (yystate), yylhs);
    }
    goto yynewstate;

  yyerrlab:
@if locations
    yyerror_range[1].location = yyla.location;
@end
    if (yyerrstatus_ == 3)
      {
        if (yyla.kind () == symbol_kind::^YYEOF)
          {
            YYSTEP ('f', 0);
            YYABORT;
          }
        YYSTEP ('d', static_cast<int> (yyla.kind ()));
@if locations
@if again
@else
        if (yyerrdepth == yystack_.size ())
          {
            yyerror_range[1].location = yystack_.back ().location;
            yyerror_range[2].location = yyla.location;
            YYLLOC_DEFAULT (yystack_.back ().location, yyerror_range, 2);
          }
@end
@end
        yy_destroy_ ("Error: discarding", yyla);
        yyla.clear ();
@if again
        goto yyerrlab1;
@else
        goto yybackup;
@end
      }
    YYSTEP ('e', static_cast<int> (yyla.kind ()));
    if (!yyerrstatus_)
      {
        ++yynerrs_;
@if asks
        context yyctx (*this, yyla);
@if custom
        report_syntax_error (yyctx);
@else
        std::string yymessage = yysyntax_error_ (yyctx);
@if locations
        error (yyla.location, yymessage);
@else
        error (yymessage);
@end
@end
@else
@if locations
        error (yyla.location, YY_("syntax error"));
@else
        error (YY_("syntax error"));
@end
@end
      }
    goto yyerrlab1;

  yyerrorlab:
    if (false)
      YYERROR; /* so the label is used */
    yypop_ (yym);
    yym = 0;
    YY_STACK_PRINT ();

  yyerrlab1:
    yyerrstatus_ = 3;
    for (;;)
      {
        yystate = yystates_.back ();
        yyn = yyrow[yystate] + YYERRTOKEN;
        if (yycheck[yyn] == YYERRTOKEN && (yyn = yyvalue[yyn]) < YYNSTATES)
          break;
        if (yystack_.size () == 1)
          {
            YYSTEP ('f', 0);
            YYABORT;
          }
        YYSTEP ('p', static_cast<int> (yystate));
@locations         yyerror_range[1].location = yystack_.back ().location;
        yy_destroy_ ("Error: popping", yystack_.back ());
        yypop_ (1);
        YY_STACK_PRINT ();
      }
    {
      stack_symbol_type error_token;
      error_token.kind_ = symbol_kind::^YYerror;
@if locations
      yyerror_range[2].location = yyla.location;
      YYLLOC_DEFAULT (error_token.location, yyerror_range, 2);
@end
      YYSTEP ('x', static_cast<int> (yyn));
@lac       YYUNLOOK ("error recovery");
      YY_SYMBOL_PRINT ("Shifting", error_token);
      yypush_ (static_cast<state_type> (yyn), error_token);
@if locations
@if again
@else
      yyerrdepth = yystack_.size ();
@end
@end
    }
    goto yynewstate;

  yyacceptlab:
    yyresult = 0;
    goto yyreturn;

  yyabortlab:
    yyresult = 1;

  yyreturn:
    if (!yyla.empty ())
      yy_destroy_ ("Cleanup: discarding lookahead", yyla);
    /* The symbols of a rule whose action ended the parse are that action's. */
    yypop_ (yym);
    YY_STACK_PRINT ();
    while (yystack_.size () > 1)
      {
        yy_destroy_ ("Cleanup: popping", yystack_.back ());
        yypop_ (1);
      }
    return yyresult;
      }
#if YY_EXCEPTIONS
    catch (...)
      {
        YYCDEBUG << "Exception caught: cleaning lookahead and stack\n";
        if (!yyla.empty ())
          yy_destroy_ (YY_NULLPTR, yyla);
        while (yystack_.size () > 1)
          {
            yy_destroy_ (YY_NULLPTR, yystack_.back ());
            yystack_.pop_back ();
          }
        throw;
      }
#endif
  }
"##;
