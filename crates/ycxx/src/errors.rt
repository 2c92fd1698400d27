//! The fixed texts in C++ that tell of an error which tokens could come.

/// Which tokens could come, by the class.
pub const EXPECTED: &str = r##"

  int
  $::context::expected_tokens (symbol_kind_type yyarg[], int yyargn) const
  {
    int yytokens[YYNTOKENS] = { symbol_kind::^YYEMPTY };
    const int yywrong = static_cast<int> (yyla_.kind ());
@if logs
#if `DEBUG
    std::ostream *const yylog = yyparser_.yydebug_ ? yyparser_.yycdebug_ : YY_NULLPTR;
    if (!yyparser_.yylooked_)
      (void) yycan_come (&yyparser_.yystates_.back (), yywrong, yylog);
#endif
    const int yycount = yyexpected (&yyparser_.yystates_.back (), yywrong,
                                    yyarg ? yytokens : YY_NULLPTR, yyargn YYLOG);
@else
    const int yycount = yyexpected (&yyparser_.yystates_.back (), yywrong,
                                    yyarg ? yytokens : YY_NULLPTR, yyargn);
@end
    int yynoted = yycount;
    if (yycount == 0 && yyargn > 0)
      yynoted = yytokens[0] < 0 ? 1 : yyargn;
    for (int yyi = 0; yyarg && yyi < yynoted; ++yyi)
      yyarg[yyi] = static_cast<symbol_kind_type> (yytokens[yyi]);
    return yycount;
  }
"##;

/// How the text of an error is made.
pub const MESSAGE: &str = r##"

  std::string
  $::yysyntax_error_ (const context &yyctx) const
  {
    static const char *const yyforms[] = {
      YY_("syntax error"),
      YY_("syntax error, unexpected %s"),
      YY_("syntax error, unexpected %s, expecting %s"),
      YY_("syntax error, unexpected %s, expecting %s or %s"),
      YY_("syntax error, unexpected %s, expecting %s or %s or %s"),
      YY_("syntax error, unexpected %s, expecting %s or %s or %s or %s"),
    };
    symbol_kind_type yynamed[5];
    int yycount = 0;
    if (!yyctx.lookahead ().empty ())
      {
        yynamed[0] = yyctx.token ();
        yycount = 1 + yyctx.expected_tokens (yynamed + 1, 4);
      }
    std::string yytext;
    int yyi = 0;
    for (const char *yyform = yyforms[yycount]; *yyform; ++yyform)
      if (yyform[0] == '%' && yyform[1] == 's' && yyi < yycount)
        {
          yytext += symbol_name (yynamed[yyi++]);
          ++yyform;
        }
      else
        yytext += *yyform;
    return yytext;
  }
"##;

/// How names are shown without their quotes.
pub const UNQUOTED: &str = r##"

/* A name, without its quotes where nothing in them is quoted. */
static std::string
yyunquoted (const char *yyname)
{
  if (*yyname != '"')
    return yyname;
  std::string yytext;
  for (const char *yyp = yyname + 1; *yyp != '"'; ++yyp)
    {
      if (*yyp == '\'' || *yyp == ',' || (*yyp == '\\' && *++yyp != '\\'))
        return yyname;
      yytext += *yyp;
    }
  return yytext;
}
"##;

/// The names of symbols, up to those that are translated.
pub const NAME: &str = r##"

  const char *
  $::symbol_name (symbol_kind_type yykind)
  {
    const int yysymbol = yykind;
"##;

/// The names of symbols as they stand in the file.
pub const VERBOSE_NAME: &str = r##"

  std::string
  $::symbol_name (symbol_kind_type yykind)
  {
    return yyunquoted (yytname[yykind]);
  }
"##;

/// The same where only traces need them.
pub const PLAIN_NAME: &str = r##"

  const char *
  $::symbol_name (symbol_kind_type yykind)
  {
    return yytname[yykind];
  }
"##;
