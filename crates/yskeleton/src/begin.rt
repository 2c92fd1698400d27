//! How the machine in C begins, and where tokens are pushed into it, what is kept of a parse from one
//! token to the next. Lines that begin with `@` are conditions: `template` knows them.

/// The machine up to what comes before the first token.
pub const BEGIN: &str = r##"
int
YYPARSE_DECL()
{
@if pure
  int yychar;
@pull   int yynerrs;
  YYSTYPE yylval;
@locations   YYLTYPE yylloc;
@end
@if push
@if shared
  int yypushed_char = yychar;
  YYSTYPE yypushed_val = yylval;
@locations   YYLTYPE yypushed_loc = yylloc;
@end
@else
  /* Each state on the stack stands for a symbol, but the first; so a value belongs to it. They are
     local, since a lexer may call this function again. */
  yystate_number yyssa[YYROOM (YYINITDEPTH)];
  YYSTYPE yyvsa[YYROOM (YYINITDEPTH)];
  yystate_number *yyss = yyssa;
  yystate_number *yyssp = yyssa;
  yystate_number *yysslast = yyssa + YYROOM (YYINITDEPTH) - 1;
  YYSTYPE *yyvs = yyvsa;
  YYSTYPE *yyvsp = yyvsa;
@if locations
  YYLTYPE yylsa[YYROOM (YYINITDEPTH)];
  YYLTYPE *yyls = yylsa;
  YYLTYPE *yylsp = yylsa;
@if bison
@if again
@else
  /* How deep the stack is where its top is an `error` that stands for what is discarded too. */
  size_t yyerrdepth = 0;
@end
@end
@end
@if speaks
  /* The tokens of each entry of the stack. */
  yyleaves yyleafa[YYROOM (YYINITDEPTH)];
  yyleaves *yyleaf = yyleafa;
@end
  size_t yydepth = YYINITDEPTH;
  int yyerrflag = 0;
  /* Indices have no sign, so that none is widened. */
  unsigned yystate = 0;
@end
@if locations
  YYLTYPE yyloc;
  /* Where an error begins and ends. */
  YYLTYPE yyerror_range[3];
@end
  YYSTYPE yyval;
  unsigned yytoken;
  unsigned yyn;
  /* While an action runs, how many symbols its rule has. */
  unsigned yym = 0;
@if looks
  /* Whether the token was tried before what is reduced at it. */
  int yylooked = 0;
@end
@if lac
  /* The token before an action. */
  int yybefore;
@end
@if speaks
  /* The tokens that could come in place of a wrong one. */
  int yywants[YYNTOKENS];
  int yywanted = -1;
@end
  int yyresult;

@if bison
@else
#if YYDEBUG
  {
    const char *yylevel = getenv ("YYDEBUG");
    if (yylevel && *yylevel >= '0' && *yylevel <= '9')
      yydebug = *yylevel - '0';
  }
#endif
@end
@names   (void) yytname;
@if push
@kinds   (void) yypstate_expected_tokens;
@end
  YYMEMSET (YY_CAST (void *, &yyval), 0, sizeof yyval);
@if pull
  yynerrs = 0;
  yychar = YYNOTOKEN;
  YYMEMSET (YY_CAST (void *, yyvsp), 0, sizeof *yyvsp);
@end
@if pure
  YYMEMSET (YY_CAST (void *, &yylval), 0, sizeof yylval);
@if locations
  YYMEMSET (YY_CAST (void *, &yylloc), 0, sizeof yylloc);
# if defined YYLTYPE_IS_TRIVIAL && YYLTYPE_IS_TRIVIAL
  yylloc.first_line = yylloc.last_line = 1;
  yylloc.first_column = yylloc.last_column = 1;
# endif
@end
@end
@locations   YYMEMSET (YY_CAST (void *, yyerror_range), 0, sizeof yyerror_range);
@if push
  switch (yyps->yynew)
    {
    case 0:
      goto yyread_pushed_token;
    case 2:
      yypstate_clear (yyps);
      break;
    default:
      break;
    }
  yychar = YYNOTOKEN;
  YYMEMSET (YY_CAST (void *, yyvsp), 0, sizeof *yyvsp);
@else
@speaks   yyleaf->yycount = 0;
  *yyssp = 0;
@end
@bison   YYTRACE ((stderr, "Starting parse\n"));
"##;

/// What is kept of a parse into which tokens are pushed, and which tokens could come next in it.
pub const KEPT: &str = r##"
/* What is kept of a parse from one token to the next. */
struct yypstate
{
@pure   int yynerrs;
  yystate_number yyssa[YYROOM (YYINITDEPTH)];
  YYSTYPE yyvsa[YYROOM (YYINITDEPTH)];
  yystate_number *yyss;
  yystate_number *yyssp;
  yystate_number *yysslast;
  YYSTYPE *yyvs;
  YYSTYPE *yyvsp;
@if locations
  YYLTYPE yylsa[YYROOM (YYINITDEPTH)];
  YYLTYPE *yyls;
  YYLTYPE *yylsp;
@if again
@else
  size_t yyerrdepth;
@end
@end
@if speaks
  yyleaves yyleafa[YYROOM (YYINITDEPTH)];
  yyleaves *yyleaf;
@end
  size_t yydepth;
  int yyerrflag;
  unsigned yystate;
  /* 1 before the first token, 2 after the end, else 0. */
  int yynew;
};
@if shared

/* Whether there is a parse: two would share its variables. */
static char yypstate_allocated;
@end
@if kinds

/* Notes up to so many tokens that could come next, and gives their number, or 0 where there are
   more; without a place for them it counts them all. */
static int
yypstate_expected_tokens (yypstate *yyps, yysymbol_kind_t yyarg[], int yymost)
{
  return yykinds (yyps->yyssp, YYNTOKENS, yyarg, yymost);
}
@end
"##;

/// How a parse is made and thrown away, and a whole one by pushes.
pub const CALLS: &str = r##"
@if pulls

int
yypull_parse (yypstate *yyps YYMORE_DECL)
{
@if pure
  int yychar;
  YYSTYPE yylval;
@locations   YYLTYPE yylloc;
@end
  int yystatus;
@if pure
  YYMEMSET (YY_CAST (void *, &yylval), 0, sizeof yylval);
@if locations
  YYMEMSET (YY_CAST (void *, &yylloc), 0, sizeof yylloc);
# if defined YYLTYPE_IS_TRIVIAL && YYLTYPE_IS_TRIVIAL
  yylloc.first_line = yylloc.last_line = 1;
  yylloc.first_column = yylloc.last_column = 1;
# endif
@end
@end
  do
    {
      yychar = YYLEX;
@if pure
@if locations
      yystatus = yypush_parse (yyps, yychar, &yylval, &yylloc YYMORE);
@else
      yystatus = yypush_parse (yyps, yychar, &yylval YYMORE);
@end
@else
      yystatus = yypush_parse (yyps YYMORE);
@end
    }
  while (yystatus == YYPUSH_MORE);
  return yystatus;
}

int
YYPULL_DECL ()
{
  yypstate *yyps = yypstate_new ();
  int yystatus;
  if (!yyps)
    {
@if pure
@if locations
      YYLTYPE yylloc;
      YYMEMSET (YY_CAST (void *, &yylloc), 0, sizeof yylloc);
      (void) yylloc;
@end
@else
      if (!yypstate_allocated)
@end
        YYERROR_CALL (YY_("memory exhausted"));
      return 2;
    }
  yystatus = yypull_parse (yyps YYMORE);
  yypstate_delete (yyps);
  return yystatus;
}
@end

/* Begins a parse anew. */
static void
yypstate_clear (yypstate *yyps)
{
@pure   yyps->yynerrs = 0;
@shared   yynerrs = 0;
  yyps->yyssp = yyps->yyss;
  yyps->yyvsp = yyps->yyvs;
@if locations
  yyps->yylsp = yyps->yyls;
@if again
@else
  yyps->yyerrdepth = 0;
@end
@end
@speaks   yyps->yyleaf->yycount = 0;
  yyps->yyerrflag = 0;
  yyps->yystate = 0;
  *yyps->yyssp = 0;
  yyps->yynew = 1;
}

yypstate *
yypstate_new (void)
{
  yypstate *yyps;
@if shared
  if (yypstate_allocated)
    return YY_NULLPTR;
@end
  yyps = YY_CAST (yypstate *, YYMALLOC (sizeof *yyps));
  if (!yyps)
    return YY_NULLPTR;
@shared   yypstate_allocated = 1;
  yyps->yydepth = YYINITDEPTH;
  yyps->yyss = yyps->yyssa;
  yyps->yysslast = yyps->yyssa + YYROOM (YYINITDEPTH) - 1;
  yyps->yyvs = yyps->yyvsa;
@locations   yyps->yyls = yyps->yylsa;
@speaks   yyps->yyleaf = yyps->yyleafa;
  yypstate_clear (yyps);
  return yyps;
}

void
yypstate_delete (yypstate *yyps)
{
  if (yyps)
    {
      if (yyps->yyss != yyps->yyssa)
        {
          YYFREE (yyps->yyss);
          YYFREE (yyps->yyvs);
@locations           YYFREE (yyps->yyls);
@speaks           YYFREE (yyps->yyleaf);
        }
      YYFREE (yyps);
@shared       yypstate_allocated = 0;
    }
}

"##;
