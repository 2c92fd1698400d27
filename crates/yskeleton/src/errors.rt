//! The fixed texts in C that tell of an error which tokens could come.

/// How a parser tries tokens on a copy of its stack.
pub const WAYS: &str = r##"
/* As many states a list of tokens that could come goes on beyond the stack. */
#ifndef YYLOOKDEPTH
# define YYLOOKDEPTH 200
#endif

/* A way that the parser would go, on a copy of the top of its stack. */
typedef struct
{
  const yystate_number *yybelow; /* what of the stack still stands */
  yystate_number yymade[YYLOOKDEPTH];
  int yyup; /* how many states stand above it */
} yyway;

/* Where a way begins: on top of a stack. */
#define YYSETOUT(way, top) ((way).yybelow = (top), (way).yyup = 0)

/* Reduces by a rule, and gives the state after it, or -1 where there is no room. */
static int
yygo (yyway *yywayp, int yyrulep)
{
  int yycount = yylen[yyrulep];
  int yyleft = yylhs[yyrulep];
  int yybase;
  int yystate;
  if (yycount <= yywayp->yyup)
    yywayp->yyup -= yycount;
  else
    {
      yywayp->yybelow -= yycount - yywayp->yyup;
      yywayp->yyup = 0;
    }
  yybase = yywayp->yyup ? yywayp->yymade[yywayp->yyup - 1] : *yywayp->yybelow;
  YYGOTO (yystate, yybase, yyleft);
  if (yywayp->yyup == YYLOOKDEPTH)
    return -1;
  yywayp->yymade[yywayp->yyup++] = YY_CAST (yystate_number, yystate);
  return yystate;
}

/* What a state does at a token: a state, or YYNSTATES and a rule, where 0 is acceptance and
   YYNRULES an error. */
static int
yydoes (int yystate, int yytoken)
{
  int yyn;
  if (yyset[yystate] == 0)
    return YYNSTATES + yyusual[yystate];
  yyn = yyrow[yystate] + yytoken;
  if (yycheck[yyn] == yytoken)
    return yyvalue[yyn];
  return YYNSTATES + (YYMEMBER (yystate, yytoken) ? YY_CAST (int, yyusual[yystate]) : YYNRULES);
}

@if lac
/* What a trace tells of a token that is tried. */
@if logs
#if `DEBUG
# define YYLOG_DECL , std::ostream *yylog
# define YYLOG , yylog
# define YYTELL(before, form, what, after) \
  do { if (yylog) *yylog << before << what << after; } while (false)
#else
# define YYLOG_DECL
# define YYLOG
# define YYTELL(before, form, what, after) ((void) 0)
#endif
@else
#define YYTELL(before, form, what, after) YYTRACE ((stderr, before form after, what))
@end

@end
@if lists
@else
/* Whether a token could come: after all reductions before it, it would be shifted. */
static int
@if logs
yycan_come (const yystate_number *yyssp, int yytoken YYLOG_DECL)
@else
yycan_come (const yystate_number *yyssp, int yytoken)
@end
{
  yyway yywayd;
  int yystate = *yyssp;
  int yyn;
  YYSETOUT (yywayd, yyssp);
@if lac
  YYTELL ("LAC: checking lookahead ", "%s", YYCALLED (yytoken), ":");
@if logs
@else
  if (yytoken == YYNTOKENS)
    {
      YYTELL (" ", "%s", "Always Err", "\n");
      return 0;
    }
@end
@end
  for (;;)
    {
      yyn = yydoes (yystate, yytoken) - YYNSTATES;
@if lac
      if (yyn == YYNRULES)
        YYTELL (" ", "%s", "Err", "\n");
      else if (yyn > 0)
        YYTELL (" R", "%d", YY_CAST (int, yyruleno[yyn]), "");
      else
        YYTELL (" S", "%d", YY_CAST (int, yystateno[YYNSTATES + yyn]), "\n");
@end
      if (yyn <= 0 || yyn == YYNRULES)
        return yyn != YYNRULES;
      yystate = yygo (&yywayd, yyn);
      if (yystate < 0)
        return 1;
@lac       YYTELL (" G", "%d", YY_CAST (int, yystateno[yystate]), "");
    }
}

@if lac
@if logs
@else
/* The token is looked at from now on, or no longer. */
#define YYLOOKED() \
  do { \
    YYTRACE ((stderr, "LAC: initial context established for %s\n", YYCALLED (yytoken))); \
    yylooked = 1; \
  } while (0)
#define YYUNLOOK(why) \
  do { \
    if (yylooked) \
      YYTRACE ((stderr, "LAC: initial context discarded due to " why "\n")); \
    yylooked = 0; \
  } while (0)

/* Before the first action on a token: it is an error where the token can't be shifted after all
   that would be reduced before it. */
#define YYLOOK \
  do { \
    if (!yylooked) \
      { \
        YYLOOKED (); \
        if (!yycan_come (yyssp, YY_CAST (int, yytoken))) \
          goto yyerrlab; \
      } \
  } while (0)
@end
@end
@if recalls
/* Before the first action on a token: where it can't be shifted after all that would be reduced
   before it, a message lists what could come here. */
#define YYLOOK \
  do { \
    if (!yylooked) \
      { \
        yylooked = 1; \
        yywanted = -1; \
        if (!yycan_come (yyssp, YY_CAST (int, yytoken))) \
          yywanted = yyexpected (yyssp, YY_CAST (int, yytoken), yywants, YYNTOKENS); \
      } \
  } while (0)
@end
@end
"##;

/// Which tokens could come.
pub const EXPECTED: &str = r##"
/* The tokens in the order in which they are listed. */
#ifndef YYLISTED
# define YYLISTED(n) (n)
#endif

@if rows
/* Whether a state that an error is found in has a number of its own for a token, or reduces at it
   by a rule that is not its default one: these are the tokens that bison lists. */
static int
yyhas (int yystate, int yytoken)
{
  int yyn = yyrow[yystate] + yytoken;
  if (yycheck[yyn] == yytoken)
    return yyvalue[yyn] != YYNSTATES + YYNRULES;
  return YYMEMBER (yystate, yytoken) && !YYMEMBER (yystate, YYNTOKENS);
}

@end
@if lists
/* Whether %nonassoc gives a state an error at a token, which no reduction by default passes. */
static int
yyrefuses (int yystate, int yytoken)
{
  int yyn = yyrow[yystate] + yytoken;
  return yyset[yystate] != 0 && yycheck[yyn] == yytoken && yyvalue[yyn] == YYNSTATES + YYNRULES;
}

/* The state in which bison sees the error at a token, after the reductions that it makes before:
   those at the token, and the most usual one where the state has nothing for it. -1 where there is
   no room for them. */
static int
yysees (const yystate_number *yyssp, int yytoken)
{
  yyway yywayd;
  int yystate = *yyssp;
  int yyn;
  YYSETOUT (yywayd, yyssp);
  while (yystate >= 0)
    {
      yyn = yydoes (yystate, yytoken) - YYNSTATES;
      if (yyn == YYNRULES)
        yyn = yyrefuses (yystate, yytoken) ? 0 : YY_CAST (int, yydefault[yystate]);
      if (yyn <= 0)
        break;
      yystate = yygo (&yywayd, yyn);
    }
  return yystate;
}

/* Whether a token stands in the list that bison writes in a state: one for which the state has
   more than its most usual reduction. */
static int
yyhas (int yystate, int yytoken)
{
  int yyn = yydoes (yystate, yytoken) - YYNSTATES;
  return yyn != YYNRULES && (yyn <= 0 || yyn != YY_CAST (int, yydefault[yystate]));
}

@end
/* Notes up to so many tokens that could come in place of a wrong one, and gives their number, or 0
   where there are more; without a place for them it counts them all. */
static int
@if logs
yyexpected (const yystate_number *yyssp, int yywrong, int *yytokens, int yymost YYLOG_DECL)
@else
yyexpected (const yystate_number *yyssp, int yywrong, int *yytokens, int yymost)
@end
{
  int yycount = 0;
  int yyn;
@if rows
  int yystate = *yyssp;
  (void) yywrong;
@else
@if lists
  int yystate = yysees (yyssp, yywrong);
  if (yystate < 0)
    return 0;
@else
  (void) yywrong;
@end
@end
  for (yyn = 0; yyn < YYNTOKENS; ++yyn)
    {
      int yytoken = YYLISTED (yyn);
@if rows
      if (yytoken == YYERRTOKEN || !yyhas (yystate, yytoken))
@else
@if lists
      if (yytoken == YYERRTOKEN || !yyhas (yystate, yytoken))
@else
@if logs
      if (yytoken == YYERRTOKEN || !yycan_come (yyssp, yytoken YYLOG))
@else
      if (yytoken == YYERRTOKEN || !yycan_come (yyssp, yytoken))
@end
@end
@end
        continue;
      if (yytokens)
        {
          if (yycount == yymost)
            return 0;
          yytokens[yycount] = yytoken;
        }
      ++yycount;
    }
  return yycount;
}
@if kinds

/* The same, by the kinds of tokens; where none could come, the first is that of no symbol. */
static int
yykinds (const yystate_number *yyssp, int yywrong, yysymbol_kind_t yyarg[], int yymost)
{
  int yytokens[YYNTOKENS] = { -2 };
  int yycount = yyexpected (yyssp, yywrong, yyarg ? yytokens : YY_NULLPTR, yymost);
  int yynoted = yycount;
  int yyn;
  if (yycount == 0 && yymost > 0)
    yynoted = yytokens[0] < 0 ? 1 : yymost;
  for (yyn = 0; yyarg && yyn < yynoted; ++yyn)
    yyarg[yyn] = YY_CAST (yysymbol_kind_t, yytokens[yyn]);
  return yycount;
}
@end
"##;

/// How the text of an error is made.
pub const MESSAGE: &str = r##"
@if verbose
#ifndef yystpcpy
# define yystpcpy yycopied
static char *
yycopied (char *yyto, const char *yyfrom)
{
  size_t yylength = YYSTRLEN (yyfrom);
  YYMEMCPY (yyto, yyfrom, yylength + 1);
  return yyto + yylength;
}
#endif
#ifndef yytnamerr
# define yytnamerr yyunquoted
/* Copies a name, without its quotes where nothing in them is quoted, and gives its length. */
static size_t
yyunquoted (char *yyto, const char *yyname)
{
  if (*yyname == '"')
    {
      size_t yycount = 0;
      const char *yyp = yyname;
      for (;;)
        switch (*++yyp)
          {
          case '\'':
          case ',':
            goto yywhole;
          case '\\':
            if (*++yyp != '\\')
              goto yywhole;
            if (yyto)
              yyto[yycount] = *yyp;
            ++yycount;
            break;
          case '"':
            if (yyto)
              yyto[yycount] = '\0';
            return yycount;
          default:
            if (yyto)
              yyto[yycount] = *yyp;
            ++yycount;
            break;
          }
    yywhole: ;
    }
  if (yyto)
    return YY_CAST (size_t, yystpcpy (yyto, yyname) - yyto);
  return YYSTRLEN (yyname);
}
#endif
# define YYCOPY(to, token) yytnamerr (to, yytname[token])
@else
# define YYCOPY(to, token) yyspelled (to, yysymbol_name (YY_CAST (yysymbol_kind_t, token)))
static size_t
yyspelled (char *yyto, const char *yyname)
{
  size_t yylength = YYSTRLEN (yyname);
  if (yyto)
    YYMEMCPY (yyto, yyname, yylength + 1);
  return yylength;
}
@end

/* The text of an error at a token: in the room, or where it is too long in memory of its own; null
   where there is none. */
static char *
yysyntax_error (char *yyroom, size_t yysize, const yystate_number *yyssp, int yytoken)
{
  int yytokens[5];
  int yycount;
  const char *yyform;
  size_t yylength;
  char *yymsg = yyroom;
  char *yyto;
  int yyn = 0;
@verbose   (void) yystpcpy;
@lac   YYTRACE ((stderr, "Constructing syntax error message\n"));
  yycount = 1 + yyexpected (yyssp, yytoken, yytokens + 1, 4);
@if lac
  if (yycount == 1)
    YYTRACE ((stderr, "No expected tokens.\n"));
@end
  yytokens[0] = yytoken;
  switch (yycount)
    {
    case 1: yyform = YY_("syntax error, unexpected %s"); break;
    case 2: yyform = YY_("syntax error, unexpected %s, expecting %s"); break;
    case 3: yyform = YY_("syntax error, unexpected %s, expecting %s or %s"); break;
    case 4: yyform = YY_("syntax error, unexpected %s, expecting %s or %s or %s"); break;
    default: yyform = YY_("syntax error, unexpected %s, expecting %s or %s or %s or %s"); break;
    }
  yylength = YYSTRLEN (yyform) + 1;
  for (yyn = 0; yyn < yycount; ++yyn)
    yylength += YYCOPY (YY_NULLPTR, yytokens[yyn]);
  if (yylength > yysize)
    {
      yymsg = YY_CAST (char *, YYMALLOC (yylength));
      if (!yymsg)
        return YY_NULLPTR;
    }
  yyn = 0;
  for (yyto = yymsg; (*yyto = *yyform) != '\0';)
    if (*yyform == '%' && yyform[1] == 's' && yyn < yycount)
      {
        yyto += YYCOPY (yyto, yytokens[yyn++]);
        yyform += 2;
      }
    else
      {
        ++yyto;
        ++yyform;
      }
  return yymsg;
}
"##;

/// What a function of the user's that tells of errors can ask.
pub const CUSTOM: &str = r##"
typedef struct
{
  const yystate_number *yytop;
  yysymbol_kind_t yytoken;
@locations   YYLTYPE *yylloc;
} yypcontext_t;

#define yypcontext_token(context) ((context)->yytoken)
@locations #define yypcontext_location(context) ((context)->yylloc)

/* Notes up to so many tokens that could come, and gives their number, or 0 where there are more;
   without a place for them it counts them all. */
static int
yypcontext_expected_tokens (const yypcontext_t *yycontext, yysymbol_kind_t yyarg[], int yymost)
{
  return yykinds (yycontext->yytop, YY_CAST (int, yycontext->yytoken), yyarg, yymost);
}

static int yyreport_syntax_error (const yypcontext_t *yycontext YYMORE_DECL);
#define YYREPORT(context) yyreport_syntax_error (context YYMORE)
"##;

/// What values need that are thrown away, up to the cases.
pub const DESTROY_FRONT: &str = r##"
@if locations
# define YYDESTRUCT(kind, value, location) yydestruct (kind, value, location YYMORE)
static void
yydestruct (int yykind, YYSTYPE *yyvaluep, YYLTYPE *yylocationp YYMORE_DECL)
{
  (void) yylocationp;
@else
# define YYDESTRUCT(kind, value, location) yydestruct (kind, value YYMORE)
static void
yydestruct (int yykind, YYSTYPE *yyvaluep YYMORE_DECL)
{
@end
  (void) yyvaluep;
"##;

/// The beginning of the cases by kinds of symbols.
pub const SWITCH: &str = "  switch (yykind)\n    {\n";

/// The end of the cases.
pub const SWITCH_END: &str = "    default:\n      break;\n    }\n}\n";
