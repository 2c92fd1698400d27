//! The fixed texts in C of what a trace shows: in bison's order the steps as bison's parsers tell
//! them, else values alone, beside what the machine says of its steps. Lines that begin with `@`
//! are conditions: `template` knows them.

/// How symbols are shown, up to the cases by their kinds; in bison's order with the stack.
pub const SHOW_FRONT: &str = r##"
#if YYDEBUG
@if bison
/* Writes the stack by the numbers of its states. */
static void
yyshow_stack (const yystate_number *yyfrom, const yystate_number *yyto)
{
  YYFPRINTF (stderr, "Stack now");
  for (; yyfrom <= yyto; ++yyfrom)
    YYFPRINTF (stderr, " %d", yystateno[*yyfrom]);
  YYFPRINTF (stderr, "\n");
}
# define YYSTACK() do { if (yydebug) yyshow_stack (yyss, yyssp); } while (0)
# define YYENTER() \
  do { \
    YYTRACE ((stderr, "Entering state %d\n", yystateno[*yyssp])); \
    YYSTACK (); \
  } while (0)

/* Writes what is done with a symbol, and the symbol. */
@end
@if locations
# define YYSHOW(what, kind, value, location) \
  do { if (yydebug) yyshow (what, kind, value, location YYMORE); } while (0)
static void
yyshow (const char *yywhat, int yykind, YYSTYPE *yyvaluep, YYLTYPE *yylocationp YYMORE_DECL)
{
  FILE *yyo = stderr;
  FILE *yyoutput = yyo;
  (void) yylocationp;
@else
# define YYSHOW(what, kind, value, location) \
  do { if (yydebug) yyshow (what, kind, value YYMORE); } while (0)
static void
yyshow (const char *yywhat, int yykind, YYSTYPE *yyvaluep YYMORE_DECL)
{
  FILE *yyo = stderr;
  FILE *yyoutput = yyo;
@end
  (void) yyoutput;
  (void) yyvaluep;
@if bison
  YYFPRINTF (yyo, "%s %s %s (", yywhat, yykind <= YYNTOKENS ? "token" : "nterm",
             YYCALLED (yykind));
@if locations
  YYLOCATION_PRINT (yyo, yylocationp);
  YYFPRINTF (yyo, ": ");
@end
@else
  fprintf (yyo, "%sdebug: %s %s (", YYPREFIX, yywhat, yytname[yykind]);
@end
"##;

/// The end of that; in bison's order with how a reduction is shown.
pub const SHOW_END: &str = r##"    default:
      break;
    }
@if bison
  YYFPRINTF (yyo, ")\n");
}

/* Writes that a rule is reduced, and the symbols of its body. */
# define YYREDUCED(rule) \
  do { \
    if (yydebug) \
      { \
        int yyi; \
        YYFPRINTF (stderr, "Reducing stack by rule %d (line %d):\n", yyruleno[rule], \
                   yyrline[rule]); \
        for (yyi = 1 - yylen[rule]; yyi <= 0; ++yyi) \
          { \
            YYFPRINTF (stderr, "   $%d ", yyi + yylen[rule]); \
            YYSHOW ("=", yystos[yyssp[yyi]], yyvsp + yyi, yylsp + yyi); \
          } \
      } \
  } while (0)
#else
# define YYSTACK() ((void) 0)
# define YYENTER() ((void) 0)
# define YYREDUCED(rule) ((void) 0)
@else
  fprintf (yyo, ")\n");
}
#else
@end
# define YYSHOW(what, kind, value, location) ((void) 0)
#endif
"##;
