//! The fixed texts in C that stand before and after the tables of a parser: which parser it is,
//! words for actions, the limits of the stack, and the variables.

/// What each parser begins with, after the line that tells where it is from.
pub const FRONT: &str = r##"
@if bison
#define YYBISON 30802
#define YYBISON_VERSION "3.8.2"
@if push
#define YYPUSH 1
@else
#define YYPUSH 0
@end
@if pulls
#define YYPULL 1
@else
#define YYPULL 0
@end
@else
#define YYBYACC 1
#define YYEMPTY (-1)
#define YYEOF 0
@end
"##;

/// What a parser includes, and how it casts in C and C++.
pub const INCLUDES: &str = r##"
#if YYDEBUG
#include <stdio.h>
#endif
@if bison
#include <stddef.h>
#if (defined __cplusplus && ! defined EXIT_SUCCESS \
     && ! ((defined YYMALLOC || defined malloc) && (defined YYFREE || defined free)))
# include <stdlib.h>
#endif
#ifndef YYMALLOC
# define YYMALLOC malloc
# if ! defined malloc && ! defined EXIT_SUCCESS
void *malloc (size_t);
# endif
#endif
#ifndef YYFREE
# define YYFREE free
# if ! defined free && ! defined EXIT_SUCCESS
void free (void *);
# endif
#endif
/* A program without a library of C can have a <string.h> of its own. */
#ifdef __GNUC__
# define YYMEMCPY __builtin_memcpy
# define YYMEMSET __builtin_memset
# define YYSTRLEN __builtin_strlen
#endif
@else
#include <stdlib.h>
#ifndef YYMALLOC
# define YYMALLOC malloc
#endif
#ifndef YYFREE
# define YYFREE free
#endif
@end
#ifndef YYMEMCPY
# include <string.h>
# define YYMEMCPY memcpy
# define YYMEMSET memset
# define YYSTRLEN strlen
#endif

#ifndef YY_CAST
# ifdef __cplusplus
#  define YY_CAST(Type, Val) static_cast<Type> (Val)
# else
#  define YY_CAST(Type, Val) ((Type) (Val))
# endif
#endif
#ifndef YY_NULLPTR
# ifdef __cplusplus
#  if __cplusplus >= 201103L
#   define YY_NULLPTR nullptr
#  else
#   define YY_NULLPTR 0
#  endif
# else
#  define YY_NULLPTR ((void *) 0)
# endif
#endif
"##;

/// What stands after the tables: words for actions, the limits of the stack, and the variables.
/// In byacc's order the user's last code follows.
pub const WORDS: &str = r##"
@if bison
/* The numbers of tokens that macros name, where an enum gives them another name. */
#define YYNOTOKEN (-2)
#define YYENDTOKEN 0
@else
#define YYUNDEF 2147483647
#define YYerror YYERRCODE
#define YYNOTOKEN YYEMPTY
#define YYNOSYMBOL YYUNDEF
#define YYENDTOKEN YYEOF
@end
#ifndef YYSOUGHT
# define YYSOUGHT(c) YYNTOKENS
#endif
@if raw
#define YYTRANSLATE(c) (YY_CAST (unsigned, c) < YYNTOKENS ? (c) : YYNTOKENS)
@else
#define YYTRANSLATE(c) \
  (YY_CAST (unsigned, c) <= YYMAXTOKEN ? YY_CAST (int, yytranslate[YY_CAST (unsigned, c)]) \
   : YYSOUGHT (c))
@end

#define yyerrok (yyerrflag = 0)
#define yyclearin (yychar = YYNOTOKEN)
#define YYRECOVERING() (yyerrflag != 0)
#define YYACCEPT goto yyaccept
#define YYABORT goto yyabort
#define YYERROR goto yyerrorlab
#define YYNOMEM goto yynomem
@if bison
#define YYBACKUP(Token, Value) \
  do \
    if (yychar == YYNOTOKEN) \
      { \
        yychar = (Token); \
        yylval = (Value); \
        YYPOPSTACK (yym); \
        yystate = *yyssp; \
@lac         YYUNLOOK ("YYBACKUP"); \
        goto yybackup; \
      } \
    else \
      { \
        YYERROR_CALL (YY_("syntax error: cannot back up")); \
        YYERROR; \
      } \
  while (0)
#ifndef YY_
# define YY_(Text) Text
#endif
#ifndef YYFPRINTF
# define YYFPRINTF fprintf
#endif
@else
#define YY_(Text) Text
@end

/* The stack begins with YYINITDEPTH entries, and grows up to YYMAXDEPTH. */
#ifdef YYSTACKSIZE
# undef YYMAXDEPTH
# define YYMAXDEPTH YYSTACKSIZE
#endif
#ifndef YYMAXDEPTH
# define YYMAXDEPTH 10000
#endif
#ifndef YYINITDEPTH
# ifdef YYINITSTACKSIZE
#  define YYINITDEPTH YYINITSTACKSIZE
# else
#  define YYINITDEPTH 200
# endif
#endif
@if bison
/* How many entries there is room for. The stack is full by the last one of a depth. */
#define YYROOM(depth) (depth)
@else
/* How many entries there is room for. The stack is full by one more than a depth. */
#define YYROOM(depth) ((depth) + 1)
@end
@if locations
#ifndef YYRHSLOC
# define YYRHSLOC(Rhs, K) ((Rhs)[K])
#endif
#ifndef YYLLOC_DEFAULT
# define YYLLOC_DEFAULT(Current, Rhs, N) \
  do \
    if (N) \
      { \
        (Current).first_line = YYRHSLOC (Rhs, 1).first_line; \
        (Current).first_column = YYRHSLOC (Rhs, 1).first_column; \
        (Current).last_line = YYRHSLOC (Rhs, N).last_line; \
        (Current).last_column = YYRHSLOC (Rhs, N).last_column; \
      } \
    else \
      { \
        (Current).first_line = (Current).last_line = YYRHSLOC (Rhs, 0).last_line; \
        (Current).first_column = (Current).last_column = YYRHSLOC (Rhs, 0).last_column; \
      } \
  while (0)
#endif
# define YYPOPSTACK(N) (yyssp -= (N), yyvsp -= (N), yylsp -= (N))
@if bison
#if YYDEBUG && ! defined YYLOCATION_PRINT
# if defined YY_LOCATION_PRINT
#  define YYLOCATION_PRINT(File, Loc) YY_LOCATION_PRINT (File, *(Loc))
# elif defined YYLTYPE_IS_TRIVIAL && YYLTYPE_IS_TRIVIAL
#  define YYLOCATION_PRINT yylocation_print
#  define YY_LOCATION_PRINT(File, Loc) YYLOCATION_PRINT (File, &(Loc))
/* Writes a place as lines and columns, and gives how many characters it took. */
static int
yylocation_print (FILE *yyo, YYLTYPE const *yylocp)
{
  int yycount = 0;
  int yyend = yylocp->last_column != 0 ? yylocp->last_column - 1 : 0;
  if (yylocp->first_line >= 0)
    {
      yycount += YYFPRINTF (yyo, "%d", yylocp->first_line);
      if (yylocp->first_column >= 0)
        yycount += YYFPRINTF (yyo, ".%d", yylocp->first_column);
    }
  if (yylocp->last_line >= 0)
    {
      if (yylocp->first_line < yylocp->last_line)
        {
          yycount += YYFPRINTF (yyo, "-%d", yylocp->last_line);
          if (yyend >= 0)
            yycount += YYFPRINTF (yyo, ".%d", yyend);
        }
      else if (yyend >= 0 && yylocp->first_column < yyend)
        yycount += YYFPRINTF (yyo, "-%d", yyend);
    }
  return yycount;
}
# else
#  define YYLOCATION_PRINT(File, Loc) ((void) 0)
# endif
#endif
@end
@else
# define YYPOPSTACK(N) (yyssp -= (N), yyvsp -= (N))
@end

/* Each step of the parser: its kind, and the token, rule or state that it is about. A token that
   is shifted: 's'; a rule that is reduced: 'r'; acceptance: 'a'; an error that is detected: 'e',
   and then a state that is popped: 'p', the shift of `error`: 'x', a token that is discarded: 'd';
   and 'f' where the parser gives up. */
#ifndef YYSTEP
# define YYSTEP(kind, number) ((void) 0)
#endif

#if YYDEBUG
@if bison
# define YYDPRINTF(words) do { if (yydebug) YYFPRINTF words; } while (0)
# define YYTRACE(words) YYDPRINTF (words)
@if plain
# define YYCALLED(kind) yysymbol_name (YY_CAST (yysymbol_kind_t, kind))
@else
# define YYCALLED(kind) yytname[kind]
@end
@else
# define YYTRACE(words) do { if (yydebug) fprintf words; } while (0)
@end
#else
@bison # define YYDPRINTF(words) ((void) 0)
# define YYTRACE(words) ((void) 0)
#endif

#if YYDEBUG
int yydebug;
#endif
@if pure
@else
int yynerrs;
int yychar;
YYSTYPE yylval;
@if locations
YYLTYPE yylloc
# if defined YYLTYPE_IS_TRIVIAL && YYLTYPE_IS_TRIVIAL
  = { 1, 1, 1, 1 }
# endif
;
@end
@end
"##;
