//! The fixed texts in C++ that stand before the class of a parser, and between it and the tables.
//!
//! In these texts and those of `class`, `values`, `errors` and `machine` a `$` stands for the name
//! of the class, `^` for what the names of the kinds of symbols begin with, and a backquote for what
//! macros begin with. Lines that begin with `@` are conditions: `template` of `yskeleton` knows
//! them.

/// What the class needs of the library, and words for it.
pub const INCLUDES: &str = r##"
@asserts #include <cassert>
#include <cstddef>
#include <cstdlib>
#include <iostream>
#include <new>
#include <stdexcept>
#include <string>
#include <utility>
#include <vector>
"##;

/// The words.
pub const WORDS: &str = r##"
@if asserts
@variant #include <typeinfo>
#ifndef YY_ASSERT
# define YY_ASSERT assert
#endif
@else
#ifndef YY_ASSERT
# define YY_ASSERT(holds) ((void) 0)
#endif
@end
#ifndef YY_CPLUSPLUS
# define YY_CPLUSPLUS __cplusplus
#endif
#ifndef YY_MOVE
# define YY_MOVE std::move
#endif
#ifndef YY_NOEXCEPT
# define YY_NOEXCEPT noexcept
#endif
#ifndef YY_NULLPTR
# define YY_NULLPTR nullptr
#endif
#ifndef YY_USE
# define YY_USE(Value) ((void) (Value))
#endif
#ifndef YY_CAST
# define YY_CAST(Type, Val) static_cast<Type> (Val)
#endif
"##;

/// What the members of the class are written with.
pub const MACROS: &str = r##"
#include <cstring>

#ifndef YYSTRLEN
# define YYSTRLEN std::strlen
#endif
#ifndef YY_
# if defined YYENABLE_NLS && YYENABLE_NLS && ENABLE_NLS
#  include <libintl.h>
#  define YY_(Text) dgettext ("bison-runtime", Text)
# else
#  define YY_(Text) Text
# endif
#endif

/* Whether there are exceptions. */
#ifndef YY_EXCEPTIONS
# if defined __GNUC__ && ! defined __EXCEPTIONS
#  define YY_EXCEPTIONS 0
# else
#  define YY_EXCEPTIONS 1
# endif
#endif

@if locations
#ifndef YYRHSLOC
# define YYRHSLOC(Rhs, K) ((Rhs)[K].location)
#endif
#ifndef YYLLOC_DEFAULT
# define YYLLOC_DEFAULT(Current, Rhs, N) \
  do \
    if (N) \
      { \
        (Current).begin = YYRHSLOC (Rhs, 1).begin; \
        (Current).end = YYRHSLOC (Rhs, N).end; \
      } \
    else \
      (Current).begin = (Current).end = YYRHSLOC (Rhs, 0).end; \
  while (false)
#endif

@end
#if `DEBUG
# define YYCDEBUG if (yydebug_) (*yycdebug_)
# define YY_SYMBOL_PRINT(Title, Symbol) \
  do \
    if (yydebug_) \
      { \
        *yycdebug_ << Title << ' '; \
        yy_print_ (*yycdebug_, Symbol); \
        *yycdebug_ << '\n'; \
      } \
  while (false)
# define YY_REDUCE_PRINT(Rule) do if (yydebug_) yy_reduce_print_ (Rule); while (false)
# define YY_STACK_PRINT() do if (yydebug_) yy_stack_print_ (); while (false)
# define YYENTER() \
  do \
    { \
      YYCDEBUG << "Entering state " << int (yystateno[yystates_.back ()]) << '\n'; \
      YY_STACK_PRINT (); \
    } \
  while (false)
#else
# define YYCDEBUG if (false) std::cerr
# define YY_SYMBOL_PRINT(Title, Symbol) YY_USE (Symbol)
# define YY_REDUCE_PRINT(Rule) ((void) 0)
# define YY_STACK_PRINT() ((void) 0)
# define YYENTER() ((void) 0)
#endif

@if lac
@if plain
#define YYCALLED(kind) yysymbols[kind]
@else
@if verbose
#define YYCALLED(kind) yyunquoted (yytname[kind])
@else
#define YYCALLED(kind) yytname[kind]
@end
@end
/* The token is looked at from now on, or no longer. */
#if `DEBUG
# define YYLOOKED() \
  do \
    { \
      YYCDEBUG << "LAC: initial context established for " << yyla.name () << '\n'; \
      yylooked_ = true; \
    } \
  while (false)
# define YYUNLOOK(why) \
  do \
    { \
      if (yylooked_) \
        YYCDEBUG << "LAC: initial context discarded due to " why "\n"; \
      yylooked_ = false; \
    } \
  while (false)
# define YYLOGGED , yydebug_ ? yycdebug_ : YY_NULLPTR
#else
# define YYLOOKED() (yylooked_ = true)
# define YYUNLOOK(why) (yylooked_ = false)
# define YYLOGGED
#endif

/* Before the first action on a token: it is an error where the token can't be shifted after all
   that would be reduced before it. */
#define YYLOOK \
  do \
    if (!yylooked_) \
      { \
        YYLOOKED (); \
        if (!yycan_come (&yystates_.back (), static_cast<int> (yytoken) YYLOGGED)) \
          goto yyerrlab; \
      } \
  while (false)

@end
#define yyerrok (yyerrstatus_ = 0)
#define yyclearin (yyla.clear ())
#define YYACCEPT goto yyacceptlab
#define YYABORT goto yyabortlab
#define YYERROR goto yyerrorlab
#define YYRECOVERING() (!!yyerrstatus_)

/* Each step of the parser: its kind, and the kind of a symbol, a rule or a state that it is about.
   A token that is shifted: 's'; a rule that is reduced: 'r'; acceptance: 'a'; an error that is
   detected: 'e', and then a state that is popped: 'p', the shift of "error": 'x', a token that is
   discarded: 'd'; and 'f' where the parser gives up. */
#ifndef YYSTEP
# define YYSTEP(kind, number) ((void) 0)
#endif
"##;

/// What follows the tables, before the members: which symbol a token of the lexer is.
pub const TOKENS: &str = r##"
@if raw
@else
#ifndef YYSOUGHT
# define YYSOUGHT(c) YYNTOKENS
#endif
@end
/* The kind of the symbol that the lexer calls by this number. */
static inline int
yykind_of (int yynumber)
{
  if (yynumber <= 0)
    return 0;
@if raw
  return yynumber < YYNTOKENS ? yynumber : YYNTOKENS;
@else
  return yynumber <= YYMAXTOKEN ? static_cast<int> (yytranslate[yynumber]) : YYSOUGHT (yynumber);
@end
}

/* The class has a number of this name, which counts what is no token too. */
#undef YYNTOKENS
"##;
