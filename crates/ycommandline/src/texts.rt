//! The texts of a new language, `~` where its name stands, but for those in C.

use crate::sources::{HEADER, MAIN, SCANNER};

/// What version control leaves out.
const IGNORED: &str = r#"/build/
"#;

/// What builds the parser, and tries it.
const MAKEFILE: &str = "\
    # make            builds build/~\n\
    # make check      tries the grammar and the program on the inputs in tests\n\
    # make conflicts  explains the conflicts of the grammar\n\
    # make clean      removes what was built\n\
    CC = cc\n\
    CFLAGS = -O2 -Wall -Wextra\n\
    YCC = ycc\n\
    YDEBUG = ydebug\n\
    MESSAGES = --lex ~.lex --messages ~.messages\n\
    \n\
    .SUFFIXES:\n\
    .PHONY: all check conflicts clean\n\
    \n\
    all: build/~\n\
    \n\
    build/~: main.c scan.c scan.h build/parser.c\n\
    \t$(CC) $(CFLAGS) -I. -Ibuild -o $@ main.c scan.c build/parser.c\n\
    \n\
    build/parser.c: ~.y ~.lex ~.messages\n\
    \tmkdir -p build\n\
    \t$(YCC) -d -o $@ $(MESSAGES) ~.y\n\
    \n\
    check: all\n\
    \t$(YDEBUG) test ~.y tests $(MESSAGES)\n\
    \t@for input in tests/good/*.txt; do \\\n\
    \t  build/~ $$input > build/out || exit 1; \\\n\
    \tdone\n\
    \t@for input in tests/bad/*.txt; do \\\n\
    \t  if build/~ $$input > build/out 2> build/err; then \\\n\
    \t    echo \"build/~ accepts $$input\"; exit 1; \\\n\
    \t  fi; \\\n\
    \t  place='*'; expect=$${input%.txt}.expect; \\\n\
    \t  if test -f $$expect; then place=`sed 1q $$expect`; fi; \\\n\
    \t  case `sed 1q build/err` in \\\n\
    \t    $$input:$$place:*) ;; \\\n\
    \t    *) echo \"build/~ finds no error at $$place:\"; cat build/err; exit 1;; \\\n\
    \t  esac; \\\n\
    \tdone\n\
    \t@echo \"build/~ agrees\"\n\
    \n\
    conflicts:\n\
    \t$(YDEBUG) conflicts ~.y\n\
    \n\
    clean:\n\
    \trm -rf build\n";

/// What is where.
const README: &str = r#"# ~

A language to begin with: `width = 3;`, `print 2 * (width + 4);`.

- `make` builds `build/~`, and `make check` tries it; `make conflicts` explains conflicts.
- `~.y`: the grammar, for `ycc`. `scan.c`: the scanner; `~.lex` says the same for `ydebug`.
- `~.messages`: what is said of errors. `ydebug errors ~.y --lex ~.lex --messages ~.messages
  --update` adds those that are new after a change of the grammar.
- `tests`: inputs that are accepted, in `good`, and others, in `bad`. `X.expect` says where
  `X.txt` is rejected, as `2:1`, and after that line the message, where that counts.
"#;

/// How tokens look, for `ydebug`.
const SPEC: &str =
    r#"# How tokens look, for ydebug; scan.c says the same in C. Signs stand for themselves.
%skip  [ \t\r\n]+
%skip  #[^\n]*
PRINT  print
NAME   [A-Za-z_][A-Za-z_0-9]*
NUMBER [0-9]+(\.[0-9]+)?
"#;

/// What is said of errors.
const MESSAGES: &str = r#"## ~.y: an error can be detected in 18 of 27 states.
## A block has texts whose last token is the error, an empty line, a message.
## In a message $0 is that token, $1, $2 .. are the entries of the stack from the
## top, $expected the tokens that could come. Lines with ## are written anew.

1
## tokens   NUMBER
## state 1
##   $accept: program . $end
##   program: program . statement
## stack    $1=program
## expected $end NAME PRINT

A statement begins with a name or print, not with $0.

a a
## tokens   NAME NAME
## state 3
##   statement: NAME . '=' sum ';'
## stack    $2=program $1=NAME
## expected '='

After the name $1 comes =, not $0.

print print
## tokens   PRINT PRINT
## state 4
##   statement: PRINT . sum ';'
## stack    $2=program $1=PRINT
## expected NUMBER NAME '-' '('
a = +
## tokens   NAME '=' '+'
## state 7
##   statement: NAME '=' . sum ';'
## stack    $3=program $2=NAME $1='='
print - *
## tokens   PRINT '-' '*'
## state 10
##   sum: '-' . sum
## stack    $3=program $2=PRINT $1='-'
print ( /
## tokens   PRINT '(' '/'
## state 11
##   sum: '(' . sum ')'
## stack    $3=program $2=PRINT $1='('
print 1 + )
## tokens   PRINT NUMBER '+' ')'
## state 16
##   sum: sum '+' . sum
## stack    $4=program $3=PRINT $2=sum $1='+'
print 1 - print
## tokens   PRINT NUMBER '-' PRINT
## state 17
##   sum: sum '-' . sum
## stack    $4=program $3=PRINT $2=sum $1='-'
print 1 * +
## tokens   PRINT NUMBER '*' '+'
## state 18
##   sum: sum '*' . sum
## stack    $4=program $3=PRINT $2=sum $1='*'
print 1 / *
## tokens   PRINT NUMBER '/' '*'
## state 19
##   sum: sum '/' . sum
## stack    $4=program $3=PRINT $2=sum $1='/'

A number, a name or a parenthesis is missing before $0.

print 1 =
## tokens   PRINT NUMBER '='
## state 12
##   statement: PRINT sum . ';'
##   sum: sum . '+' sum
##   sum: sum . '-' sum
##   sum: sum . '*' sum
##   sum: sum . '/' sum
## stack    $3=program $2=PRINT $1=sum
## expected '+' '-' '*' '/' ';'
a = 1 (
## tokens   NAME '=' NUMBER '('
## state 13
##   statement: NAME '=' sum . ';'
##   sum: sum . '+' sum
##   sum: sum . '-' sum
##   sum: sum . '*' sum
##   sum: sum . '/' sum
## stack    $4=program $3=NAME $2='=' $1=sum
print - 1 $end
## tokens   PRINT '-' NUMBER $end
## state 14
##   sum: sum . '+' sum
##   sum: sum . '-' sum
##   sum: sum . '*' sum
##   sum: sum . '/' sum
##   sum: '-' sum .
## stack    $4=program $3=PRINT $2='-' $1=sum
print 1 + 1 1
## tokens   PRINT NUMBER '+' NUMBER NUMBER
## state 23
##   sum: sum . '+' sum
##   sum: sum '+' sum .
##   sum: sum . '-' sum
##   sum: sum . '*' sum
##   sum: sum . '/' sum
## stack    $5=program $4=PRINT $3=sum $2='+' $1=sum
print 1 - 1 a
## tokens   PRINT NUMBER '-' NUMBER NAME
## state 24
##   sum: sum . '+' sum
##   sum: sum . '-' sum
##   sum: sum '-' sum .
##   sum: sum . '*' sum
##   sum: sum . '/' sum
## stack    $5=program $4=PRINT $3=sum $2='-' $1=sum
print 1 * 1 =
## tokens   PRINT NUMBER '*' NUMBER '='
## state 25
##   sum: sum . '+' sum
##   sum: sum . '-' sum
##   sum: sum . '*' sum
##   sum: sum '*' sum .
##   sum: sum . '/' sum
## stack    $5=program $4=PRINT $3=sum $2='*' $1=sum
print 1 / 1 (
## tokens   PRINT NUMBER '/' NUMBER '('
## state 26
##   sum: sum . '+' sum
##   sum: sum . '-' sum
##   sum: sum . '*' sum
##   sum: sum . '/' sum
##   sum: sum '/' sum .
## stack    $5=program $4=PRINT $3=sum $2='/' $1=sum

After $1 comes a sign or a semicolon, not $0.

print ( 1 ;
## tokens   PRINT '(' NUMBER ';'
## state 15
##   sum: sum . '+' sum
##   sum: sum . '-' sum
##   sum: sum . '*' sum
##   sum: sum . '/' sum
##   sum: '(' sum . ')'
## stack    $4=program $3=PRINT $2='(' $1=sum
## expected '+' '-' '*' '/' ')'

The parenthesis before $1 is open: $0 can't come before ).

## no error, since they reduce by one rule always: 0 5 6 8 9 20 21 22
## no error, since no parse comes there without one: 2
"#;

/// The grammar.
const GRAMMAR: &str =
    r#"/* ~: settings, and what is printed of them. Let it grow into your language. */
%{
#include <stdio.h>
#include "scan.h"

/* The value of each name, 0 before it is set. */
static double values[MOST_NAMES];
%}

%union {
  double number;
  int name;
}

%token <number> NUMBER
%token <name> NAME
%token PRINT
%type <number> sum

/* The lower a line, the closer its signs bind. SIGN is no token, but the place of a minus. */
%left '+' '-'
%left '*' '/'
%right SIGN

%%

program
    : program statement
    |
    ;

statement
    : NAME '=' sum ';'          { values[$1] = $3; }
    | PRINT sum ';'             { printf ("%g\n", $2); }
    | error ';'                 { yyerrok; }
    ;

sum
    : NUMBER
    | NAME                      { $$ = values[$1]; }
    | sum '+' sum               { $$ = $1 + $3; }
    | sum '-' sum               { $$ = $1 - $3; }
    | sum '*' sum               { $$ = $1 * $3; }
    | sum '/' sum               { $$ = $1 / $3; }
    | '-' sum %prec SIGN        { $$ = -$2; }
    | '(' sum ')'               { $$ = $2; }
    ;
"#;

/// The folders of a language, each after the one that holds it.
pub const FOLDERS: [&str; 4] = ["~", "~/tests", "~/tests/bad", "~/tests/good"];

/// The files of a language: the path of each, and its text.
pub const FILES: [(&str, &str); 26] = [
    ("~/.gitignore", IGNORED),
    ("~/Makefile", MAKEFILE),
    ("~/README.md", README),
    ("~/main.c", MAIN),
    ("~/scan.c", SCANNER),
    ("~/scan.h", HEADER),
    ("~/~.lex", SPEC),
    ("~/~.messages", MESSAGES),
    ("~/~.y", GRAMMAR),
    (
        "~/tests/bad/end.expect",
        "1:8\nAfter 1 comes a sign or a semicolon, not end of input.\n",
    ),
    ("~/tests/bad/end.txt", "print 1\n"),
    (
        "~/tests/bad/name.expect",
        "1:7\nAfter the name width comes =, not 3.\n",
    ),
    ("~/tests/bad/name.txt", "width 3;\n"),
    (
        "~/tests/bad/open.expect",
        "1:13\nThe parenthesis before 1 + 2 is open: ; can't come before ).\n",
    ),
    ("~/tests/bad/open.txt", "print (1 + 2;\n"),
    (
        "~/tests/bad/semicolon.expect",
        "2:1\nAfter 3 comes a sign or a semicolon, not print.\n",
    ),
    ("~/tests/bad/semicolon.txt", "width = 3\nprint width;\n"),
    ("~/tests/bad/sign.expect", "2:13\n"),
    ("~/tests/bad/sign.txt", "width = 3;\nprint width $ 2;\n"),
    (
        "~/tests/bad/statement.expect",
        "1:1\nA statement begins with a name or print, not with 3.\n",
    ),
    ("~/tests/bad/statement.txt", "3 = width;\n"),
    (
        "~/tests/bad/sum.expect",
        "1:9\nA number, a name or a parenthesis is missing before *.\n",
    ),
    ("~/tests/bad/sum.txt", "width = * 3;\n"),
    ("~/tests/good/empty.txt", "# Nothing but a comment.\n"),
    (
        "~/tests/good/settings.txt",
        "# A name has the value that was set last, and 0 before.\n\
         width = 3;\n\
         height = width + 1.5;\n\
         print width * height;\n\
         width = width - 1; print width;\n",
    ),
    (
        "~/tests/good/signs.txt",
        "print 1 + 2 * 3;\nprint (1 + 2) * 3;\nprint -2 * -3 - 1;\nprint 8 / 4 / 2;\n",
    ),
];
