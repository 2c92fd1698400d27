//! The texts of a new language that are in C, `~` where its name stands.

/// The program.
pub const MAIN: &str = r#"/* Runs a text of ~: that of a file, or standard input. */
#include <stdio.h>
#include <stdlib.h>
#include "scan.h"

static const char *path = "-";
static int error_count;

/* The parser calls it for each error; it goes on after the next semicolon. */
void
yyerror (const char *message)
{
  fprintf (stderr, "%s:%d:%d: %s\n", path, token_line, token_column, message);
  error_count++;
}

/* All of a file. Where memory runs out or it can't be read, the program ends. */
static char *
read_all (FILE *file, size_t *length)
{
  size_t size = 0;
  char *text = NULL;

  *length = 0;
  do
    {
      size = size == 0 ? 4096 : 2 * size;
      text = realloc (text, size);
      if (text == NULL)
        {
          fprintf (stderr, "%s: no memory\n", path);
          exit (2);
        }
      *length += fread (text + *length, 1, size - *length, file);
    }
  while (*length == size);
  if (ferror (file))
    {
      perror (path);
      exit (2);
    }
  return text;
}

int
main (int argc, char **argv)
{
  FILE *file = stdin;
  char *text;
  size_t length;
  int failed;

  if (argc > 2)
    {
      fprintf (stderr, "usage: %s [file]\n", argv[0]);
      return 2;
    }
  if (argc == 2)
    {
      path = argv[1];
      file = fopen (path, "r");
      if (file == NULL)
        {
          perror (path);
          return 2;
        }
    }
  text = read_all (file, &length);
  scan_text (text, length);
  failed = yyparse () != 0 || error_count > 0;
  free (text);
  return failed;
}
"#;

/// The scanner.
pub const SCANNER: &str = r#"/* The scanner of ~. ~.lex says the same for ydebug: change both. */
#include <ctype.h>
#include <stdlib.h>
#include <string.h>
#include "scan.h"
#include "parser.h"

int token_line = 1, token_column = 1;

/* What is left of the text, and where its line begins. */
static const char *at, *end, *line_start;
static int line = 1;

/* The names of the text so far, each where it stands first. */
static struct { const char *start; size_t length; } names[MOST_NAMES];
static int name_count;

void
scan_text (const char *text, size_t length)
{
  at = line_start = text;
  end = text + length;
}

/* Whether a digit stands so many bytes ahead. */
static int
is_digit (int ahead)
{
  return end - at > ahead && isdigit ((unsigned char) at[ahead]);
}

/* Passes over blanks and comments. */
static void
pass_blanks (void)
{
  int is_comment = 0;

  for (; at < end; at++)
    if (*at == '\n')
      {
        is_comment = 0;
        line++;
        line_start = at + 1;
      }
    else if (*at == '#')
      is_comment = 1;
    else if (!is_comment && *at != ' ' && *at != '\t' && *at != '\r')
      break;
}

/* The number that stands ahead. */
static double
number (void)
{
  double value = 0, part = 1;

  while (is_digit (0))
    value = 10 * value + (*at++ - '0');
  if (at < end && *at == '.' && is_digit (1))
    for (at++; is_digit (0); at++)
      {
        part /= 10;
        value += part * (*at - '0');
      }
  return value;
}

/* The number of a name among all names of the text. */
static int
name_of (const char *start, size_t length)
{
  int i;

  for (i = 0; i < name_count; i++)
    if (names[i].length == length && memcmp (names[i].start, start, length) == 0)
      return i;
  if (name_count == MOST_NAMES)
    {
      yyerror ("there are too many names");
      exit (1);
    }
  names[name_count].start = start;
  names[name_count].length = length;
  return name_count++;
}

/* The next token; 0 at the end, which stands where the last token ends. */
int
yylex (void)
{
  const char *start;
  size_t length;
  int sign;

  token_line = line;
  token_column = (int) (at - line_start) + 1;
  pass_blanks ();
  if (at == end)
    return 0;
  token_line = line;
  token_column = (int) (at - line_start) + 1;
  if (is_digit (0))
    {
      yylval.number = number ();
      return NUMBER;
    }
  if (isalpha ((unsigned char) *at) || *at == '_')
    {
      start = at;
      while (at < end && (isalnum ((unsigned char) *at) || *at == '_'))
        at++;
      length = (size_t) (at - start);
      if (length == 5 && memcmp (start, "print", length) == 0)
        return PRINT;
      yylval.name = name_of (start, length);
      return NAME;
    }
  /* a sign is its own number; a byte of 0, which would mean the end, is no token */
  sign = (unsigned char) *at++;
  return sign != 0 ? sign : 1;
}
"#;

/// What the scanner, the parser and the program know of each other.
pub const HEADER: &str = r#"/* What the scanner, the parser and the program know of each other. */
#ifndef SCAN_H
#define SCAN_H

#include <stddef.h>

/* The most names of a text. */
enum { MOST_NAMES = 100 };

/* Where the last token begins: its line and its column in bytes, from 1. */
extern int token_line, token_column;

/* The text from which yylex takes tokens. It has to stay. */
void scan_text (const char *text, size_t length);

int yylex (void);
int yyparse (void);
void yyerror (const char *message);

#endif
"#;
