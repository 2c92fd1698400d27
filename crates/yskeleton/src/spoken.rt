//! Messages for errors that a parser in C says by itself: their pieces as an array, and the fixed
//! texts that put them together.

use crate::arrays::put_array;
use crate::strings::{Escaped, put_string};
use std::alloc::Global;
use yexplain::reads::Made;
use yfiles::output::Output;
use ysymbols::let_go;

/// The most bytes of a text in one piece: so no string is longer than C90 promises to take.
const MOST_BYTES: usize = 100;

/// A part of a message.
#[derive(Clone, Copy)]
pub enum Spoken<'a> {
    /// A text.
    Text(&'a [u8]),
    /// The token that can't come, as 0, or an entry of the stack, counted from 1 at the top.
    Value(usize),
    /// The tokens that could come.
    Expected,
    /// The end.
    End,
}

/// The messages of a parser: their pieces as items of an array, and where those of each state
/// begin.
pub struct Speech {
    items: Output,
    /// How many items there are; the first one is the end of no message.
    count: usize,
    /// For each state the first item of its message; 0 where it has none.
    firsts: Vec<usize>,
}

impl Drop for Speech {
    // A call in each owner, which keeps their proofs short.
    fn drop(self) {
        let_go!(self: Speech { items, count, firsts });
    }
}

impl Speech {
    /// No message yet, for so many states.
    pub fn new(alloc: Global, states: usize) -> Made<Speech> {
        let mut speech = Speech {
            items: Output::new(alloc),
            count: 0,
            firsts: vec![in alloc; 0usize; states]?,
        };
        speech.add(Spoken::End);
        Ok(speech)
    }

    /// Begins the message of a state.
    pub fn begin(&mut self, state: usize) {
        if let Some(first) = self.firsts.get_mut(state) {
            *first = self.count;
        }
    }

    /// Adds a part to the message, a text in pieces.
    pub fn add(&mut self, part: Spoken<'_>) {
        let items = &mut self.items;
        match part {
            Spoken::Text(text) => {
                let mut rest = text;
                for _ in text {
                    let piece = rest.get(..MOST_BYTES).unwrap_or(rest);
                    if piece.is_empty() {
                        return;
                    }
                    items.put("  { \"");
                    put_string(items, piece, Escaped::Unprinted);
                    items.put("\", 0 },\n");
                    self.count = self.count.saturating_add(1);
                    rest = rest.get(piece.len()..).unwrap_or(&[]);
                }
                return;
            }
            Spoken::Value(number) => {
                items.put("  { YY_NULLPTR, ");
                items.number(number);
                items.put(" },\n");
            }
            Spoken::Expected => items.put("  { YY_NULLPTR, -1 },\n"),
            Spoken::End => items.put("  { YY_NULLPTR, -2 },\n"),
        }
        self.count = self.count.saturating_add(1);
    }

    /// Writes the arrays.
    pub(crate) fn put(&self, out: &mut Output) {
        out.put(PIECE);
        out.put("static const yypiece yypieces[] = {\n");
        out.put_output(&self.items);
        out.put("};\n");
        put_array(out, "yysaid", &self.firsts, self.count);
    }
}

/// What a piece of a message is.
const PIECE: &str = r##"
/* A piece of a message: a text; or, where it has none, the token (0), an entry of the stack from the
   top (1 ..), the tokens that could come (-1), or the end (-2). */
typedef struct
{
  const char *yytext;
  int yyvalue;
} yypiece;
"##;

/// How a message is put together.
pub const SPOKEN: &str = r##"
/* The tokens of an entry of the stack: how many, and the first 20. */
typedef struct
{
  int yycount;
  int yytokens[20];
} yyleaves;

/* What a message is about: the entry on top of the stack, how many there are, the wrong token, and
   those that could come. */
typedef struct
{
  const yyleaves *yytop;
  long yyentries;
  int yytoken;
  int yywanted;
  const int *yywants;
} yyplight;

/* An entry of one token. */
static void
yyleaf_of (yyleaves *yyp, int yytoken)
{
  yyp->yycount = 1;
  yyp->yytokens[0] = yytoken;
}

/* Makes one entry of so many on top of the stack: it has the tokens of all. */
static void
yyfold (yyleaves *yytop, int yylength)
{
  yyleaves *yyto = yytop + 1 - yylength;
  const yyleaves *yyfrom = yyto;
  int yyn;
  if (yylength == 0)
    yyto->yycount = 0;
  while (yyfrom < yytop)
    {
      ++yyfrom;
      for (yyn = 0; yyn < yyfrom->yycount && yyto->yycount <= 20; ++yyn)
        {
          if (yyto->yycount < 20)
            yyto->yytokens[yyto->yycount] = yyfrom->yytokens[yyn];
          ++yyto->yycount;
        }
    }
}

/* Copies a text to a place of another, unless that is null, and gives the place after it. */
static size_t
yyadd (char *yyto, size_t yyat, const char *yytext)
{
  size_t yylength = YYSTRLEN (yytext);
  if (yyto)
    YYMEMCPY (yyto + yyat, yytext, yylength + 1);
  return yyat + yylength;
}

/* The same of the tokens that could come: the first 20, and dots where there are more. */
static size_t
yyadd_expected (char *yyto, size_t yyat, const yyplight *yyp)
{
  int yyn;
  for (yyn = 0; yyn < yyp->yywanted && yyn < 20; ++yyn)
    {
      if (yyn != 0)
        yyat = yyadd (yyto, yyat, yyn + 1 == yyp->yywanted ? " or " : ", ");
      yyat = yyadd (yyto, yyat, yycalled[yyp->yywants[yyn]]);
    }
  return yyp->yywanted > 20 ? yyadd (yyto, yyat, ", ..") : yyat;
}

/* The same of the tokens of an entry of the stack. */
static size_t
yyadd_entry (char *yyto, size_t yyat, const yyleaves *yyp)
{
  int yyn;
  for (yyn = 0; yyn < yyp->yycount && yyn < 20; ++yyn)
    {
      if (yyn != 0)
        yyat = yyadd (yyto, yyat, " ");
      yyat = yyadd (yyto, yyat, yycalled[yyp->yytokens[yyn]]);
    }
  return yyp->yycount > 20 ? yyadd (yyto, yyat, " ..") : yyat;
}

/* The same of a piece; an entry of the stack that isn't there is nothing. */
static size_t
yyadd_piece (char *yyto, size_t yyat, const yypiece *yyp, const yyplight *yyabout)
{
  if (yyp->yytext)
    return yyadd (yyto, yyat, yyp->yytext);
  if (yyp->yyvalue < 0)
    return yyadd_expected (yyto, yyat, yyabout);
  if (yyp->yyvalue == 0)
    return yyadd (yyto, yyat, yycalled[yyabout->yytoken]);
  if (yyp->yyvalue > yyabout->yyentries)
    return yyat;
  return yyadd_entry (yyto, yyat, yyabout->yytop - (yyp->yyvalue - 1));
}

/* The same of the message that begins with a piece. */
static size_t
yyadd_all (char *yyto, const yypiece *yyp, const yyplight *yyabout)
{
  size_t yyat = 0;
  for (; yyp->yytext || yyp->yyvalue > -2; ++yyp)
    yyat = yyadd_piece (yyto, yyat, yyp, yyabout);
  return yyat;
}

/* That message, in memory of its own; null where there is none. */
static char *
yyspoken (const yypiece *yyp, const yyplight *yyabout)
{
  char *yymsg = YY_CAST (char *, YYMALLOC (yyadd_all (YY_NULLPTR, yyp, yyabout) + 1));
  if (yymsg)
    {
      *yymsg = '\0';
      (void) yyadd_all (yymsg, yyp, yyabout);
    }
  return yymsg;
}
"##;
