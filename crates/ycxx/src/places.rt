//! The fixed text in C++ of places in a file, `position` and `location`.

/// What the classes begin with, up to the type of the names of files.
pub const POSITION: &str = r##"
  /* A place in a file: the name of the file, and a line and a column, both counted from 1. */
  class position
  {
  public:
"##;

/// The classes after that type.
pub const LOCATION: &str = r##"
    typedef int counter_type;

    explicit position (filename_type *yyfile = YY_NULLPTR, counter_type yyline = 1,
                       counter_type yycolumn = 1)
      : filename (yyfile), line (yyline), column (yycolumn)
    {}

    void initialize (filename_type *yyfile = YY_NULLPTR, counter_type yyline = 1,
                     counter_type yycolumn = 1)
    {
      *this = position (yyfile, yyline, yycolumn);
    }

    /* Goes on by so many lines, to the first column. */
    void lines (counter_type yycount = 1)
    {
      if (yycount == 0)
        return;
      line = yymoved (line, yycount);
      column = 1;
    }

    /* Goes on by so many columns. */
    void columns (counter_type yycount = 1)
    {
      column = yymoved (column, yycount);
    }

    filename_type *filename;
    counter_type line;
    counter_type column;

  private:
    /* A number and another that may be below 0: their sum, but 1 at least. */
    static counter_type yymoved (counter_type yynumber, counter_type yycount)
    {
      return yynumber + yycount > 1 ? yynumber + yycount : 1;
    }
  };

  inline position &
  operator+= (position &yyplace, position::counter_type yycount)
  {
    yyplace.columns (yycount);
    return yyplace;
  }

  inline position
  operator+ (position yyplace, position::counter_type yycount)
  {
    return yyplace += yycount;
  }

  inline position &
  operator-= (position &yyplace, position::counter_type yycount)
  {
    return yyplace += -yycount;
  }

  inline position
  operator- (position yyplace, position::counter_type yycount)
  {
    return yyplace -= yycount;
  }

@if compares
  inline bool
  operator== (const position &yyone, const position &yyother)
  {
    return yyone.line == yyother.line && yyone.column == yyother.column
           && (yyone.filename == yyother.filename
               || (yyone.filename && yyother.filename && *yyone.filename == *yyother.filename));
  }

  inline bool
  operator!= (const position &yyone, const position &yyother)
  {
    return !(yyone == yyother);
  }

@end
  template <typename YYChar>
  std::basic_ostream<YYChar> &
  operator<< (std::basic_ostream<YYChar> &yyo, const position &yyplace)
  {
    if (yyplace.filename)
      yyo << *yyplace.filename << ':';
    return yyo << yyplace.line << '.' << yyplace.column;
  }

  /* What stands between two places: the first, and the one after the last. */
  class location
  {
  public:
    typedef position::filename_type filename_type;
    typedef position::counter_type counter_type;

    location (const position &yyfrom, const position &yyto)
      : begin (yyfrom), end (yyto)
    {}

    explicit location (const position &yyplace = position ())
      : begin (yyplace), end (yyplace)
    {}

    explicit location (filename_type *yyfile, counter_type yyline = 1, counter_type yycolumn = 1)
      : begin (yyfile, yyline, yycolumn), end (begin)
    {}

    void initialize (filename_type *yyfile = YY_NULLPTR, counter_type yyline = 1,
                     counter_type yycolumn = 1)
    {
      begin.initialize (yyfile, yyline, yycolumn);
      end = begin;
    }

    /* Begins where it ended. */
    void step ()
    {
      begin = end;
    }

    /* Ends so many columns further. */
    void columns (counter_type yycount = 1)
    {
      end.columns (yycount);
    }

    /* Ends so many lines further. */
    void lines (counter_type yycount = 1)
    {
      end.lines (yycount);
    }

    position begin;
    position end;
  };

  inline location &
  operator+= (location &yyplace, const location &yyother)
  {
    yyplace.end = yyother.end;
    return yyplace;
  }

  inline location
  operator+ (location yyplace, const location &yyother)
  {
    return yyplace += yyother;
  }

  inline location &
  operator+= (location &yyplace, location::counter_type yycount)
  {
    yyplace.columns (yycount);
    return yyplace;
  }

  inline location
  operator+ (location yyplace, location::counter_type yycount)
  {
    return yyplace += yycount;
  }

  inline location &
  operator-= (location &yyplace, location::counter_type yycount)
  {
    return yyplace += -yycount;
  }

  inline location
  operator- (location yyplace, location::counter_type yycount)
  {
    return yyplace -= yycount;
  }

@if compares
  inline bool
  operator== (const location &yyone, const location &yyother)
  {
    return yyone.begin == yyother.begin && yyone.end == yyother.end;
  }

  inline bool
  operator!= (const location &yyone, const location &yyother)
  {
    return !(yyone == yyother);
  }

@end
  /* Writes the first place and what of the last one differs from it. */
  template <typename YYChar>
  std::basic_ostream<YYChar> &
  operator<< (std::basic_ostream<YYChar> &yyo, const location &yyplace)
  {
    const position &yyfrom = yyplace.begin;
    const position &yyto = yyplace.end;
    location::counter_type yylast = yyto.column > 0 ? yyto.column - 1 : 0;
    bool yyleaves = yyto.filename && (!yyfrom.filename || *yyfrom.filename != *yyto.filename);
    yyo << yyfrom;
    if (yyleaves)
      yyo << '-' << *yyto.filename << ':' << yyto.line << '.' << yylast;
    else if (yyfrom.line < yyto.line)
      yyo << '-' << yyto.line << '.' << yylast;
    else if (yyfrom.column < yylast)
      yyo << '-' << yylast;
    return yyo;
  }
"##;

/// What the file of the places includes.
pub const INCLUDED: &str = r##"
#include <iostream>
#include <string>

#ifndef YY_NULLPTR
# define YY_NULLPTR nullptr
#endif
"##;
