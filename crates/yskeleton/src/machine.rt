//! The machine in C that reads the tables of a parser, after what `begin` has. It is C90 and C++,
//! and makes the steps of docs/FORMATS.md, "Steps by a table". Lines that begin with `@` are
//! conditions: `template` knows them.

/// The machine up to the actions.
pub const MACHINE: &str = r##"
@if locations
@if push
@pure   if (yypushed_loc)
@pure     *yylsp = *yypushed_loc;
@shared   *yylsp = yypushed_loc;
@else
  *yylsp = yylloc;
@end
@end
@bison   YYENTER ();
  if (yyssp == yysslast)
    goto yygrow;

yyloop:
  if (yyset[yystate] == 0)
    {
      yyn = yyusual[yystate];
      goto yyreduce;
    }
  if (yychar == YYNOTOKEN)
    {
@recalls       yylooked = 0;
@if push
      if (!yyps->yynew)
        {
          YYTRACE ((stderr, "Return for a new token:\n"));
          yyresult = YYPUSH_MORE;
          goto yypushreturn;
        }
      yyps->yynew = 0;
@if shared
      yychar = yypushed_char;
      yylval = yypushed_val;
@locations       yylloc = yypushed_loc;
@end
yyread_pushed_token:
      YYTRACE ((stderr, "Reading a token\n"));
@if pure
      yychar = yypushed_char;
      if (yypushed_val)
        yylval = *yypushed_val;
@if locations
      if (yypushed_loc)
        yylloc = *yypushed_loc;
@end
@end
@else
@bison       YYTRACE ((stderr, "Reading a token\n"));
      yychar = YYLEX;
@end
      if (yychar < 0)
        yychar = YYENDTOKEN;
@if bison
@else
      YYTRACE ((stderr, "%sdebug: state %u, reading %d (%s)\n", YYPREFIX, yystate, yychar,
                YYNAME (yychar)));
@end
    }
  yytoken = YY_CAST (unsigned, YYTRANSLATE (yychar));
  if (yytoken == YYERRTOKEN)
    {
      /* the lexer has told of the error itself */
      yychar = YYNOSYMBOL;
@locations       yyerror_range[1] = yylloc;
      goto yyrecover;
    }
@if bison
  if (yychar == YYENDTOKEN)
    YYTRACE ((stderr, "Now at end of input.\n"));
  else
    YYSHOW ("Next token is", YY_CAST (int, yytoken), &yylval, &yylloc);
@end
  yyn = yyrow[yystate] + yytoken;
  if (yycheck[yyn] != yytoken)
    {
@lac       YYLOOK;
      /* Rule 0 is never reduced: a state without reductions has it. */
      yyn = yyusual[yystate];
      if (yyn == 0 || !YYMEMBER (yystate, yytoken))
        goto yyerrlab;
@recalls       YYLOOK;
      goto yyreduce;
    }
  yyn = yyvalue[yyn];
  if (yyn >= YYNSTATES)
    {
      yyn -= YYNSTATES;
@if lac
      if (yyn == YYNRULES && !YYMEMBER (yystate, YYNTOKENS))
        YYLOOK;
@end
      if (yyn == YYNRULES)
        goto yyerrlab;
      if (yyn != 0)
@if looks
        {
          YYLOOK;
          goto yyreduce;
        }
@else
        goto yyreduce;
@end
@if bison
      /* The end is an entry of bison's stack. */
      YYSHOW ("Shifting", 0, &yylval, &yylloc);
      *++yyvsp = yylval;
@locations       *++yylsp = yylloc;
      yychar = YYNOTOKEN;
@lac       YYUNLOOK ("shift");
      *++yyssp = YY_CAST (yystate_number, YYNSTATES);
      YYENTER ();
      if (yyssp == yysslast)
        goto yygrow;
@end
      YYSTEP ('a', 0);
      YYACCEPT;
    }
@if bison
  YYSHOW ("Shifting", YY_CAST (int, yytoken), &yylval, &yylloc);
@else
  YYTRACE ((stderr, "%sdebug: state %u, shifting to state %u\n", YYPREFIX, yystate, yyn));
@prints   YYSHOW ("shifted", YY_CAST (int, yytoken), &yylval, &yylloc);
@end
  YYSTEP ('s', yychar);
  if (yyerrflag > 0)
    --yyerrflag;
  yychar = YYNOTOKEN;
@lac   YYUNLOOK ("shift");
@recalls   yylooked = 0;
  yystate = yyn;
@speaks   yyleaf_of (yyleaf + (yyssp - yyss) + 1, YY_CAST (int, yytoken));
  *++yyvsp = yylval;
@locations   *++yylsp = yylloc;

yypush:
  *++yyssp = YY_CAST (yystate_number, yystate);
@bison   YYENTER ();
  if (yyssp == yysslast)
    goto yygrow;
  goto yyloop;

yyreduce:
@if bison
@else
  YYTRACE ((stderr, "%sdebug: state %u, reducing by rule %u (%s)\n", YYPREFIX, yystate, yyn,
            yyrule[yyn]));
@end
  YYSTEP ('r', YY_CAST (int, yyn));
  yym = yylen[yyn];
  if (yym > 0)
    yyval = *(yyvsp - yym + 1);
  else
    YYMEMSET (YY_CAST (void *, &yyval), 0, sizeof yyval);
@if locations
  YYLLOC_DEFAULT (yyloc, (yylsp - yym), YY_CAST (int, yym));
  yyerror_range[1] = yyloc;
@end
@speaks   yyfold (yyleaf + (yyssp - yyss), YY_CAST (int, yym));
@bison   YYREDUCED (yyn);
@lac   yybefore = yychar;
  switch (yyn)
    {
"##;

/// The machine after the actions.
pub const END: &str = r##"
    default:
      break;
    }
@if lac
  if (yybefore != yychar)
    YYUNLOOK ("yychar change");
@end
@bison   YYSHOW ("-> $$ =", YYNTOKENS + 1 + yylhs[yyn], &yyval, &yyloc);
  YYPOPSTACK (yym);
  *++yyvsp = yyval;
@locations   *++yylsp = yyloc;
  yym = yylhs[yyn];
  YYGOTO (yystate, *yyssp, yym);
@if bison
@else
@prints   YYSHOW ("made", yystos[yystate], &yyval, &yyloc);
@end
@cleans   yym = 0;
  goto yypush;

yygrow:
  {
    size_t yyused = YY_CAST (size_t, yyssp - yyss) + 1;
    yystate_number *yynewss;
    YYSTYPE *yynewvs;
@locations     YYLTYPE *yynewls;
@speaks     yyleaves *yynewleaf;

@cleans     yym = 0;
    if (yydepth >= YYMAXDEPTH)
@if bison
      YYNOMEM;
@else
      goto yyoverflow;
@end
    yydepth = yydepth > YYMAXDEPTH / 2 ? YYMAXDEPTH : yydepth * 2;
    yynewss = YY_CAST (yystate_number *, YYMALLOC (YYROOM (yydepth) * sizeof *yynewss));
    if (!yynewss)
      YYNOMEM;
    yynewvs = YY_CAST (YYSTYPE *, YYMALLOC (YYROOM (yydepth) * sizeof *yynewvs));
    if (!yynewvs)
      {
        YYFREE (yynewss);
        YYNOMEM;
      }
@if locations
    yynewls = YY_CAST (YYLTYPE *, YYMALLOC (YYROOM (yydepth) * sizeof *yynewls));
    if (!yynewls)
      {
        YYFREE (yynewss);
        YYFREE (yynewvs);
        YYNOMEM;
      }
    YYMEMCPY (YY_CAST (void *, yynewls), YY_CAST (const void *, yyls), yyused * sizeof *yynewls);
@end
@if speaks
    yynewleaf = YY_CAST (yyleaves *, YYMALLOC (YYROOM (yydepth) * sizeof *yynewleaf));
    if (!yynewleaf)
      {
        YYFREE (yynewss);
        YYFREE (yynewvs);
@locations         YYFREE (yynewls);
        YYNOMEM;
      }
    YYMEMCPY (yynewleaf, yyleaf, yyused * sizeof *yynewleaf);
@end
    YYMEMCPY (yynewss, yyss, yyused * sizeof *yynewss);
    YYMEMCPY (YY_CAST (void *, yynewvs), YY_CAST (const void *, yyvs), yyused * sizeof *yynewvs);
    if (yyss != yyssa)
      {
        YYFREE (yyss);
        YYFREE (yyvs);
@locations         YYFREE (yyls);
@speaks         YYFREE (yyleaf);
      }
    yyss = yynewss;
    yyvs = yynewvs;
@speaks     yyleaf = yynewleaf;
    yyssp = yyss + yyused - 1;
    yysslast = yyss + YYROOM (yydepth) - 1;
    yyvsp = yyvs + yyused - 1;
@if locations
    yyls = yynewls;
    yylsp = yyls + yyused - 1;
@end
  }
@if bison
  YYTRACE ((stderr, "Stack size increased to %ld\n", YY_CAST (long, yydepth)));
  if (*yyssp == YYNSTATES)
    {
      YYSTEP ('a', 0);
      YYACCEPT;
    }
@end
  goto yyloop;

@if bison
yybackup:
  if (0)
    goto yybackup; /* so the label is used */
  yym = 0;
  goto yyloop;

@end
yyerrlab:
@locations   yyerror_range[1] = yylloc;
  if (yyerrflag == 3)
    {
      if (yychar == YYENDTOKEN)
        {
          YYSTEP ('f', 0);
          YYABORT;
        }
@if bison
      YYSHOW ("Error: discarding", YY_CAST (int, yytoken), &yylval, &yylloc);
@else
      YYTRACE ((stderr, "%sdebug: state %u, error recovery discards token %d (%s)\n", YYPREFIX,
                yystate, yychar, YYNAME (yychar)));
@end
      YYSTEP ('d', yychar);
@if locations
@if bison
@if again
@else
      if (yyerrdepth == YY_CAST (size_t, yyssp - yyss))
        {
          yyerror_range[1] = *yylsp;
          yyerror_range[2] = yylloc;
          YYLLOC_DEFAULT (*yylsp, yyerror_range, 2);
        }
@end
@end
@end
@destroys       YYDESTRUCT (YY_CAST (int, yytoken), &yylval, &yylloc);
      yychar = YYNOTOKEN;
@if again
      goto yyrecover;
@else
      goto yyloop;
@end
    }
  YYSTEP ('e', yychar);
  if (yyerrflag == 0)
    {
@bison       ++yynerrs;
@if lac
@if asks
#if YYDEBUG
      if (!yylooked)
        {
          YYLOOKED ();
          (void) yycan_come (yyssp, YY_CAST (int, yytoken));
        }
#endif
@end
@end
@if speaks
      if (yysaid[yystate] != 0)
        {
          yyplight yyabout;
          char *yymsg;
@recalls           if (!yylooked || yywanted < 0)
            yywanted = yyexpected (yyssp, YY_CAST (int, yytoken), yywants, YYNTOKENS);
          yyabout.yytop = yyleaf + (yyssp - yyss);
          yyabout.yyentries = YY_CAST (long, yyssp - yyss);
          yyabout.yytoken = YY_CAST (int, yytoken);
          yyabout.yywanted = yywanted;
          yyabout.yywants = yywants;
          yymsg = yyspoken (yypieces + yysaid[yystate], &yyabout);
          YYERROR_CALL (yymsg ? yymsg : YY_("syntax error"));
          if (!yymsg)
            YYNOMEM;
          YYFREE (yymsg);
        }
      else
@end
@if expecting
      {
        char yyroom[128];
        char *yymsg = yysyntax_error (yyroom, sizeof yyroom, yyssp, YY_CAST (int, yytoken));
        YYERROR_CALL (yymsg ? yymsg : YY_("syntax error"));
        if (!yymsg)
          YYNOMEM;
        if (yymsg != yyroom)
          YYFREE (yymsg);
      }
@else
@if custom
      {
        yypcontext_t yycontext;
        (void) yypcontext_expected_tokens;
        (void) yysymbol_name;
        yycontext.yytop = yyssp;
        yycontext.yytoken = YY_CAST (yysymbol_kind_t, yytoken);
@locations         yycontext.yylloc = &yylloc;
        if (YYREPORT (&yycontext) == 2)
          YYNOMEM;
      }
@else
      YYERROR_CALL (YY_("syntax error"));
@end
@end
@if bison
@else
      ++yynerrs;
@end
    }
  goto yyrecover;

yyerrorlab:
  if (0)
    YYERROR; /* so the label is used */
  ++yynerrs;
  yym = yylen[yyn];
  YYPOPSTACK (yym);
@cleans   yym = 0;
@bison   YYSTACK ();
  yystate = *yyssp;

yyrecover:
  yyerrflag = 3;
  for (;;)
    {
      yyn = yyrow[yystate] + YYERRTOKEN;
      if (yycheck[yyn] == YYERRTOKEN && (yyn = yyvalue[yyn]) < YYNSTATES)
        break;
      if (yyssp == yyss)
        {
          YYSTEP ('f', 0);
          YYABORT;
        }
@if bison
      YYSHOW ("Error: popping", yystos[yystate], yyvsp, yylsp);
@else
      YYTRACE ((stderr, "%sdebug: error recovery discarding state %u\n", YYPREFIX, yystate));
@end
      YYSTEP ('p', YY_CAST (int, yystate));
@locations       yyerror_range[1] = *yylsp;
@destroys       YYDESTRUCT (yystos[yystate], yyvsp, yylsp);
      YYPOPSTACK (1);
      yystate = *yyssp;
@bison       YYSTACK ();
    }
@if bison
@else
  YYTRACE ((stderr, "%sdebug: state %u, error recovery shifting to state %u\n", YYPREFIX, yystate,
            yyn));
@end
  YYSTEP ('x', YY_CAST (int, yyn));
@lac   YYUNLOOK ("error recovery");
@recalls   yylooked = 0;
  yystate = yyn;
@speaks   yyleaf_of (yyleaf + (yyssp - yyss) + 1, YYERRTOKEN);
  *++yyvsp = yylval;
@if locations
  yyerror_range[2] = yylloc;
  YYLLOC_DEFAULT (yyloc, yyerror_range, 2);
  *++yylsp = yyloc;
@if bison
@if again
@else
  yyerrdepth = YY_CAST (size_t, yyssp - yyss) + 1;
@end
@end
@end
@bison   YYSHOW ("Shifting", YYERRTOKEN, yyvsp, yylsp);
  goto yypush;

yyaccept:
  yyresult = 0;
  goto yyreturn;

yyabort:
  yyresult = 1;
  goto yyreturn;

@if bison
@else
yyoverflow:
  YYERROR_CALL ("yacc stack overflow");
  yyresult = 2;
  goto yyreturn;

@end
yynomem:
  YYERROR_CALL (YY_("memory exhausted"));
  yyresult = 2;

yyreturn:
@idle #if YYDEBUG
@if cleans
  if (yychar != YYNOTOKEN)
    {
      yytoken = YY_CAST (unsigned, YYTRANSLATE (yychar));
@bison       YYSHOW ("Cleanup: discarding lookahead", YY_CAST (int, yytoken), &yylval, &yylloc);
@destroys       YYDESTRUCT (YY_CAST (int, yytoken), &yylval, &yylloc);
    }
  /* The symbols of a rule whose action ended the parse are that action's. */
  YYPOPSTACK (yym);
@bison   YYSTACK ();
  while (yyssp != yyss)
    {
@bison       YYSHOW ("Cleanup: popping", yystos[*yyssp], yyvsp, yylsp);
@destroys       YYDESTRUCT (yystos[*yyssp], yyvsp, yylsp);
      YYPOPSTACK (1);
    }
@end
@idle #endif
@if push
  yyps->yynew = 2;

yypushreturn:
@else
  if (yyss != yyssa)
    {
      YYFREE (yyss);
      YYFREE (yyvs);
@locations       YYFREE (yyls);
@speaks       YYFREE (yyleaf);
    }
@end
  return yyresult;
}
"##;
