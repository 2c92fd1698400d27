//! `ydebug cover`: what inputs use of the tables of a grammar, and what none of them uses.

use crate::given::Given;
use std::alloc::{AllocError, Global};
use std::io::{self, Read, Write};
use std::rt::Files;
use yfaults::opening::Opened;
use yfiles::reading::Limited;
use yinput::language::{Input, Language, LanguageFiles};
use yinput::verdict::{Verdict, verdict_on};
use ysentences::elements::Elements;
use ysentences::walk::{Listed, put_report, walk_all};

/// What is asked for: what inputs use.
#[derive(Clone, Copy)]
pub struct Asked<'a> {
    /// The files of their language.
    pub files: LanguageFiles<'a>,
    /// The paths of the inputs; `-` is standard input.
    pub inputs: &'a [&'a str],
    /// The most bytes of an input.
    pub most: u64,
    /// What is listed beside rules.
    pub listed: Listed,
    /// Whether what isn't used makes the status 1.
    pub strict: bool,
}

/// The inputs that were read, and the exit status that the others give.
#[derive(Drop)]
struct Inputs {
    read: Vec<Input>,
    status: u8,
}

/// Writes what parses over inputs use, and says whether that is all.
fn put_uses<W: Write>(
    alloc: Global,
    out: &mut W,
    opened: Opened,
    inputs: &[Input],
    listed: Listed,
) -> io::Result<bool> {
    let Opened { tables, lines } = opened;
    let walked = walk_all(alloc, tables, inputs)?;
    let elements = Elements {
        tables: &walked.tables,
        lines: &lines,
        cells: &walked.cells,
    };
    put_report(out, elements, &walked.uses, listed)
}

impl<F: Files + AllocGlobal, R: Read, E: Write> Given<'_, F, R, E> {
    /// Reads all inputs. Where there is none, or one isn't accepted, that is written.
    fn read_all<W: Write>(
        &mut self,
        asked: &Asked<'_>,
        language: &Language,
        out: &mut W,
    ) -> io::Result<Inputs> {
        let mut inputs = Inputs {
            read: Vec::new(self.rt.alloc()),
            status: 0,
        };
        let most = asked.most;
        for path in asked.inputs {
            match self.read_input(language, Limited { path, most })? {
                Ok(input) => {
                    let alloc = self.rt.alloc();
                    let verdict = verdict_on(alloc, &language.opened.tables, &input.tokens)?;
                    if !matches!(verdict, Verdict::Accepted(_)) {
                        verdict.put(alloc, out, language.spoken(), (path, &input), None)?;
                    }
                    inputs.read.push(input).map_err(AllocError::from)?;
                }
                Err(fault) => {
                    let status = fault.put(self.rt, out, asked.files.grammar, &language.opened)?;
                    inputs.status = status.max(inputs.status);
                }
            }
        }
        Ok(inputs)
    }

    /// Writes what is asked for, and gives the exit status: 0; 1 where the grammar, the SPEC or an
    /// input is refused, or where something isn't used and that is to count; 3 where a file can't
    /// be read, or memory runs out. Faults of the grammar and of the SPEC are reported as errors.
    pub fn run_cover<W: Write>(&mut self, asked: &Asked<'_>, out: &mut W) -> io::Result<u8> {
        let language = match Language::open(self.rt, asked.files, &mut self.errors)? {
            Ok(language) => language,
            Err(status) => return Ok(status),
        };
        let Inputs { read, status } = self.read_all(asked, &language, out)?;
        let Language { opened, .. } = language;
        let is_all = put_uses(self.rt.alloc(), out, opened, &read, asked.listed)?;
        Ok(if asked.strict && !is_all {
            status.max(1)
        } else {
            status
        })
    }
}
