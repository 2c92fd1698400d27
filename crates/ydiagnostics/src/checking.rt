//! `ydebug check` for programs.

use crate::document::Said;
use crate::format::Format;
use crate::inputs::{InputSheet, answer_of};
use crate::late::Defaults;
use std::alloc::{AllocError, Global};
use std::io::{self, Read, Write};
use std::rt::Files;
use yfiles::category::Categories;
use yfiles::diagnostic::{Diagnostics, Severity};
use yfiles::reading::{Limited, all_bytes};
use yinput::language::{Input, LanguageFiles};
use yinput::verdict::{Verdict, verdict_on};
use ymessages::messaged::Messaged;

/// What is asked for: verdicts on inputs.
#[derive(Clone, Copy)]
pub struct Asked<'a> {
    /// The files of their language.
    pub files: LanguageFiles<'a>,
    /// The paths of the inputs; `-` is standard input.
    pub inputs: &'a [&'a str],
    /// The path of the file of messages, where one is given.
    pub messages: Option<&'a str>,
    /// The most bytes of an input.
    pub most: u64,
    /// Whether all errors of an input are said that the grammar recovers from.
    pub all: bool,
    /// Which warnings are shown.
    pub shown: Categories,
    /// The form of what is said.
    pub format: Format,
}

/// All bytes of a file, or of standard input where the path is a dash; `None` where there are
/// more than it may have.
pub fn bytes_of<F: Files + AllocGlobal, R: Read>(
    rt: &F,
    input: &mut R,
    file: Limited<'_>,
) -> io::Result<Option<Vec<u8>>> {
    match file.path {
        "-" => all_bytes(rt.alloc(), input, file.most),
        _ => file.bytes(rt),
    }
}

/// An input that is rejected, and its bytes.
type Rejected = (Input, Vec<u8>);

impl Asked<'_> {
    /// What is said of an input, the exit status where nothing else is said, and the input, where it
    /// has further errors to be said.
    fn take<F: Files + AllocGlobal, R: Read>(
        &self,
        rt: &F,
        stdin: &mut R,
        (messaged, told, defaults): (&Messaged, &mut Diagnostics, &mut Defaults),
        path: &str,
    ) -> io::Result<(InputSheet, u8, Option<Rejected>)> {
        let (alloc, most) = (rt.alloc(), self.most);
        let file = Limited { path, most };
        let bytes = bytes_of(rt, stdin, file);
        let source = match &bytes {
            Ok(Some(bytes)) => Vec::from_slice(alloc, bytes)?,
            _ => Vec::new(alloc),
        };
        let language = &messaged.language;
        let opened = &language.opened;
        let input = match language.input_of(alloc, file, bytes)? {
            Ok(input) => input,
            Err(fault) => {
                let status = fault.tell(rt, told, self.files.grammar, opened)?;
                return Ok((InputSheet::new(alloc, path, "refused")?, status, None));
            }
        };
        let verdict = verdict_on(alloc, &opened.tables, &input.tokens)?;
        let message = messaged.message(alloc, &input, &verdict)?;
        let message = message.as_ref().map(Vec::as_slice);
        let late = defaults.late(alloc, &opened.tables, &verdict)?;
        let (sheet, status) = answer_of(
            alloc,
            told,
            language.spoken(),
            (path, source.as_slice()),
            (&input, &verdict, late),
            message,
        )?;
        let goes_on = self.all && matches!(verdict, Verdict::Rejected(_));
        Ok((sheet, status, goes_on.then_some((input, source))))
    }

    /// Says what is wrong with each input, and gives what comes of them and the exit status.
    fn take_all<F: Files + AllocGlobal, R: Read>(
        &self,
        rt: &F,
        stdin: &mut R,
        messaged: Messaged,
        told: &mut Diagnostics,
    ) -> io::Result<(Vec<InputSheet>, u8)> {
        let alloc = rt.alloc();
        let mut messaged = messaged;
        let (mut sheets, mut status) = (Vec::new(alloc), 0);
        let mut defaults = Defaults::new();
        for path in self.inputs {
            let by = (&messaged, &mut *told, &mut defaults);
            let (sheet, ended, rejected) = self.take(rt, stdin, by, path)?;
            sheets.push(sheet).map_err(AllocError::from)?;
            status = ended.max(status);
            if let Some((input, source)) = rejected {
                let of = (*path, Some(source.as_slice()));
                messaged = messaged.add_further(alloc, told, of, &input)?;
            }
        }
        Ok((sheets, status))
    }
}

impl<'a> Asked<'a> {
    /// Writes what is said of inputs, or without them, and gives the exit status.
    fn put<W: Write>(
        &self,
        alloc: Global,
        told: &'a Diagnostics,
        inputs: Option<&'a [InputSheet]>,
        status: u8,
        out: &mut W,
    ) -> io::Result<u8> {
        let said = Said {
            form: "check",
            grammar: self.files.grammar.path,
            status,
            told,
            conflicts: None,
            inputs,
        };
        said.put(alloc, out, self.format)
    }
}

/// Writes what is asked for, and gives the exit status, as `ydebug check` does. All that is said
/// goes to `out`.
pub fn run_checking<F: Files + AllocGlobal, R: Read, W: Write>(
    rt: &F,
    asked: Asked<'_>,
    stdin: &mut R,
    out: &mut W,
) -> io::Result<u8> {
    let (alloc, most) = (rt.alloc(), asked.most);
    let mut told = Diagnostics::new(alloc);
    let messages = match asked.messages {
        Some(path) => Some(Limited { path, most }),
        None => None,
    };
    let (inputs, status) = match Messaged::open(rt, asked.files, messages, &mut told)? {
        Ok(messaged) => {
            let (sheets, status) = asked.take_all(rt, stdin, messaged, &mut told)?;
            (Some(sheets), status)
        }
        Err(status) => {
            told.judge(0, Severity::Error);
            (None, status)
        }
    };
    let told = told.only(alloc, asked.shown)?;
    let inputs = inputs.as_ref().map(Vec::as_slice);
    asked.put(alloc, &told, inputs, status, out)
}
