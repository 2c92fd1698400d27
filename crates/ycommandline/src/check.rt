//! `ydebug check`: the verdict on each input, by tables that are made once.

use crate::given::Given;
use std::alloc::Global;
use std::io::{self, ErrorKind, Read, Write};
use std::rt::Files;
use ydiagnostics::checking::{self, run_checking};
use ydiagnostics::format::Format;
use ydiagnostics::late::Defaults;
use yfiles::diagnostic::Diagnostics;
use yfiles::reading::Limited;
use yinput::language::Input;
use yinput::verdict::verdict_on;
use yinput::verdict_text::{put_choice, put_plain_choice};
use ymessages::messaged::Messaged;

/// The exit status of a run over one input that is rejected.
const REJECTED: u8 = 1;

/// What is asked for: verdicts on inputs.
#[derive(Clone, Copy)]
pub struct Asked<'a> {
    /// The inputs, and by which files they are judged.
    pub inputs: checking::Asked<'a>,
    /// Whether to say if the grammar is free of choices.
    pub choice: bool,
    /// Whether to write plain lines.
    pub plain: bool,
}

impl Asked<'_> {
    /// Writes the verdict on an input, and gives its exit status; of a rejection also where it is
    /// detected late.
    fn put_verdict<W: Write>(
        &self,
        alloc: Global,
        out: &mut W,
        (told, defaults): (&Messaged, &mut Defaults),
        path: &str,
        input: &Input,
    ) -> io::Result<u8> {
        let language = &told.language;
        let verdict = verdict_on(alloc, &language.opened.tables, &input.tokens)?;
        if self.plain {
            return verdict.put_plain(out, path);
        }
        let message = told.message(alloc, input, &verdict)?;
        let message = message.as_ref().map(Vec::as_slice);
        let spoken = language.spoken();
        let Some(mut one) = verdict.diagnostic(alloc, spoken, path, input, message)? else {
            return verdict.put(alloc, out, spoken, (path, input), message);
        };
        if let Some(late) = defaults.late(alloc, &language.opened.tables, &verdict)? {
            one.help(late.text(alloc)?)?;
        }
        one.put(out, "ydebug")?;
        Ok(verdict.status())
    }
}

impl<F: Files + AllocGlobal, R: Read, E: Write> Given<'_, F, R, E> {
    /// Writes what comes of an input, and gives its exit status, and the input, where it is rejected.
    fn put_input<W: Write>(
        &mut self,
        asked: &Asked<'_>,
        (told, defaults): (&Messaged, &mut Defaults),
        path: &str,
        out: &mut W,
    ) -> io::Result<(u8, Option<Input>)> {
        let most = asked.inputs.most;
        match self.read_input(&told.language, Limited { path, most })? {
            Ok(input) => {
                let by = (told, defaults);
                let status = asked.put_verdict(self.rt.alloc(), out, by, path, &input)?;
                Ok((status, (status == REJECTED).then_some(input)))
            }
            Err(fault) => {
                if asked.plain {
                    return Ok((fault.put_plain(out)?, None));
                }
                let grammar = asked.inputs.files.grammar;
                let status = fault.put(self.rt, out, grammar, &told.language.opened)?;
                Ok((status, None))
            }
        }
    }

    /// Writes what comes of each input, and gives the greatest of their exit statuses.
    fn put_inputs<W: Write>(
        &mut self,
        asked: &Asked<'_>,
        messaged: Messaged,
        out: &mut W,
    ) -> io::Result<u8> {
        let (alloc, mut messaged) = (self.rt.alloc(), messaged);
        let (mut status, mut defaults) = (0, Defaults::new());
        for path in asked.inputs.inputs {
            let ended = self.put_input(asked, (&messaged, &mut defaults), path, out);
            let (ended, rejected) = match ended {
                Err(error) if error.kind() == ErrorKind::OutOfMemory => {
                    writeln!(out, "{path}: no memory")?;
                    (3, None)
                }
                ended => ended?,
            };
            status = ended.max(status);
            if let (true, Some(input)) = (asked.inputs.all, rejected) {
                let mut told = Diagnostics::new(alloc);
                messaged = messaged.add_further(alloc, &mut told, (path, None), &input)?;
                told.put(out, "ydebug")?;
            }
        }
        Ok(status)
    }

    /// Writes what is asked for, for people, and gives the exit status.
    fn put_verdicts<W: Write>(&mut self, asked: &Asked<'_>, out: &mut W) -> io::Result<u8> {
        let most = asked.inputs.most;
        let messages = match asked.inputs.messages {
            Some(path) => Some(Limited { path, most }),
            None => None,
        };
        let mut told = Diagnostics::new(self.rt.alloc());
        let opened = Messaged::open(self.rt, asked.inputs.files, messages, &mut told)?;
        let told = told.only(self.rt.alloc(), asked.inputs.shown)?;
        told.put(&mut self.errors, "ydebug")?;
        match opened {
            Ok(messaged) => {
                let path = asked.inputs.files.grammar.path;
                let tables = &messaged.language.opened.tables;
                if asked.plain {
                    put_plain_choice(out, path, tables)?;
                } else if asked.choice {
                    put_choice(out, path, tables)?;
                }
                self.put_inputs(asked, messaged, out)
            }
            Err(status) => Ok(status),
        }
    }

    /// Writes what is asked for, and gives the exit status: 0 where all inputs are accepted, 1
    /// where the grammar, the SPEC, the file of messages or an input is refused or one isn't
    /// accepted, 3 where one can't be read, or memory runs out, 4 where there is no verdict on one
    /// within 1,000,000 steps. For people, faults of the grammar, the SPEC and the file of messages
    /// are reported as errors.
    pub fn run_check<W: Write>(&mut self, asked: &Asked<'_>, out: &mut W) -> io::Result<u8> {
        if asked.inputs.format == Format::Text {
            return self.put_verdicts(asked, out);
        }
        run_checking(self.rt, asked.inputs, &mut self.input, out)
    }
}
