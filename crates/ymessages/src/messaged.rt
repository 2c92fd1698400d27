//! A language with the messages for its errors.

use crate::filling::filled;
use crate::messages::Messages;
use std::alloc::Global;
use std::io;
use std::rt::Files;
use yfaults::opening::word_place;
use yfiles::diagnostic::{Diagnostic, Diagnostics};
use yfiles::place::Place;
use yfiles::reading::Limited;
use yinput::language::{Input, Language, LanguageFiles};
use yinput::reported::{MOST_STEPS, Reporting};
use yinput::spelled::Spoken;
use yinput::verdict::{Rejection, Verdict};
use ysymbols::let_go;

/// A language, and the messages for its errors, where there are some.
pub struct Messaged {
    /// The language.
    pub language: Language,
    /// The messages.
    pub messages: Option<Messages>,
}

impl Drop for Messaged {
    // A call in each owner, which keeps their proofs short.
    fn drop(self) {
        let_go!(self: Messaged { language, messages });
    }
}

/// The message about a rejection of an input, where there is one.
fn message_of(
    alloc: Global,
    messages: Option<&Messages>,
    spoken: Spoken<'_>,
    input: &Input,
    rejection: &Rejection,
) -> io::Result<Option<Vec<u8>>> {
    let Some(messages) = messages else {
        return Ok(None);
    };
    match messages.of(rejection.state) {
        Some(message) => filled(alloc, spoken, message, input, rejection).map(Some),
        None => Ok(None),
    }
}

/// Says where the token of a rejection stands in a tokens file of these bytes; of a text that is said
/// already.
pub fn place(one: &mut Diagnostic, (path, source): (&str, &[u8]), input: &Input, number: usize) {
    if input.text.is_none() {
        let at = word_place(source, number).unwrap_or(source.len());
        one.spot = Some(Place { path, source, at }.spot());
    }
}

/// Says what is wrong at an error of an input. Of a tokens file of these bytes it says the place.
fn add_error(
    alloc: Global,
    told: &mut Diagnostics,
    (spoken, messages): (Spoken<'_>, Option<&Messages>),
    (path, source): (&str, Option<&[u8]>),
    (input, rejection): (&Input, &Rejection),
) -> io::Result<()> {
    let message = message_of(alloc, messages, spoken, input, rejection)?;
    let message = message.as_ref().map(Vec::as_slice);
    let mut one = rejection.diagnostic(alloc, spoken, path, input, message)?;
    if let Some(source) = source {
        place(&mut one, (path, source), input, rejection.number);
    }
    Ok(told.add(one)?)
}

impl Messaged {
    /// Opens the files of a language, and one of messages, where it is given. Where one is refused,
    /// that is said, and the exit status is the answer.
    pub fn open<F: Files + AllocGlobal>(
        rt: &F,
        files: LanguageFiles<'_>,
        messages: Option<Limited<'_>>,
        told: &mut Diagnostics,
    ) -> io::Result<Result<Messaged, u8>> {
        let language = match Language::open_told(rt, files, told)? {
            Ok(language) => language,
            Err(status) => return Ok(Err(status)),
        };
        let Some(file) = messages else {
            let messages = None;
            return Ok(Ok(Messaged { language, messages }));
        };
        match Messages::open_for(rt, &language, file, told)? {
            Ok(messages) => {
                let messages = Some(messages);
                Ok(Ok(Messaged { language, messages }))
            }
            Err(status) => Ok(Err(status)),
        }
    }

    /// The message about an input of the language that is rejected, where there is one.
    pub fn message(
        &self,
        alloc: Global,
        input: &Input,
        verdict: &Verdict,
    ) -> io::Result<Option<Vec<u8>>> {
        let Verdict::Rejected(rejection) = verdict else {
            return Ok(None);
        };
        let (messages, spoken) = (self.messages.as_ref(), self.language.spoken());
        message_of(alloc, messages, spoken, input, rejection)
    }

    /// The language, once no more message is asked for.
    pub fn into_language(self) -> Language {
        let Messaged {
            language,
            messages: _,
        } = self;
        language
    }

    /// Says what is wrong at each error of an input after the first one, as a parse reports them by
    /// the recovery that the grammar has. Of a tokens file of these bytes it says their places.
    pub fn add_further(
        self,
        alloc: Global,
        told: &mut Diagnostics,
        of: (&str, Option<&[u8]>),
        input: &Input,
    ) -> io::Result<Messaged> {
        let Messaged { language, messages } = self;
        let mut reporting = Reporting::new(alloc, language, input)?;
        let mut is_first = true;
        for _ in 0..MOST_STEPS {
            let Some(rejection) = reporting.next(alloc, input)? else {
                break;
            };
            if !is_first {
                let by = (reporting.spoken(), messages.as_ref());
                add_error(alloc, told, by, of, (input, &rejection))?;
            }
            is_first = false;
            reporting.take_back(rejection);
        }
        let language = reporting.into_language();
        Ok(Messaged { language, messages })
    }
}
