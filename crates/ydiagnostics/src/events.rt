//! A document in JSON, as the events that make it.

use serde::{Described, Serialize, Serializer};
use std::alloc::Global;
use std::io::{self, ErrorKind};
use ysymbols::let_go;

/// An event.
#[derive(Drop)]
enum Event {
    Begin,
    End,
    BeginList,
    EndList,
    Key(&'static str),
    Nothing,
    Flag(bool),
    Number(usize),
    Word(&'static str),
    Text(String),
}

/// A document on its way to `serde`, event by event.
///
/// It remembers that memory was refused, so what adds to it need not ask; `bytes` tells it.
pub struct Events {
    alloc: Global,
    all: Vec<Event>,
    is_short: bool,
}

impl Drop for Events {
    // A call in each owner, which keeps their proofs short.
    fn drop(self) {
        let_go!(self: Events { alloc, all, is_short });
    }
}

impl Events {
    /// No events.
    pub fn new(alloc: Global) -> Events {
        Events {
            alloc,
            all: Vec::new(alloc),
            is_short: false,
        }
    }

    /// Adds an event.
    fn add(&mut self, event: Event) {
        if !self.is_short && self.all.push(event).is_err() {
            self.is_short = true;
        }
    }

    /// Begins an object, as a value of its own.
    pub fn begin(&mut self) {
        self.add(Event::Begin);
    }

    /// Ends an object.
    pub fn end(&mut self) {
        self.add(Event::End);
    }

    /// Adds the name of a member, whose value comes next.
    pub fn key(&mut self, key: &'static str) {
        self.add(Event::Key(key));
    }

    /// Begins a member that is a list.
    pub fn begin_list(&mut self, key: &'static str) {
        self.add(Event::Key(key));
        self.add(Event::BeginList);
    }

    /// Ends a list.
    pub fn end_list(&mut self) {
        self.add(Event::EndList);
    }

    /// Adds a member without a value.
    pub fn nothing(&mut self, key: &'static str) {
        self.add(Event::Key(key));
        self.add(Event::Nothing);
    }

    /// Adds a member that is true or false.
    pub fn flag(&mut self, key: &'static str, flag: bool) {
        self.add(Event::Key(key));
        self.add(Event::Flag(flag));
    }

    /// Adds a number.
    pub fn number(&mut self, key: &'static str, number: usize) {
        self.add(Event::Key(key));
        self.add(Event::Number(number));
    }

    /// Adds a number, where there is one.
    pub fn number_if(&mut self, key: &'static str, number: Option<usize>) {
        match number {
            Some(number) => self.number(key, number),
            None => self.nothing(key),
        }
    }

    /// Adds numbers.
    pub fn numbers(&mut self, key: &'static str, numbers: &[usize]) {
        self.begin_list(key);
        for number in numbers {
            self.add(Event::Number(*number));
        }
        self.end_list();
    }

    /// Adds a word.
    pub fn word(&mut self, key: &'static str, word: &'static str) {
        self.add(Event::Key(key));
        self.add(Event::Word(word));
    }

    /// Adds a word, where there is one.
    pub fn word_if(&mut self, key: &'static str, word: Option<&'static str>) {
        match word {
            Some(word) => self.word(key, word),
            None => self.nothing(key),
        }
    }

    /// Adds words.
    pub fn words(&mut self, key: &'static str, words: &[&'static str]) {
        self.begin_list(key);
        for word in words {
            self.add(Event::Word(*word));
        }
        self.end_list();
    }

    /// Adds a text as a value.
    fn add_text(&mut self, text: &str) {
        match String::from_str(self.alloc, text) {
            Ok(text) => self.add(Event::Text(text)),
            Err(_) => self.is_short = true,
        }
    }

    /// Adds a text.
    pub fn text(&mut self, key: &'static str, text: &str) {
        self.add(Event::Key(key));
        self.add_text(text);
    }

    /// Adds a text, where there is one.
    pub fn text_if(&mut self, key: &'static str, text: &Option<String>) {
        match text {
            Some(text) => self.text(key, text),
            None => self.nothing(key),
        }
    }

    /// Adds texts.
    pub fn texts(&mut self, key: &'static str, texts: &[String]) {
        self.begin_list(key);
        for text in texts {
            self.add_text(text);
        }
        self.end_list();
    }

    /// The document in JSON, where memory sufficed for it.
    pub fn bytes(&self) -> io::Result<Vec<u8>> {
        if !self.is_short {
            if let Ok(json) = serde_json::to_vec(self.alloc, self) {
                return Ok(json);
            }
        }
        Err(io::Error::from(ErrorKind::OutOfMemory))
    }
}

impl Described for Events {}

impl Serialize for Events {
    fn serialize<S: Serializer>(&self, out: &mut S) -> Result<(), S::Error> {
        for event in &self.all {
            let step = match event {
                Event::Begin => out.begin_map(None),
                Event::End => out.end_map(),
                Event::BeginList => out.begin_seq(None),
                Event::EndList => out.end_seq(),
                Event::Key(key) => out.key(*key),
                Event::Nothing => out.unit(),
                Event::Flag(flag) => out.bool(*flag),
                Event::Number(number) => out.u64(*number as u64),
                Event::Word(word) => out.str(*word),
                Event::Text(text) => out.str(text),
            };
            step?;
        }
        Ok(())
    }
}
