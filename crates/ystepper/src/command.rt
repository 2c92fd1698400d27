//! What a command line says.

ghost use Rattle.std.specs.Prelude.{◌≡◌};
ghost use Rattle.std.specs.Prelude.{option_map, codes};
ghost use Rattle.std.specs.Option.{option_map_or};
ghost use Rattle.ystepper.specs.Command.{Insert};
ghost use Rattle.ystepper.specs.Command.{command_of, command_view, number_command, number_after};
ghost use Rattle.ystepper.specs.Command.{number_in};
ghost use Rattle.ystepper.specs.Command.{text_after};
ghost use Rattle.ystepper.specs.Line.{line_in, line_view};

/// The most bytes that a command line may have.
pub(crate) const LONGEST_LINE: usize = 4096;

/// The greatest number that a command takes.
const GREATEST_COUNT: usize = 1_000_000;

/// What a line says.
#[derive(Clone, Copy, PartialEq, Eq)]
pub enum Line<'a> {
    /// The end of the session.
    Quit,
    /// A command, which has a reply.
    Command(Command<'a>),
}

/// A command.
#[derive(Clone, Copy, PartialEq, Eq)]
pub enum Command<'a> {
    /// At most so many steps forward, 1 to 1,000,000.
    Run(usize),
    /// At most so many steps back, 1 to 1,000,000.
    Back(usize),
    /// Steps forward or back to this position, 0 to 1,000,000.
    To(usize),
    /// The configuration now.
    Show,
    /// The trees of the stack.
    Tree,
    /// The rightmost derivation of an accepted parse, back to its start.
    Unwind,
    /// The token that these bytes spell comes before the upcoming tokens.
    Insert(&'a [u8]),
    /// The first of the upcoming tokens is taken out.
    Drop,
    /// Any other line.
    Unknown,
}

/// What a line says. A line of more than 4,096 bytes is an unknown command.
#[tactic(auto, unfolding(crate::specs::Line::line_in))]
pub(crate) fn line_in(line: &[u8]) -> Line<'_>
    ensures { line_view result ≡ line_in line.now }
{
    if line.len() > LONGEST_LINE {
        Line::Command(Command::Unknown)
    } else if line == b"quit".as_slice() {
        Line::Quit
    } else {
        Line::Command(command_in(line))
    }
}

/// The command that a line spells exactly, or `Unknown`.
#[tactic(auto, unfolding(crate::specs::Command::command_of))]
fn command_in(line: &[u8]) -> Command<'_>
    ensures { command_view result ≡ command_of line.now }
{
    if line == b"step".as_slice() {
        Command::Run(1)
    } else if line == b"show".as_slice() {
        Command::Show
    } else if line == b"tree".as_slice() {
        Command::Tree
    } else if line == b"unwind".as_slice() {
        Command::Unwind
    } else if line == b"drop".as_slice() {
        Command::Drop
    } else {
        insert_command(line)
    }
}

/// What follows a word at the front of a line. `None` where the line doesn't begin with it.
fn text_after<'a>(word: &[u8], line: &'a [u8]) -> Option<&'a [u8]>
    ensures { option_map (λ text. text.now) result ≡ text_after word.now line.now }
{
    if line.len() >= word.len() && &line[..word.len()] == word {
        Some(&line[word.len()..])
    } else {
        None
    }
}

/// A token to insert, or a command with a number after it.
fn insert_command(line: &[u8]) -> Command<'_>
    ensures { command_view result
        ≡ option_map_or Insert (text_after (codes "insert ") line.now) (number_command line.now) }
{
    match text_after(b"insert ", line) {
        Some(bytes) => Command::Insert(bytes),
        None => number_command(line),
    }
}

/// A command with a number after it.
fn number_command(line: &[u8]) -> Command<'_>
    ensures { command_view result ≡ number_command line.now }
{
    if let Some(count) = number_after(1, b"run ", line) {
        return Command::Run(count);
    }
    if let Some(count) = number_after(1, b"back ", line) {
        return Command::Back(count);
    }
    match number_after(0, b"to ", line) {
        Some(position) => Command::To(position),
        None => Command::Unknown,
    }
}

/// The number after a word, from `least` to 1,000,000. `None` where the line has another form.
fn number_after(least: usize, word: &[u8], line: &[u8]) -> Option<usize>
    ensures { result ≡ number_after least word.now line.now }
{
    if line.len() >= word.len() && &line[..word.len()] == word {
        number_in(least, &line[word.len()..])
    } else {
        None
    }
}

/// The value of one to seven digits, from `least` to 1,000,000. `None` for anything else.
fn number_in(least: usize, digits: &[u8]) -> Option<usize>
    ensures { result ≡ number_in least digits.now }
{
    if digits.is_empty() || digits.len() > 7 {
        return None;
    }
    let mut number = 0;
    for digit in digits {
        if !digit.is_ascii_digit() {
            return None;
        }
        number = number * 10 + usize::from(*digit - b'0');
    }
    if number < least || number > GREATEST_COUNT {
        None
    } else {
        Some(number)
    }
}
