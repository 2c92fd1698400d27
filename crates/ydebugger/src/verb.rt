//! The commands: their words, how they are used, and what they do.

/// A command; `told` says what each does.
#[derive(Clone, Copy, PartialEq, Eq)]
pub enum Verb {
    Step,
    Back,
    To,
    Run,
    Continue,
    Next,
    Finish,
    Break,
    Breaks,
    Delete,
    Where,
    Stack,
    Upcoming,
    List,
    State,
    Expected,
    Explain,
    Why,
    Rule,
    Symbol,
    Grammar,
    Tree,
    Derivation,
    History,
    Errors,
    Insert,
    Drop,
    Save,
    SaveOver,
    Conflicts,
    Reload,
    Help,
    Quit,
}

/// Each command by its word, in the order in which help lists them.
pub const VERBS: [(&str, Verb); 33] = [
    ("step", Verb::Step),
    ("back", Verb::Back),
    ("to", Verb::To),
    ("run", Verb::Run),
    ("continue", Verb::Continue),
    ("next", Verb::Next),
    ("finish", Verb::Finish),
    ("break", Verb::Break),
    ("breaks", Verb::Breaks),
    ("delete", Verb::Delete),
    ("where", Verb::Where),
    ("stack", Verb::Stack),
    ("upcoming", Verb::Upcoming),
    ("list", Verb::List),
    ("state", Verb::State),
    ("expected", Verb::Expected),
    ("explain", Verb::Explain),
    ("why", Verb::Why),
    ("rule", Verb::Rule),
    ("symbol", Verb::Symbol),
    ("grammar", Verb::Grammar),
    ("tree", Verb::Tree),
    ("derivation", Verb::Derivation),
    ("history", Verb::History),
    ("errors", Verb::Errors),
    ("insert", Verb::Insert),
    ("drop", Verb::Drop),
    ("save", Verb::Save),
    ("save!", Verb::SaveOver),
    ("conflicts", Verb::Conflicts),
    ("reload", Verb::Reload),
    ("help", Verb::Help),
    ("quit", Verb::Quit),
];

impl Verb {
    /// How it is written, and what it does, in a line.
    pub fn told(self) -> (&'static str, &'static str) {
        let told = match self {
            Verb::Step => "step [N]: one step forward, or N",
            Verb::Back => "back [N] | back until C: one step back, or N, or to where C holds",
            Verb::To => "to K: to position K, forward or back",
            Verb::Run => "run [N] | run until C: to the end, N steps at most, or to where C holds",
            Verb::Continue => "continue: to the next breakpoint, error or end, as run does",
            Verb::Next => "next [N]: to where a token is shifted, or N are",
            Verb::Finish => "finish: to the reduction of the entry on top of the stack",
            Verb::Break => "break C: every run stops where C holds",
            Verb::Breaks => "breaks: the breakpoints, by their numbers",
            Verb::Delete => "delete [N]: deletes breakpoint N, or all",
            Verb::Where => "where: the position, the stack, the upcoming tokens, the state",
            Verb::Stack => "stack: every entry of the stack, with its state",
            Verb::Upcoming => "upcoming: the upcoming tokens, with their places",
            Verb::List => "list [N]: the text around the token ahead, or around line N",
            Verb::State => "state [N]: a state: its items, actions and gotos",
            Verb::Expected => "expected: the tokens that can come here",
            Verb::Explain =>
                "explain: what was seen, what can come, what is done and why, and what else could",
            Verb::Why =>
                "why [N] [T]: why the state, or N, does what it does at the token ahead, or T",
            Verb::Rule => "rule N: a rule and its precedence",
            Verb::Symbol => "symbol NAME: a symbol: its rules, its uses, what it begins with",
            Verb::Grammar => "grammar: every rule",
            Verb::Tree => "tree [N] [all]: the trees of the stack, or that of entry N",
            Verb::Derivation =>
                "derivation [N | all]: the rightmost derivation up to here, the last form first",
            Verb::History => "history [N]: the last steps and edits, or the last N",
            Verb::Errors => "errors: where errors were detected so far",
            Verb::Insert => "insert T ..: puts tokens before the upcoming ones",
            Verb::Drop => "drop: removes the first upcoming token",
            Verb::Save => "save [--tokens] FILE: writes the input, edits included, to a new file",
            Verb::SaveOver =>
                "save! [--tokens] FILE: writes the input, edits included, over a file",
            Verb::Conflicts =>
                "conflicts: the conflicts of the grammar file as it is now, explained",
            Verb::Reload => "reload: reads both files again, and goes to the same position",
            Verb::Help => "help [command]: this list, or more on one command",
            Verb::Quit => "quit: ends the session, as the end of input does",
        };
        told.split_once(": ").unwrap_or(("", ""))
    }

    /// More on it, or nothing.
    pub fn more(self) -> &'static str {
        match self {
            Verb::Step | Verb::To => "An empty line repeats the last move.",
            Verb::Run | Verb::Back | Verb::Break => UNTIL,
            Verb::Continue | Verb::Next | Verb::Finish => STOPS,
            Verb::Insert => "T is spelled as in a tokens file: NAME, or a literal such as '+'.\n\
                The first one comes first. All are put in, or none.",
            Verb::Tree => "Entries are counted from 1 at the bottom, as stack shows them.\n\
                1,000 lines are written unless all are asked for.",
            Verb::Derivation => "100 forms are written unless told otherwise.\n\
                Beyond 100 MB, all forms are written by derivation all! alone.",
            Verb::Expected => "Each token is tried on a copy of the stack.",
            Verb::Save | Verb::SaveOver => "The file can be given to ydebug as its input.\n\
                Of a text the words of dropped tokens are left out, and inserted tokens have a\n\
                word that the SPEC cuts into them; --tokens writes the names of the tokens.",
            Verb::Explain => "Each other action of a conflict is tried on a copy of the parse.",
            Verb::Reload => "Edits are made again at their positions.",
            _ => "",
        }
    }
}

/// Where a run stops by itself.
const STOPS: &str = "It stops at a breakpoint, and where an error comes next: there the upcoming\n\
    tokens can still be changed. From such a place it goes on.\n\
    An empty line repeats the last move.";

/// The conditions.
const UNTIL: &str = "C is one of:\n\
    \x20 shift NAME       a token is shifted (shift error: by recovery)\n\
    \x20 reduce N         rule N is reduced\n\
    \x20 reduce NAME      a rule of this nonterminal is reduced\n\
    \x20 error            an error is detected\n\
    \x20 conflict         the state and the token ahead have a conflict\n\
    \x20 state N          the state is N\n\
    \x20 token K          token K of the file is ahead\n\
    \x20 depth N          the stack has N entries\n\
    \x20 accept           the input is accepted\n\
    Back, a step is undone first: the parse stands before it.\n\
    Where no C is said, run stops where an error comes next; a second run goes on.\n\
    Runs stop at breakpoints, forward and back; step and to don't.\n\
    An empty line repeats the last move.";
