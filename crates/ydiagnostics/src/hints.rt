//! How conflicts are settled otherwise, as data.

use crate::events::Events;
use crate::kinds::{named, names_of};
use crate::scene::Scene;
use std::alloc::Global;
use yexplain::advice::{Advice, Deed, Hint};
use yexplain::mends::{Mend, mend_of};
use yexplain::reads::{Made, grammar_of};
use yexplain::rivals::Kinds;
use yexplain::text::Name;
use ymends::changed_text::directive_of;
use yreports::blocks::{Class, Loss};
use ysymbols::{Sym, let_go};

/// The words of lines.
const LEFT: &str = "%left";

const RIGHT: &str = "%right";

const NONASSOC: &str = "%nonassoc";

/// No words of lines, and all.
const NO_KINDS: Kinds = Kinds {
    left: false,
    right: false,
    nonassoc: false,
};

const ALL_KINDS: Kinds = Kinds {
    left: true,
    right: true,
    nonassoc: true,
};

/// A change of the text that settles a conflict: what stands from one place of the file to another
/// becomes a text.
pub struct EditSheet {
    /// `shift` or `reduce`: what is done then.
    pub action: &'static str,
    file: String,
    pub line: usize,
    pub column: usize,
    end_line: usize,
    end_column: usize,
    pub text: String,
    /// On how many sentences it was tried, how many of these are refused with it, and the first of
    /// them; `None` where it wasn't tried.
    pub tried: Option<usize>,
    pub lost: usize,
    example: Vec<String>,
}

impl Drop for EditSheet {
    // A call in each owner, which keeps their proofs short.
    fn drop(self) {
        let_go!(self: EditSheet {
            action, file, line, column, end_line, end_column, text, tried, lost, example
        });
    }
}

impl EditSheet {
    /// Adds it to a document.
    fn add_to(&self, events: &mut Events) {
        events.begin();
        events.word("action", self.action);
        events.text("file", &self.file);
        events.number("line", self.line);
        events.number("column", self.column);
        events.number("end_line", self.end_line);
        events.number("end_column", self.end_column);
        events.text("text", &self.text);
        events.number_if("tried", self.tried);
        events.number("lost", self.lost);
        events.texts("example", &self.example);
        events.end();
    }
}

/// How a conflict is settled otherwise.
pub struct HintSheet {
    /// What it takes.
    advice: &'static str,
    /// The rule that it is about.
    rule: Option<usize>,
    /// The tokens of the conflicts, and the one from which the rule has its precedence.
    tokens: Vec<String>,
    giver: Option<String>,
    /// The words of lines by which the token is shifted, and those by which the rule is reduced.
    shifts: Vec<&'static str>,
    reduces: Vec<&'static str>,
    /// Whether a name of its own for the rule does it.
    own: bool,
    /// The places of further kinds that it settles.
    also: Vec<usize>,
    /// Changes of the text that do it for the first token, where they are known.
    pub edits: Vec<EditSheet>,
}

impl Drop for HintSheet {
    // A call in each owner, which keeps their proofs short.
    fn drop(self) {
        let_go!(self: HintSheet {
            advice, rule, tokens, giver, shifts, reduces, own, also, edits
        });
    }
}

impl HintSheet {
    /// Adds it to a document.
    pub fn add_to(&self, events: &mut Events) {
        events.begin();
        events.word("advice", self.advice);
        events.number_if("rule", self.rule);
        events.texts("tokens", &self.tokens);
        events.text_if("giver", &self.giver);
        events.words("shifts", &self.shifts);
        events.words("reduces", &self.reduces);
        events.flag("own", self.own);
        events.numbers("also", &self.also);
        events.begin_list("edits");
        for edit in &self.edits {
            edit.add_to(events);
        }
        events.end_list();
        events.end();
    }
}

/// What a hint says: what it takes, the token that gives the rule its precedence, words that shift
/// and words that reduce, and whether a name of its own does it.
#[derive(Clone, Copy)]
struct Said {
    advice: &'static str,
    giver: Option<Sym>,
    shifts: Kinds,
    reduces: Kinds,
    own: bool,
}

/// The words of lines.
fn words_of(alloc: Global, kinds: Kinds) -> Made<Vec<&'static str>> {
    let mut words = Vec::new(alloc);
    for (is_one, word) in [
        (kinds.left, LEFT),
        (kinds.right, RIGHT),
        (kinds.nonassoc, NONASSOC),
    ] {
        if is_one {
            words.push(word)?;
        }
    }
    Ok(words)
}

/// That `%left` reduces, or that `%right` shifts.
fn turned(advice: &'static str, reduces: bool, shifts: bool) -> Said {
    let (mut left, mut right) = (NO_KINDS, NO_KINDS);
    left.left = reduces;
    right.right = shifts;
    Said {
        advice,
        giver: None,
        shifts: right,
        reduces: left,
        own: false,
    }
}

/// That lines for the token that gives the rule its precedence shift and reduce.
fn by(advice: &'static str, giver: Sym, shifts: Kinds, reduces: Kinds) -> Said {
    Said {
        advice,
        giver: Some(giver),
        shifts,
        reduces,
        own: false,
    }
}

/// What came of a choice on sentences, where it was tried.
fn loss_of(class: &Class, deed: Deed) -> Option<&Loss> {
    for loss in &class.losses {
        if loss.deed == deed {
            return Some(loss);
        }
    }
    None
}

/// What a hint says.
fn said_of(hint: Hint) -> Said {
    match hint {
        Hint::First => turned("first", false, false),
        Hint::General | Hint::Settle(_, Advice::General) => turned("general", false, false),
        Hint::Settle(_, Advice::End) => turned("end", false, false),
        Hint::Settle(_, Advice::Inner) => turned("inner", false, false),
        Hint::Settle(_, Advice::Own) => Said {
            own: true,
            ..turned("own", false, false)
        },
        Hint::Settle(_, Advice::Both { reduces, shifts }) => turned("both", reduces, shifts),
        Hint::Settle(_, Advice::Rule(giver)) => by("rule", giver, ALL_KINDS, ALL_KINDS),
        Hint::Settle(_, Advice::Token(it)) => by("token", it.giver, it.shifts, it.reduces),
        Hint::Settle(_, Advice::Lines { words: it, own }) => Said {
            own,
            ..by("lines", it.giver, it.shifts, it.reduces)
        },
        Hint::Turn { reduces, shifts } => turned("word", reduces, shifts),
        Hint::Word(deed) => turned("word", deed == Deed::Reduce, deed == Deed::Shift),
        Hint::Order(Deed::Shift, giver, kinds) => by("order", giver, kinds, NO_KINDS),
        Hint::Order(Deed::Reduce, giver, kinds) => by("order", giver, NO_KINDS, kinds),
    }
}

impl HintSheet {
    /// What a hint says by itself.
    fn new(alloc: Global, hint: Hint, said: Said) -> HintSheet {
        HintSheet {
            advice: said.advice,
            rule: match hint {
                Hint::Settle(rule, _) => Some(rule),
                _ => None,
            },
            tokens: Vec::new(alloc),
            giver: None,
            shifts: Vec::new(alloc),
            reduces: Vec::new(alloc),
            own: said.own,
            also: Vec::new(alloc),
            edits: Vec::new(alloc),
        }
    }
}

impl Scene<'_> {
    /// The change of the text that a mend is, where the place of the mark is known.
    fn edit(self, mend: Mend, loss: Option<&Loss>) -> Made<Option<EditSheet>> {
        let Some(column) = mend.at.column else {
            return Ok(None);
        };
        let (alloc, grammar) = (self.alloc, grammar_of(self.tables));
        let mut sheet = EditSheet {
            action: match mend.deed {
                Deed::Shift => "shift",
                Deed::Reduce => "reduce",
            },
            file: String::from_str(alloc, self.shown.path)?,
            line: mend.at.line,
            column,
            end_line: mend.at.line,
            end_column: column,
            text: String::new(alloc),
            tried: None,
            lost: 0,
            example: Vec::new(alloc),
        };
        let (word, first) = (directive_of(mend.kind), Name(grammar, mend.first));
        sheet.text = format!(in alloc; "{word} {first}\n")?;
        if let Some(second) = mend.second {
            let (before, second) = (sheet.text.as_str(), Name(grammar, second));
            sheet.text = format!(in alloc; "{before}{word} {second}\n")?;
        }
        if let Some(loss) = loss {
            sheet.example = names_of(alloc, grammar, &loss.first)?;
            sheet.tried = Some(loss.short.saturating_add(loss.longer));
            sheet.lost = loss.lost;
        }
        Ok(Some(sheet))
    }

    /// How the conflicts of a class are settled otherwise.
    pub fn hint(self, class: &Class) -> Made<Option<HintSheet>> {
        let (Some(entry), Some(hint)) = (class.entries.first(), class.settled.hint) else {
            return Ok(None);
        };
        let (alloc, grammar, said) = (self.alloc, grammar_of(self.tables), said_of(hint));
        let mut sheet = HintSheet::new(alloc, hint, said);
        for entry in &class.entries {
            sheet.tokens.push(named(alloc, grammar, entry.kind.token)?)?;
        }
        if let Some(giver) = said.giver {
            sheet.giver = Some(named(alloc, grammar, giver)?);
        }
        sheet.shifts = words_of(alloc, said.shifts.offered())?;
        sheet.reduces = words_of(alloc, said.reduces.offered())?;
        sheet.also = Vec::from_slice(alloc, &class.also)?;
        let asked = entry.cell(self.tables, self.shown.lines);
        for deed in [Deed::Shift, Deed::Reduce] {
            if let (true, Some(mend)) = (self.shown.is_plain, mend_of(asked, hint, deed)) {
                if let Some(edit) = self.edit(mend, loss_of(class, deed))? {
                    sheet.edits.push(edit)?;
                }
            }
        }
        Ok(Some(sheet))
    }
}
