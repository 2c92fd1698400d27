//! Causes of conflicts, as data: the conflicts of one state with the same rules that lose, with all
//! their rivals, with sentences for these, and with what settles them otherwise.

use crate::events::Events;
use crate::hints::HintSheet;
use crate::kinds::{named, names_of};
use crate::mends::{MendSheet, SplitSheet};
use crate::scene::Scene;
use crate::sheet::place_of;
use std::alloc::Global;
use yambiguity::answer::{Answer, Sentence};
use yambiguity::choice::Choice;
use yexplain::reads::{Made, body_of, grammar_of, next_of};
use yexplain::text::{ItemText, RuleText};
use ylalr::Item;
use ymends::mending::Mended;
use yreports::ambiguity::are_twins;
use yreports::blocks::{Block, category_of};
use yreports::offer::Offer;
use yreports::splitting::Split;
use ysearch::groups::{Kind, MOST_RIVALS};
use ysymbols::let_go;

/// The most nodes of a tree that are listed.
const MOST_NODES: usize = 100;

/// A rival: a shift in an item, or a rule.
#[derive(Drop)]
pub struct RivalSheet {
    /// `shift` or `reduce`.
    pub action: &'static str,
    /// Whether it is taken.
    pub taken: bool,
    /// Its rule, and how many symbols of its body stand before the dot.
    pub rule: usize,
    pub dot: usize,
    /// Where the rule begins.
    pub line: Option<usize>,
    pub column: Option<usize>,
    /// The rule, or the item that shifts.
    pub text: String,
}

impl RivalSheet {
    /// Adds it to a document.
    fn add_to(&self, events: &mut Events) {
        events.begin();
        events.word("action", self.action);
        events.flag("taken", self.taken);
        events.number("rule", self.rule);
        events.number("dot", self.dot);
        events.number_if("line", self.line);
        events.number_if("column", self.column);
        events.text("text", &self.text);
        events.end();
    }
}

/// A node of a tree.
#[derive(Drop)]
pub struct NodeSheet {
    /// How many nodes are above it.
    level: usize,
    symbol: String,
    /// The rule by which its children are below it; none for a leaf.
    rule: Option<usize>,
}

impl NodeSheet {
    /// Adds it to a document.
    fn add_to(&self, events: &mut Events) {
        events.begin();
        events.number("level", self.level);
        events.text("symbol", &self.symbol);
        events.number_if("rule", self.rule);
        events.end();
    }
}

/// A sentence that a rival derives.
pub struct SentenceSheet {
    /// `shift` or `reduce`, and by which rule.
    pub action: &'static str,
    pub rule: Option<usize>,
    /// Its tokens, and how many of them stand before the conflict.
    pub tokens: Vec<String>,
    pub dot: usize,
    /// The number of the token that the tables refuse, where they refuse it.
    refused: Option<usize>,
    /// The least part of its tree that differs from that of the other rival, each node before those
    /// below it.
    tree: Option<Vec<NodeSheet>>,
}

impl Drop for SentenceSheet {
    // A call in each owner, which keeps their proofs short.
    fn drop(self) {
        let_go!(self: SentenceSheet { action, rule, tokens, dot, refused, tree });
    }
}

impl SentenceSheet {
    /// Adds it to a document.
    fn add_to(&self, events: &mut Events) {
        events.begin();
        events.word("action", self.action);
        events.number_if("rule", self.rule);
        events.texts("tokens", &self.tokens);
        events.number("dot", self.dot);
        events.number_if("refused", self.refused);
        match &self.tree {
            Some(nodes) => {
                events.begin_list("tree");
                for node in nodes {
                    node.add_to(events);
                }
                events.end_list();
            }
            None => events.nothing("tree"),
        }
        events.end();
    }
}

/// A cause.
pub struct CauseSheet {
    /// `shift/reduce` or `reduce/reduce`, and its category.
    pub kind: &'static str,
    pub category: &'static str,
    /// The places of its kinds among all that are listed, from 0 on.
    kinds: Vec<usize>,
    /// The states that have it, and its tokens.
    pub states: Vec<usize>,
    pub tokens: Vec<String>,
    /// The rules that lose.
    pub loses: Vec<usize>,
    pub rivals: Vec<RivalSheet>,
    /// Whether a sentence with two trees was found.
    pub ambiguous: bool,
    /// That sentence by each of two rivals, or a sentence for each rival.
    pub sentences: Vec<SentenceSheet>,
    /// What is offered: `hints`, or why nothing is.
    offer: &'static str,
    /// What is known beside the rivals: an idiom, a change that was tried, the second token.
    mend: Option<MendSheet>,
    /// A copy of a nonterminal that was tried.
    pub split: Option<SplitSheet>,
    /// How to choose otherwise.
    pub hints: Vec<HintSheet>,
}

impl Drop for CauseSheet {
    // A call in each owner, which keeps their proofs short.
    fn drop(self) {
        let_go!(self: CauseSheet {
            kind, category, kinds, states, tokens, loses, rivals, ambiguous, sentences, offer,
            mend, split, hints
        });
    }
}

impl CauseSheet {
    /// Adds it to a document.
    pub fn add_to(&self, events: &mut Events) {
        events.begin();
        events.word("kind", self.kind);
        events.word("category", self.category);
        events.numbers("kinds", &self.kinds);
        events.numbers("states", &self.states);
        events.texts("tokens", &self.tokens);
        events.numbers("loses", &self.loses);
        events.begin_list("rivals");
        for rival in &self.rivals {
            rival.add_to(events);
        }
        events.end_list();
        events.flag("ambiguous", self.ambiguous);
        events.begin_list("sentences");
        for sentence in &self.sentences {
            sentence.add_to(events);
        }
        events.end_list();
        events.word("offer", self.offer);
        match &self.mend {
            Some(mend) => {
                events.key("mend");
                mend.add_to(events);
            }
            None => events.nothing("mend"),
        }
        match &self.split {
            Some(split) => {
                events.key("split");
                split.add_to(events);
            }
            None => events.nothing("split"),
        }
        events.begin_list("hints");
        for hint in &self.hints {
            hint.add_to(events);
        }
        events.end_list();
        events.end();
    }
}

impl CauseSheet {
    /// That of a kind, of which no more is said yet.
    fn new(alloc: Global, kind: &Kind, offer: Offer) -> CauseSheet {
        CauseSheet {
            kind: if kind.shift {
                "shift/reduce"
            } else {
                "reduce/reduce"
            },
            category: category_of(kind).name(),
            kinds: Vec::new(alloc),
            states: Vec::new(alloc),
            tokens: Vec::new(alloc),
            loses: Vec::new(alloc),
            rivals: Vec::new(alloc),
            ambiguous: false,
            sentences: Vec::new(alloc),
            offer: offer.name(),
            mend: None,
            split: None,
            hints: Vec::new(alloc),
        }
    }
}

impl Scene<'_> {
    /// A rival of an item, or of a rule where the dot is at its end.
    fn rival(self, action: &'static str, taken: bool, item: Item) -> Made<RivalSheet> {
        let (grammar, alloc) = (grammar_of(self.tables), self.alloc);
        let (line, column) = place_of(self.shown.lines.spot(item.rule));
        let (rule, whole) = (item.rule, RuleText(grammar, item.rule));
        let item_text = ItemText(grammar, item);
        let text = match action {
            "shift" => format!(in alloc; "{item_text}")?,
            _ => format!(in alloc; "{whole}")?,
        };
        Ok(RivalSheet {
            action,
            taken,
            rule,
            dot: item.dot,
            line,
            column,
            text,
        })
    }

    /// The rivals of a block: the items that shift one of its tokens, where that is taken, and the
    /// rules.
    fn rivals(self, block: &Block) -> Made<Vec<RivalSheet>> {
        let asked = block.first.cell(self.tables, self.shown.lines);
        let (grammar, kind) = (asked.grammar(), &block.first.kind);
        let mut rivals = Vec::new(self.alloc);
        for item in asked.items() {
            let next = next_of(grammar, *item);
            let mut is_meant = false;
            for class in &block.classes {
                for entry in &class.entries {
                    is_meant = is_meant || next == Some(entry.kind.token);
                }
            }
            if kind.shift && is_meant && rivals.len() < MOST_RIVALS {
                rivals.push(self.rival("shift", true, *item)?)?;
            }
        }
        for rule in kind.rules() {
            let dot = body_of(grammar, *rule).len();
            let taken = kind.taken() == Some(*rule);
            rivals.push(self.rival("reduce", taken, Item { rule: *rule, dot })?)?;
        }
        Ok(rivals)
    }

    /// A tree, as far as it is listed.
    fn tree(self, root: usize) -> Made<Vec<NodeSheet>> {
        let (trees, grammar) = (&self.sought.found.trees, grammar_of(self.tables));
        let (mut open, mut nodes) = (Vec::new(self.alloc), Vec::new(self.alloc));
        open.push((0usize, root))?;
        for _ in 0..MOST_NODES {
            let Some((level, tree)) = open.pop() else {
                break;
            };
            let Some(node) = trees.node(tree) else {
                break;
            };
            let symbol = named(self.alloc, grammar, node.symbol)?;
            let rule = if node.stands { None } else { node.rule };
            nodes.push(NodeSheet {
                level,
                symbol,
                rule,
            })?;
            if !node.stands {
                for child in trees.children(tree).iter().rev() {
                    open.push((level.saturating_add(1), *child))?;
                }
            }
        }
        Ok(nodes)
    }

    /// A sentence for a rival, with its tree, where it is one of two.
    fn sentence(
        self,
        choice: Choice,
        sentence: &Sentence,
        tree: Option<usize>,
    ) -> Made<SentenceSheet> {
        let grammar = grammar_of(self.tables);
        let mut sheet = SentenceSheet {
            action: match choice {
                Choice::Shift => "shift",
                Choice::Reduce(_) => "reduce",
            },
            rule: choice.rule(),
            tokens: names_of(self.alloc, grammar, &sentence.tokens)?,
            dot: sentence.dot,
            refused: sentence.refused,
            tree: None,
        };
        if let Some(tree) = tree {
            sheet.tree = Some(self.tree(tree)?);
        }
        Ok(sheet)
    }

    /// Sentences for rivals: one with two trees, where it was found, or one for each.
    fn sentences(self, answers: &[Answer]) -> Made<Vec<SentenceSheet>> {
        let (mut sentences, mut told) = (Vec::new(self.alloc), Vec::new(self.alloc));
        for answer in answers {
            if let Some(twins) = &answer.twins {
                let (one, trees) = (&twins.sentence, twins.trees);
                sentences.clear();
                sentences.push(self.sentence(one.choice, one, Some(trees.0))?)?;
                sentences.push(self.sentence(twins.second, one, Some(trees.1))?)?;
                return Ok(sentences);
            }
            for one in &answer.sentences {
                if !told.contains(&one.choice) {
                    told.push(one.choice)?;
                    sentences.push(self.sentence(one.choice, one, None)?)?;
                }
            }
        }
        Ok(sentences)
    }

    /// The cause that a block is, with sentences for its rivals.
    pub fn cause(
        self,
        block: &Block,
        answers: &[Answer],
        (offer, mended, split): (Offer, Option<&Mended>, Option<Split>),
    ) -> Made<CauseSheet> {
        let (alloc, kind, group) = (self.alloc, &block.first.kind, block.first.group);
        let mut cause = CauseSheet::new(alloc, kind, offer);
        for class in &block.classes {
            for entry in &class.entries {
                cause.kinds.push(entry.number)?;
                let token = named(alloc, grammar_of(self.tables), entry.kind.token)?;
                cause.tokens.push(token)?;
            }
            if let (true, Some(hint)) = (offer.has_hints(), self.hint(class)?) {
                cause.hints.push(hint)?;
            }
        }
        cause.states = kind.states(alloc, self.tables, group)?;
        cause.loses = Vec::from_slice(alloc, kind.others())?;
        cause.rivals = self.rivals(block)?;
        cause.ambiguous = are_twins(answers);
        cause.sentences = self.sentences(answers)?;
        if let Some(mended) = mended {
            cause.mend = Some(self.mend_sheet(mended)?);
        }
        if let Some(split) = split {
            cause.split = Some(self.split_sheet(split)?);
        }
        Ok(cause)
    }
}
