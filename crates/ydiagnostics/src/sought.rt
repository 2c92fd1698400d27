//! What is sought for conflicts: lists of tokens that get to them, and sentences for their rivals.

use std::alloc::{AllocError, Global};
use std::io;
use yambiguity::answer::{Ambiguities, Answer};
use yexplain::lines::Lines;
use ymends::idioms::Idiom;
use ymends::mending::{Mended, Mender};
use yparse::Session;
use yreports::also::try_hints;
use yreports::ambiguity::block_answers;
use yreports::blocks::{Block, Blocks, blocks_of};
use yreports::lost::try_choices;
use yreports::offer::Offer;
use yreports::splitting::{Split, Splitter};
use ysearch::finding::{Finding, Seeker};
use ysearch::groups::{Conflicts, Group, Kind};
use ysymbols::let_go;
use ytables::Tables;

/// The most kinds for which lists are sought.
const MOST_SOUGHT: usize = 200;

/// What was sought for conflicts.
pub struct Sought {
    /// The conflicts, those of one state between the same rivals together.
    pub blocks: Blocks,
    /// Lists for the first kinds.
    pub findings: Vec<Finding>,
    /// Sentences for the first kind of each of the first blocks.
    pub answers: Vec<Vec<Answer>>,
    /// What is known of the same kinds beside their rivals.
    pub mended: Vec<Mended>,
    /// The copies that split merged states, of the same kinds.
    pub splits: Vec<Option<Split>>,
    /// The trees of sentences.
    pub found: Ambiguities,
    /// The idioms of the grammar.
    pub idioms: Vec<Idiom>,
}

impl Drop for Sought {
    // A call in each owner, which keeps their proofs short.
    fn drop(self) {
        let_go!(self: Sought { blocks, findings, answers, mended, splits, found, idioms });
    }
}

impl Sought {
    /// Nothing but the conflicts themselves.
    pub fn none(alloc: Global, blocks: Blocks) -> Sought {
        Sought {
            blocks,
            findings: Vec::new(alloc),
            answers: Vec::new(alloc),
            mended: Vec::new(alloc),
            splits: Vec::new(alloc),
            found: Ambiguities::new(alloc),
            idioms: Vec::new(alloc),
        }
    }

    /// Nothing is sought yet beside the choices for these conflicts.
    fn new(
        alloc: Global,
        tables: &Tables,
        lines: &Lines,
        conflicts: &Conflicts,
    ) -> io::Result<Sought> {
        let mut blocks = blocks_of(alloc, tables, lines, conflicts)?;
        try_hints(alloc, tables, lines, conflicts, &mut blocks)?;
        try_choices(alloc, tables, lines, &mut blocks)?;
        Ok(Sought::none(alloc, blocks))
    }

    /// What is offered for a block, by its place; where nothing was sought, what its hints say.
    pub fn offer(&self, place: usize, block: &Block) -> Offer {
        let (Some(finding), Some(answers), Some(mended)) = (
            self.findings.get(block.first.number),
            self.answers.get(place),
            self.mended.get(place),
        ) else {
            return Offer::Hints;
        };
        Offer::of(finding, answers).beside(mended)
    }

    /// Seeks lists for a kind, and where a block begins with it, sentences and changes.
    fn seek(
        &mut self,
        alloc: Global,
        (seeker, mender, splitter): (&mut Seeker<'_>, &mut Mender, &mut Splitter),
        lines: &Lines,
        (kind, group): (&Kind, Group),
    ) -> io::Result<()> {
        let (number, next) = (self.findings.len(), self.answers.len());
        let finding = seeker.find(kind, group)?;
        if let Some(block) = self.blocks.list.get(next) {
            if block.first.number == number {
                let (asked, given) = ((block, &finding), mender.sentences());
                let some = block_answers(alloc, seeker, &mut self.found, asked, given)?;
                let offer = Offer::of(&finding, &some);
                let (tables, cells) = (seeker.session.tables(), (kind, group));
                let one = mender.mend(tables, lines, cells, offer.is_open())?;
                self.mended.push(one).map_err(AllocError::from)?;
                let split = splitter.split(alloc, (tables, lines), kind, &finding)?;
                self.splits.push(split).map_err(AllocError::from)?;
                self.answers.push(some).map_err(AllocError::from)?;
            }
        }
        self.findings.push(finding).map_err(AllocError::from)?;
        Ok(())
    }
}

/// What is found for the conflicts of a session without tokens, as long as there are steps for it.
pub fn sought_for(
    alloc: Global,
    session: &mut Session,
    lines: &Lines,
    conflicts: &Conflicts,
) -> io::Result<Sought> {
    let mut sought = Sought::new(alloc, session.tables(), lines, conflicts)?;
    let mut mender = Mender::new(alloc, session.tables())?;
    let mut splitter = Splitter::new();
    let mut seeker = Seeker::new(alloc, session)?;
    for (kind, group) in conflicts.groups.iter().take(MOST_SOUGHT) {
        if !seeker.finder.has_steps() {
            break;
        }
        let by = (&mut seeker, &mut mender, &mut splitter);
        sought.seek(alloc, by, lines, (kind, *group))?;
    }
    sought.idioms = mender.into_idioms();
    Ok(sought)
}
