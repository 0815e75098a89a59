ghost use Rattle.std.specs.Prelude.{◌≡◌, Some, IfOk, IfSome};
ghost use Rattle.line_script.specs.Block.{outside};
ghost use Rattle.line_script.specs.Grammar.{step_at};
ghost use Rattle.line_script.specs.Spots.{spot_of};
ghost use Rattle.line_script.specs.Turn.{Turns, is_in_block, AsksRequest};
ghost use Rattle.line_script.specs.declared.steps.Step.TheVariants as step;

use crate::lines::lone_check;
use crate::progress::Progress;
use crate::spots::Spot;
use crate::steps::Step;
use cynara_keys::BorrowedQuestion;
use script_words::{LineRefusal, Place};
use std::alloc::Global;
use std::marker::Model;

/// The most bytes of a line, without its newline.
pub const MOST_LINE_BYTES: usize = 65535;

/// Reads a script line by line, and knows whether it is within a block.
#[derive(Debug, Drop)]
pub struct Reader {
    alloc: Global,
    place: Place,
    progress: Progress,
}

impl Model for Reader {
    ghost use Rattle.line_script.specs.Block.{Block};
    ghost use Rattle.line_script.specs.parts.Progress.{block_of};

    ghost Value = { Block };

    ghost view = { λ reader. block_of reader.place reader.progress };
}

impl Reader {
    /// A reader before the first line of a script for this place.
    pub fn new(alloc: Global, place: Place) -> Reader
        ensures { result ≡ outside place }
    {
        Reader {
            alloc,
            place,
            progress: Progress::Outside,
        }
    }

    /// Whether a block was opened and is not ended. A script must not end so.
    pub fn in_block(&self) -> bool
        ensures { result ≡ is_in_block self.now }
    {
        matches!(self.progress, Progress::Batch(_) | Progress::Template(_))
    }

    /// Where the next line stands. `None` once a line was refused, so who wants to say why asks before each line; that
    /// costs no more than a look.
    #[inline]
    pub fn spot(&self) -> Option<Spot>
        ensures { result ≡ spot_of self.now }
    {
        match &self.progress {
            Progress::Outside => Some(Spot::Outside(self.place)),
            Progress::Batch(_) => Some(Spot::Batch),
            Progress::Template(template) => Some(Spot::Template {
                is_full: template.is_full(),
            }),
            Progress::Failed => None,
        }
    }

    /// The question of a line that is `check` and stands outside a block: a shorter way to what `line` reads most
    /// often. The reader stays as it is. `None` for every other line, and for one that is wrong.
    #[inline]
    pub fn check<'a>(&self, line: &'a [u8]) -> Option<BorrowedQuestion<'a>>
        ensures { IfSome result (λ question. step_at self.now line.now ≡ Some (self.now, step.Check question)) }
    {
        if line.len() > MOST_LINE_BYTES {
            return None;
        }
        match &self.progress {
            Progress::Outside => lone_check(line),
            Progress::Batch(_) | Progress::Template(_) | Progress::Failed => None,
        }
    }

    /// Reads one line, given without its newline. Refuses `Syntax` exactly where the line is outside the grammar,
    /// unless memory runs out first; every line behind a refused one is outside. A line of more than `MOST_LINE_BYTES`
    /// is outside.
    #[tactic(auto, unfolding(crate::specs::Grammar::step_at))]
    pub fn line<'a>(&mut self, line: &'a [u8]) -> Result<Step<'a>, LineRefusal>
        ensures turn { Turns (step_at self.old line.now) result self.new }
        ensures asked { IfOk result AsksRequest }
    {
        if line.len() > MOST_LINE_BYTES {
            self.progress = Progress::Failed;
            return Err(LineRefusal::Syntax);
        }
        self.progress.line(self.alloc, self.place, line)
    }
}
