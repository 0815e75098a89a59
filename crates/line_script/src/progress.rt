ghost use Rattle.std.specs.Prelude.{◌≡◌, IfOk};
ghost use Rattle.line_script.specs.Grammar.{is_skipped, outside_at, batch_at, template_at, any_length_step_at};
ghost use Rattle.line_script.specs.Turn.{Turns, AsksRequest};
ghost use Rattle.line_script.specs.parts.Progress.{block_of};
ghost use Rattle.line_script.specs.declared.progress.Progress.TheVariants as progress;

use crate::lines::{lone_change, lone_step};
use crate::steps::Step;
use bucket_store::{Change, Changes};
use desk_state::Command;
use rule_templates::{Template, TemplateRefusal};
use script_words::{LineRefusal, Place};
use std::alloc::{AllocError, Global};
use std::mem::replace;

/// Where a script is, with what a block has gathered.
#[derive(Debug, Drop)]
pub(crate) enum Progress {
    Outside,
    Batch(Vec<Change>),
    Template(Template),
    Failed,
}

impl Progress {
    /// Reads one line of any length in a script for this place. Refuses `Syntax` exactly where no line that is known
    /// there reads so, unless memory runs out first.
    #[tactic(auto, unfolding(crate::specs::Grammar::any_length_step_at))]
    pub(crate) fn line<'a>(
        &mut self,
        alloc: Global,
        place: Place,
        line: &'a [u8],
    ) -> Result<Step<'a>, LineRefusal>
        ensures turn { Turns (any_length_step_at (block_of place self.old) line.now) result (block_of place self.new) }
        ensures asked { IfOk result AsksRequest }
    {
        if matches!(self, Progress::Outside) {
            return self.line_outside(alloc, place, line);
        }
        match replace(self, Progress::Failed) {
            Progress::Batch(changes) => self.line_of_batch(alloc, place, changes, line),
            Progress::Template(template) => self.line_of_template(alloc, place, template, line),
            Progress::Outside | Progress::Failed => Err(LineRefusal::Syntax),
        }
    }

    #[tactic(auto, unfolding(crate::specs::Grammar::outside_at))]
    fn line_outside<'a>(
        &mut self,
        alloc: Global,
        place: Place,
        line: &'a [u8],
    ) -> Result<Step<'a>, LineRefusal>
        requires { self.old ≡ progress.Outside }
        ensures turn { Turns (outside_at place line.now) result (block_of place self.new) }
        ensures asked { IfOk result AsksRequest }
    {
        if is_skipped(line) {
            return Ok(Step::Nothing);
        }
        if line == b"batch".as_slice() {
            *self = Progress::Batch(Vec::new(alloc));
            return Ok(Step::Nothing);
        }
        if line == b"template".as_slice() {
            *self = Progress::Template(Template::empty(alloc));
            return Ok(Step::Nothing);
        }
        let read = lone_step(alloc, place, line);
        if let Err(_) = &read {
            *self = Progress::Failed;
        }
        read
    }

    #[tactic(auto, unfolding(crate::specs::Grammar::batch_at))]
    fn line_of_batch<'a>(
        &mut self,
        alloc: Global,
        place: Place,
        mut changes: Vec<Change>,
        line: &[u8],
    ) -> Result<Step<'a>, LineRefusal>
        requires { self.old ≡ progress.Failed }
        ensures turn { Turns (batch_at place changes.items line.now) result (block_of place self.new) }
        ensures asked { IfOk result AsksRequest }
    {
        if is_skipped(line) {
            *self = Progress::Batch(changes);
            return Ok(Step::Nothing);
        }
        if line == b"end".as_slice() {
            let changes = Changes::of(changes);
            let step = Step::of_command(alloc, Command::SetPolicies { changes })?;
            *self = Progress::Outside;
            return Ok(step);
        }
        let change = lone_change(alloc, line)?;
        changes
            .push(change)
            .map_err(AllocError::from)
            .map_err(LineRefusal::Memory)?;
        *self = Progress::Batch(changes);
        Ok(Step::Nothing)
    }

    #[tactic(auto, unfolding(crate::specs::Grammar::template_at))]
    fn line_of_template<'a>(
        &mut self,
        alloc: Global,
        place: Place,
        mut template: Template,
        line: &[u8],
    ) -> Result<Step<'a>, LineRefusal>
        requires { self.old ≡ progress.Failed }
        ensures turn { Turns (template_at place «template» line.now) result (block_of place self.new) }
        ensures asked { IfOk result AsksRequest }
    {
        if line == b"end".as_slice() {
            let step = Step::of_command(alloc, Command::SetTemplate { template })?;
            *self = Progress::Outside;
            return Ok(step);
        }
        match template.push_line(line) {
            Ok(()) => {
                *self = Progress::Template(template);
                Ok(Step::Nothing)
            }
            Err(TemplateRefusal::Memory(error)) => Err(LineRefusal::Memory(error)),
            Err(_) => Err(LineRefusal::Syntax),
        }
    }
}

/// Whether a line asks for nothing: it has no byte, or `#` at the front.
fn is_skipped(line: &[u8]) -> bool
    ensures { result ≡ is_skipped line.now }
{
    matches!(line, [] | [b'#', ..])
}
