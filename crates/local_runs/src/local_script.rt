// A script that is being answered over a folder, line by line.
ghost use Rattle.std.specs.Prelude.{◌≡◌, [], false, MatchResult};
ghost use Rattle.desk_state.specs.Next.{next};
ghost use Rattle.desk_keeper.specs.Keeper.{disk_of, held_of, IsDecided, IsSameDisk};
ghost use Rattle.line_script.specs.Block.{outside};
ghost use Rattle.line_script.specs.Grammar.{step_at};
ghost use Rattle.script_words.specs.declared.places.Place.TheVariants.{Local};
ghost use Rattle.line_script.specs.Turn.{AsksRequest};
ghost use Rattle.line_script.specs.declared.steps.Step.TheVariants as step;
ghost use Rattle.local_runs.specs.parts.Local.{is_question};
ghost use Rattle.script_replies.specs.Folded.{unasked};
ghost use Rattle.script_replies.specs.Reply.{after};

mod questions;
mod sharing;

use crate::local_script::questions::is_question;
use desk_keeper::Keeper;
use desk_ports::{Bytes, Disk, Sink, Source, write_all};
use desk_state::Command;
use level_requests::LevelRequest;
use line_script::{LineRefusal, Place, Reader, Step};
use policy_levels::level_command;
use private_sharing::Shares;
use run_endings::Ending;
use script_notes::LineNotes;
use script_replies::{
    FoldedRules, note_past_limit, note_script_line, print_done, print_level_refusal, print_refusal,
};
use std::alloc::Global;
use text_lines::LineReader;

/// Where the reading of a script stands, the answers that the sink hasn't taken yet, the shares that are open, and the
/// rules of the policy state and of these shares; and what is to be told of its lines beside their answers.
#[derive(Drop)]
pub struct LocalScript {
    alloc: Global,
    pub reader: Reader,
    rules: FoldedRules,
    shares: Shares,
    pub answers: Bytes,
    notes: LineNotes,
}

impl LocalScript {
    ghost use Rattle.local_runs.specs.parts.Local.{IsSameScript, step_of, Turns, Flushes};
    ghost use Rattle.local_runs.specs.parts.Local.{HandsOver, AnswersStep, RefusesStep, AnswersLine, RefusesLine};
    ghost use Rattle.local_runs.specs.parts.Local.{counts_sink};
    ghost use Rattle.script_replies.specs.NextLine.{counts_source};
    ghost use Rattle.script_replies.specs.Folded.{AreFolded};
    ghost use Rattle.folder_runs.specs.Keeping.{counts_disk, UnlessDisk, Moves};

    /// A script before its first line. Takes no memory.
    pub fn new(alloc: Global) -> LocalScript
        ensures reader { result.reader ≡ outside Local }
        ensures rules { result.rules ≡ unasked }
        ensures shares { result.shares ≡ [] }
        ensures answers { result.answers ≡ [] }
    {
        LocalScript {
            alloc,
            reader: Reader::new(alloc, Place::Local),
            rules: FoldedRules::unasked(),
            shares: Shares::new(alloc),
            answers: Bytes::new(alloc),
            notes: LineNotes::new(alloc),
        }
    }

    /// Answers the next line of the script, if one is left. The sink takes the answers that wait before the source is
    /// read, and where no line is left.
    pub fn answer_next<S: Source, K: Sink, D: Disk>(
        &mut self,
        lines: &mut LineReader,
        keeper: &mut Keeper<'_, D>,
        source: &mut S,
        sink: &mut K,
    ) -> Result<bool, Ending>
        requires decided { IsDecided keeper.old }
        requires folded { AreFolded self.old.rules keeper.old.desk self.old.shares }

        ensures turn { Turns (S.left source.old) (S.left source.new) (K.taken sink.old) (K.taken sink.new)
            self.old self.new keeper.old.desk keeper.new.desk lines.old lines.new result }
        ensures source { S.faults source.new ≡ counts_source result (S.faults source.old) }
        ensures sink { K.faults sink.new ≡ counts_sink result (K.faults sink.old) }
        ensures folded { AreFolded self.new.rules keeper.new.desk self.new.shares }

        ensures keeper { Moves D.state D.moment D.left_since (disk_of keeper.old) (disk_of keeper.new)
            keeper.old.desk (held_of keeper.old) keeper.new.desk (held_of keeper.new)
            (after keeper.old.desk (step_of (step_at self.old.reader lines.new.line))) result }
        ensures decided { UnlessDisk result (IsDecided keeper.new) }
        ensures disk { D.faults (disk_of keeper.new) ≡ counts_disk result (D.faults (disk_of keeper.old)) }
        ensures same_disk { IsSameDisk keeper.old keeper.new }
    {
        self.hand_over(lines, sink)?;
        let has_line = match lines.next(source) {
            Ok(has_line) => has_line,
            Err(refusal) => {
                note_past_limit(self.alloc, refusal, lines, sink);
                return Err(Ending::from(refusal));
            }
        };
        if !has_line {
            return Ok(false);
        }
        self.answer_line(lines.line(), lines.number(), keeper, sink)?;
        Ok(true)
    }

    // Has the sink take the answers that wait, unless a further line waits to be answered.
    fn hand_over<K: Sink>(&mut self, lines: &mut LineReader, sink: &mut K) -> Result<(), Ending>
        ensures handed { HandsOver (K.taken sink.old) (K.taken sink.new) self.old self.new lines.old result }
        ensures lines { lines.new ≡ lines.old }
        ensures count { K.faults sink.new ≡ counts_sink result (K.faults sink.old) }
    {
        if lines.has_line() {
            return Ok(());
        }
        self.flush(sink)
    }

    // Answers the line with this number.
    fn answer_line<K: Sink, D: Disk>(
        &mut self,
        line: &[u8],
        number: u32,
        keeper: &mut Keeper<'_, D>,
        sink: &mut K,
    ) -> Result<(), Ending>
        requires decided { IsDecided keeper.old }
        requires folded { AreFolded self.old.rules keeper.old.desk self.old.shares }

        ensures line { MatchResult result
            (λ _. AnswersLine (K.taken sink.old)
            (K.taken sink.new) self.old self.new keeper.old.desk keeper.new.desk line.now)
            (RefusesLine (K.taken sink.old)
            (K.taken sink.new) self.old self.new keeper.old.desk keeper.new.desk line.now number) }
        ensures sink { K.faults sink.new ≡ counts_sink result (K.faults sink.old) }
        ensures folded { AreFolded self.new.rules keeper.new.desk self.new.shares }

        ensures keeper { Moves D.state D.moment D.left_since (disk_of keeper.old) (disk_of keeper.new)
            keeper.old.desk (held_of keeper.old) keeper.new.desk (held_of keeper.new)
            (after keeper.old.desk (step_of (step_at self.old.reader line.now))) result }
        ensures decided { UnlessDisk result (IsDecided keeper.new) }
        ensures disk { D.faults (disk_of keeper.new) ≡ counts_disk result (D.faults (disk_of keeper.old)) }
        ensures same_disk { IsSameDisk keeper.old keeper.new }
    {
        if let Some(question) = self.reader.check(line) {
            self.answer_check(keeper.desk(), &question)?;
            self.notes
                .tell_of_check(number, &question, keeper.desk(), sink);
            return Ok(());
        }
        self.answer_other(line, number, keeper, sink)
    }

    // The same for a line of any kind. Of its own, so that a check does not pay for what it may hold.
    #[inline(never)]
    fn answer_other<K: Sink, D: Disk>(
        &mut self,
        line: &[u8],
        number: u32,
        keeper: &mut Keeper<'_, D>,
        sink: &mut K,
    ) -> Result<(), Ending>
        requires decided { IsDecided keeper.old }
        requires folded { AreFolded self.old.rules keeper.old.desk self.old.shares }

        ensures line { MatchResult result
            (λ _. AnswersLine (K.taken sink.old)
            (K.taken sink.new) self.old self.new keeper.old.desk keeper.new.desk line.now)
            (RefusesLine (K.taken sink.old)
            (K.taken sink.new) self.old self.new keeper.old.desk keeper.new.desk line.now number) }
        ensures sink { K.faults sink.new ≡ counts_sink result (K.faults sink.old) }
        ensures folded { AreFolded self.new.rules keeper.new.desk self.new.shares }

        ensures keeper { Moves D.state D.moment D.left_since (disk_of keeper.old) (disk_of keeper.new)
            keeper.old.desk (held_of keeper.old) keeper.new.desk (held_of keeper.new)
            (after keeper.old.desk (step_of (step_at self.old.reader line.now))) result }
        ensures decided { UnlessDisk result (IsDecided keeper.new) }
        ensures disk { D.faults (disk_of keeper.new) ≡ counts_disk result (D.faults (disk_of keeper.old)) }
        ensures same_disk { IsSameDisk keeper.old keeper.new }
    {
        let spot = self.reader.spot();
        match self.reader.line(line) {
            Ok(step) => match self.answer_step(&step, keeper, sink) {
                Ok(()) => {
                    self.notes.tell(number, &step, keeper.desk(), sink);
                    Ok(())
                }
                Err(ending) => Err(ending),
            },
            Err(LineRefusal::Syntax) => {
                note_script_line(self.alloc, number, spot, line, sink);
                Err(Ending::Line(number))
            }
            Err(LineRefusal::Memory(_)) => Err(Ending::Memory),
        }
    }

    // Does what the step asks for, and adds its answer to those that wait.
    fn answer_step<K: Sink, D: Disk>(
        &mut self,
        step: &Step<'_>,
        keeper: &mut Keeper<'_, D>,
        sink: &mut K,
    ) -> Result<(), Ending>
        requires asked { AsksRequest step.now }
        requires decided { IsDecided keeper.old }
        requires folded { AreFolded self.old.rules keeper.old.desk self.old.shares }

        ensures step { MatchResult result
            (λ _. AnswersStep (K.taken sink.old) (K.taken sink.new) self.old.answers self.new.answers
            keeper.old.desk keeper.new.desk self.old.shares self.new.shares step.now)
            (RefusesStep (K.taken sink.old) (K.taken sink.new) self.old.answers self.new.answers
            keeper.old.desk keeper.new.desk step.now) }
        ensures sink { K.faults sink.new ≡ counts_sink result (K.faults sink.old) }
        ensures reader { self.new.reader ≡ self.old.reader }
        ensures folded { AreFolded self.new.rules keeper.new.desk self.new.shares }

        ensures keeper { Moves D.state D.moment D.left_since (disk_of keeper.old) (disk_of keeper.new)
            keeper.old.desk (held_of keeper.old) keeper.new.desk (held_of keeper.new)
            (after keeper.old.desk step.now) result }
        ensures decided { UnlessDisk result (IsDecided keeper.new) }
        ensures disk { D.faults (disk_of keeper.new) ≡ counts_disk result (D.faults (disk_of keeper.old)) }
        ensures same_disk { IsSameDisk keeper.old keeper.new }
    {
        if is_question(step) {
            self.ask(keeper.desk(), step)?;
            return Ok(());
        }
        self.change(step, keeper, sink)
    }

    // The same for a step that changes the policy state or the open shares.
    fn change<K: Sink, D: Disk>(
        &mut self,
        step: &Step<'_>,
        keeper: &mut Keeper<'_, D>,
        sink: &mut K,
    ) -> Result<(), Ending>
        requires change { is_question step.now ≡ false }
        requires decided { IsDecided keeper.old }
        requires folded { AreFolded self.old.rules keeper.old.desk self.old.shares }

        ensures step { MatchResult result
            (λ _. AnswersStep (K.taken sink.old) (K.taken sink.new) self.old.answers self.new.answers
            keeper.old.desk keeper.new.desk self.old.shares self.new.shares step.now)
            (RefusesStep (K.taken sink.old) (K.taken sink.new) self.old.answers self.new.answers
            keeper.old.desk keeper.new.desk step.now) }
        ensures sink { K.faults sink.new ≡ counts_sink result (K.faults sink.old) }
        ensures reader { self.new.reader ≡ self.old.reader }
        ensures folded { AreFolded self.new.rules keeper.new.desk self.new.shares }

        ensures keeper { Moves D.state D.moment D.left_since (disk_of keeper.old) (disk_of keeper.new)
            keeper.old.desk (held_of keeper.old) keeper.new.desk (held_of keeper.new)
            (after keeper.old.desk step.now) result }
        ensures decided { UnlessDisk result (IsDecided keeper.new) }
        ensures disk { D.faults (disk_of keeper.new) ≡ counts_disk result (D.faults (disk_of keeper.old)) }
        ensures same_disk { IsSameDisk keeper.old keeper.new }
    {
        match step {
            Step::Command(command) => self.obey(command.get(), keeper, sink),
            Step::Level(request) => self.set_level(request.get(), keeper, sink),
            Step::Share {
                owner,
                target,
                name,
            } => {
                self.share(keeper.desk(), owner, target, name)?;
                Ok(())
            }
            Step::Unshare {
                owner,
                target,
                name,
            } => {
                self.unshare(keeper.desk(), owner, target, name)?;
                Ok(())
            }
            _ => unreachable!(),
        }
    }

    // Does what the command of a request for a level does, or answers why it is refused.
    fn set_level<K: Sink, D: Disk>(
        &mut self,
        request: &LevelRequest,
        keeper: &mut Keeper<'_, D>,
        sink: &mut K,
    ) -> Result<(), Ending>
        requires decided { IsDecided keeper.old }
        requires folded { AreFolded self.old.rules keeper.old.desk self.old.shares }

        ensures step { MatchResult result
            (λ _. AnswersStep (K.taken sink.old) (K.taken sink.new) self.old.answers self.new.answers
            keeper.old.desk keeper.new.desk self.old.shares self.new.shares (step.Level request.now))
            (RefusesStep (K.taken sink.old) (K.taken sink.new) self.old.answers self.new.answers
            keeper.old.desk keeper.new.desk (step.Level request.now)) }
        ensures sink { K.faults sink.new ≡ counts_sink result (K.faults sink.old) }
        ensures reader { self.new.reader ≡ self.old.reader }
        ensures folded { AreFolded self.new.rules keeper.new.desk self.new.shares }

        ensures keeper { Moves D.state D.moment D.left_since (disk_of keeper.old) (disk_of keeper.new)
            keeper.old.desk (held_of keeper.old) keeper.new.desk (held_of keeper.new)
            (after keeper.old.desk (step.Level request.now)) result }
        ensures decided { UnlessDisk result (IsDecided keeper.new) }
        ensures disk { D.faults (disk_of keeper.new) ≡ counts_disk result (D.faults (disk_of keeper.old)) }
        ensures same_disk { IsSameDisk keeper.old keeper.new }
    {
        let command = match level_command(self.alloc, keeper.desk(), request) {
            Ok(command) => command,
            Err(refusal) => {
                print_level_refusal(&refusal, &mut self.answers)?;
                self.notes.keep_level_refusal(refusal);
                return Ok(());
            }
        };
        self.obey(&command, keeper, sink)
    }

    // Applies a command. What is accepted is committed before its answer waits, and all earlier answers are taken
    // before it is committed.
    fn obey<K: Sink, D: Disk>(
        &mut self,
        command: &Command,
        keeper: &mut Keeper<'_, D>,
        sink: &mut K,
    ) -> Result<(), Ending>
        requires decided { IsDecided keeper.old }
        requires folded { AreFolded self.old.rules keeper.old.desk self.old.shares }

        ensures step { MatchResult result
            (λ _. AnswersStep (K.taken sink.old) (K.taken sink.new) self.old.answers self.new.answers
            keeper.old.desk keeper.new.desk self.old.shares self.new.shares (step.Command command.now))
            (RefusesStep (K.taken sink.old) (K.taken sink.new) self.old.answers self.new.answers
            keeper.old.desk keeper.new.desk (step.Command command.now)) }
        ensures sink { K.faults sink.new ≡ counts_sink result (K.faults sink.old) }
        ensures reader { self.new.reader ≡ self.old.reader }
        ensures folded { AreFolded self.new.rules keeper.new.desk self.new.shares }

        ensures keeper { Moves D.state D.moment D.left_since (disk_of keeper.old) (disk_of keeper.new)
            keeper.old.desk (held_of keeper.old) keeper.new.desk (held_of keeper.new)
            (after keeper.old.desk (step.Command command.now)) result }
        ensures decided { UnlessDisk result (IsDecided keeper.new) }
        ensures disk { D.faults (disk_of keeper.new) ≡ counts_disk result (D.faults (disk_of keeper.old)) }
        ensures same_disk { IsSameDisk keeper.old keeper.new }
    {
        let prepared = match keeper.prepare(command) {
            Ok(prepared) => prepared,
            Err(refusal) => {
                print_refusal(&refusal, &mut self.answers)?;
                self.notes.keep_refusal(refusal);
                return Ok(());
            }
        };
        self.flush(sink)?;
        let shares = self.shares.settle(prepared.desk().registry())?;
        print_done(
            command,
            prepared.desk().commit(),
            prepared.erased(),
            &mut self.answers,
        )?;
        match keeper.commit(prepared) {
            Ok(_) => {
                self.rules = FoldedRules::unasked();
                self.shares = shares;
                Ok(())
            }
            Err(_) => {
                self.answers.clear();
                Err(Ending::Disk)
            }
        }
    }

    /// Has the sink take the answers that wait.
    pub fn flush<K: Sink>(&mut self, sink: &mut K) -> Result<(), Ending>
        ensures flush { Flushes (K.taken sink.old) (K.taken sink.new) self.old self.new result }
        ensures count { K.faults sink.new ≡ counts_sink result (K.faults sink.old) }
    {
        if write_all(sink, self.answers.as_slice()).is_err() {
            return Err(Ending::Sink);
        }
        self.answers.clear();
        Ok(())
    }
}
