ghost use Rattle.std.specs.Prelude.{◌≡◌, true, Some, IfOk, OnOk};
ghost use Rattle.line_answers.specs.Refusals.{names_a_rule};
ghost use Rattle.line_script.specs.declared.steps.Step.TheVariants as step;
ghost use Rattle.ctl_run.specs.Behind.{after, made_by, RunsLine};

use desk_ports::Bytes;
use desk_state::{Command, Desk, Refusal};
use line_answers::{LineAnswer, RuleBroken, print};
use line_script::{LineRefusal, Place, Reader, Step};
use std::alloc::{AllocError, Global};
use text_lines::split_line;

/// The most bytes of a script.
const MOST_SCRIPT_BYTES: u32 = 16_777_216;

/// A line that was refused: its number, from 1, and the answer that a service gives.
#[derive(Drop)]
pub struct RefusedLine {
    pub line: u32,
    pub answer: Bytes,
}

/// What a script leads to.
#[derive(Drop)]
pub struct Ran {
    /// The state behind the last line.
    pub desk: Desk,
    /// How many commands were accepted.
    pub accepted: u32,
    /// The lines that were refused, in their order.
    pub refused: Vec<RefusedLine>,
}

/// Why a script was not run to its end.
#[derive(Clone, Copy)]
pub enum RunFault {
    /// The line of this number, from 1, is outside the grammar.
    Syntax(u32),
    /// The script has more than 16,777,216 bytes.
    TooLong,
    Memory(AllocError),
}

/// Runs the script on the state.
pub fn run_script(alloc: Global, desk: Desk, script: &[u8]) -> Result<Ran, RunFault>
    ensures { IfOk result (λ ran. made_by script.now desk ≡ Some ran.desk) }
{
    if script.len() > MOST_SCRIPT_BYTES as usize {
        return Err(RunFault::TooLong);
    }
    let ran = Ran {
        desk,
        accepted: 0,
        refused: Vec::new(alloc),
    };
    run_lines(alloc, ran, script)
}

#[tactic(auto, using(crate::proofs::Turning::turned, crate::proofs::Turning::ended))]
fn run_lines(alloc: Global, start: Ran, script: &[u8]) -> Result<Ran, RunFault>
    ensures { IfOk result (λ ran. made_by script.now start.desk ≡ Some ran.desk) }
{
    let mut ran = start;
    let mut reader = Reader::new(alloc, Place::Admin);
    let mut number = 0u32;
    let mut rest = script;
    while let Some((line, after)) = split_line(rest) {
        number = number.saturating_add(1);
        run_line(alloc, &mut reader, line, number, &mut ran)?;
        rest = after;
    }
    if reader.in_block() {
        return Err(RunFault::Syntax(number.saturating_add(1)));
    }
    Ok(ran)
}

// Reads one line, and runs its step.
fn run_line(
    alloc: Global,
    reader: &mut Reader,
    line: &[u8],
    number: u32,
    ran: &mut Ran,
) -> Result<(), RunFault>
    ensures { OnOk result (RunsLine reader.old ran.old.desk line.now reader.new ran.new.desk) }
{
    match reader.line(line) {
        Ok(step) => {
            let done = run_step(alloc, &step, number, ran);
            // proof: handed on by value, so that it is not gone through variant by variant here.
            drop(step);
            done
        }
        Err(LineRefusal::Syntax) => Err(RunFault::Syntax(number)),
        Err(LineRefusal::Memory(error)) => Err(RunFault::Memory(error)),
    }
}

// Runs a step. A question changes nothing.
fn run_step(alloc: Global, step: &Step<'_>, number: u32, ran: &mut Ran) -> Result<(), RunFault>
    ensures { OnOk result (ran.new.desk ≡ after ran.old.desk step.now) }
{
    match step {
        Step::Command(command) => obey(alloc, command.get(), number, ran),
        Step::Level(_) => Ok(()),
        Step::Nothing => Ok(()),
        Step::List { .. } => Ok(()),
        Step::Check(_) => Ok(()),
        Step::From { .. } => Ok(()),
        Step::Access { .. } => Ok(()),
        Step::Levels { .. } => Ok(()),
        Step::Audit { .. } => Ok(()),
        Step::Share { .. } => Ok(()),
        Step::Unshare { .. } => Ok(()),
        Step::Shares => Ok(()),
        Step::Status => Ok(()),
        Step::Stop => Ok(()),
    }
}

// Applies a command, or keeps why it is refused.
#[tactic(auto, using(crate::proofs::Refused::stays))]
fn obey(alloc: Global, command: &Command, number: u32, ran: &mut Ran) -> Result<(), RunFault>
    ensures { OnOk result (ran.new.desk ≡ after ran.old.desk (step.Command command.now)) }
{
    match ran.desk.apply(command) {
        Ok(applied) => {
            ran.desk = applied.desk;
            ran.accepted = ran.accepted.saturating_add(1);
            Ok(())
        }
        Err(Refusal::Memory(error)) => Err(RunFault::Memory(error)),
        Err(refusal) => match answer_to(alloc, &refusal) {
            Ok(answer) => keep(ran, number, answer),
            Err(error) => Err(RunFault::Memory(error)),
        },
    }
}

// The answer of a refused command.
fn answer_to(alloc: Global, refusal: &Refusal) -> Result<Bytes, AllocError>
    ensures { OnOk result (names_a_rule refusal.now ≡ true) }
{
    let broken = RuleBroken::of(refusal)?;
    let mut answer = Bytes::new(alloc);
    print(&LineAnswer::Refused(broken), &mut answer)?;
    Ok(answer)
}

fn keep(ran: &mut Ran, line: u32, answer: Bytes) -> Result<(), RunFault>
    ensures { ran.new.desk ≡ ran.old.desk }
{
    match ran.refused.push(RefusedLine { line, answer }) {
        Ok(()) => Ok(()),
        Err(failed) => Err(RunFault::Memory(AllocError::from(failed))),
    }
}
