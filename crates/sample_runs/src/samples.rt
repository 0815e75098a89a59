// The generated script, read line by line over a policy state in memory.
ghost use Rattle.std.specs.Prelude.{◌≡◌, true, [], ◌∷◌, Some, None, MatchOption, IfOk, IfErr, OnOk, OnErr};
ghost use Rattle.desk_state.specs.DeskState.{fresh};
ghost use Rattle.line_script.specs.Block.{outside};
ghost use Rattle.line_answers.specs.Refusals.{names_a_rule};
ghost use Rattle.line_script.specs.Turn.{AsksRequest};
ghost use Rattle.script_words.specs.declared.places.Place.TheVariants.{Local};
ghost use Rattle.script_replies.specs.Reply.{after_command};
ghost use Rattle.sample_runs.specs.Lines.{opening, install_line, denial, installs, denials};
ghost use Rattle.sample_runs.specs.Sample.{command_in, follow_line, prepared};

use crate::lines::{put_deny, put_install};
use desk_ports::Bytes;
use desk_state::{Command, Desk, Refusal};
use line_script::{LineRefusal, Place, Reader, Step};
use run_endings::Ending;
use std::alloc::{AllocError, Global};

/// A script that is read over a policy state, and the line that is read next.
#[derive(Drop)]
pub struct Sample {
    pub reader: Reader,
    pub desk: Desk,
    pub line: Bytes,
    /// How many lines were read.
    pub number: u32,
}

impl Sample {
    ghost use Rattle.sample_runs.specs.parts.Following.{stand_of, StopsAt, Goes};

    /// The script of so many applications, behind its commands.
    pub fn prepared(alloc: Global, count: u32) -> Result<Sample, Ending>
        ensures ok { IfOk result (λ sample. prepared count ≡ Some (stand_of sample)) }
        ensures err { IfErr result (StopsAt (prepared count)) }
    {
        let mut sample = match Sample::fresh(alloc) {
            Ok(sample) => sample,
            Err(_) => return Err(Ending::Memory),
        };
        match sample.open() {
            Ok(()) => {}
            Err(ending) => return Err(ending),
        }
        match sample.install_all(count) {
            Ok(()) => {}
            Err(ending) => return Err(ending),
        }
        match sample.deny_all(count) {
            Ok(()) => Ok(sample),
            Err(ending) => Err(ending),
        }
    }

    // Before the first line.
    fn fresh(alloc: Global) -> Result<Sample, AllocError>
        ensures { IfOk result (λ sample. stand_of sample ≡ record { block = outside Local; desk = fresh }) }
    {
        match Desk::fresh(alloc) {
            Ok(desk) => Ok(Sample {
                reader: Reader::new(alloc, Place::Local),
                desk,
                line: Bytes::new(alloc),
                number: 0,
            }),
            Err(error) => Err(error),
        }
    }

    // The layout, and a user of each type.
    fn open(&mut self) -> Result<(), Ending>
        ensures { Goes follow_line opening (stand_of self.old) (stand_of self.new) result }
    {
        self.follow_text(b"layout")?;
        self.follow_text(b"user 5001 system")?;
        self.follow_text(b"user 5002 admin")?;
        self.follow_text(b"user 5003 normal")?;
        self.follow_text(b"user 5004 guest")
    }

    // The installs of so many applications.
    fn install_all(&mut self, count: u32) -> Result<(), Ending>
        ensures { Goes follow_line (installs 0 count) (stand_of self.old) (stand_of self.new) result }
    {
        let mut app = 0;
        'apps: while app < count {
            match self.install(app) {
                Ok(()) => {}
                Err(ending) => return Err(ending),
            }
            app += 1;
        }
        Ok(())
    }

    fn install(&mut self, app: u32) -> Result<(), Ending>
        ensures { Goes follow_line (install_line app ∷ []) (stand_of self.old) (stand_of self.new) result }
    {
        match put_install(app, &mut self.line) {
            Ok(()) => self.follow(),
            Err(_) => Err(Ending::Memory),
        }
    }

    // What every third application is denied.
    fn deny_all(&mut self, count: u32) -> Result<(), Ending>
        ensures { Goes follow_line (denials 0 count) (stand_of self.old) (stand_of self.new) result }
    {
        let mut app = 0;
        'apps: while app < count {
            match self.deny(app) {
                Ok(()) => {}
                Err(ending) => return Err(ending),
            }
            app += 1;
        }
        Ok(())
    }

    // Denies the application's first privilege to the guest, where it is a third one.
    fn deny(&mut self, app: u32) -> Result<(), Ending>
        ensures { Goes follow_line (denial app) (stand_of self.old) (stand_of self.new) result }
    {
        if app % 3 != 0 {
            return Ok(());
        }
        match put_deny(app, &mut self.line) {
            Ok(()) => self.follow(),
            Err(_) => Err(Ending::Memory),
        }
    }

    // Reads this line, and does what it asks for.
    fn follow_text(&mut self, text: &[u8]) -> Result<(), Ending>
        ensures { Goes follow_line (text.now ∷ []) (stand_of self.old) (stand_of self.new) result }
    {
        self.line.clear();
        match self.line.append(text) {
            Ok(()) => self.follow(),
            Err(_) => Err(Ending::Memory),
        }
    }

    // Reads the line that was put, and does what it asks for.
    fn follow(&mut self) -> Result<(), Ending>
        ensures { Goes follow_line (self.old.line ∷ []) (stand_of self.old) (stand_of self.new) result }
    {
        self.number = self.number.saturating_add(1);
        match self.reader.line(self.line.as_slice()) {
            Ok(step) => match command_in(&step) {
                Some(command) => match obey(&mut self.desk, command) {
                    Ok(()) => Ok(()),
                    Err(_) => Err(Ending::Memory),
                },
                None => Err(Ending::Line(self.number)),
            },
            Err(LineRefusal::Syntax) => Err(Ending::Line(self.number)),
            Err(LineRefusal::Memory(_)) => Err(Ending::Memory),
        }
    }
}

// The command that a step is.
fn command_in<'s>(step: &'s Step<'_>) -> Option<&'s Command>
    ensures { MatchOption result (command_in step.now ≡ None) (λ command. command_in step.now ≡ Some command.now) }
{
    match step {
        Step::Command(command) => Some(command.get()),
        _ => None,
    }
}

// Follows a command. One that is refused changes nothing.
fn obey(desk: &mut Desk, command: &Command) -> Result<(), AllocError>
    ensures { OnOk result (desk.new ≡ after_command desk.old command.now) }
{
    match desk.change(command) {
        Ok(_) => Ok(()),
        Err(refusal) => passed_over(refusal),
    }
}

// Passes over a refusal that names a rule.
fn passed_over(refusal: Refusal) -> Result<(), AllocError>
    ensures { OnOk result (names_a_rule refusal ≡ true) }
{
    match refusal {
        Refusal::Memory(error) => Err(error),
        _ => Ok(()),
    }
}
