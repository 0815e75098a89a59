// How the questions of the generated script are decided.
ghost use Rattle.std.specs.Prelude.{◌≡◌, ◌≤◌, ◌<◌, ◌+◌, ◌^◌, ◌∷◌, [], option_map};
ghost use Rattle.sample_runs.specs.Lines.{check_line, checks_of, checks};
ghost use Rattle.sample_runs.specs.Sample.{with_kind, kind_at, ask_line};
ghost use Rattle.sample_runs.specs.parts.Following.{Goes};
ghost use Rattle.sample_runs.specs.parts.Asking.{asked_of, AsksAll};

use crate::lines::put_check;
use crate::samples::Sample;
use bucket_eval::{Index, Scratch};
use cynara_keys::Kind;
use line_script::{LineRefusal, Step};
use run_endings::Ending;
use std::alloc::Global;

/// How many questions were allowed, and how many denied.
#[derive(Clone, Copy, Debug)]
pub struct Tally {
    pub allowed: u64,
    pub denied: u64,
}

impl Tally {
    // One result more.
    fn count(&mut self, kind: Kind)
        requires allowed { self.old.allowed < 2 ^ 63 }
        requires denied { self.old.denied < 2 ^ 63 }
        ensures { self.new ≡ with_kind kind.0 self.old }
    {
        if kind == Kind::ALLOW {
            self.allowed += 1;
        }
        if kind == Kind::DENY {
            self.denied += 1;
        }
    }
}

/// Asks the questions of so many applications, each of every user, over one index of the policy state.
pub fn ask_all(alloc: Global, sample: &mut Sample, count: u32) -> Result<Tally, Ending>
    ensures { AsksAll sample.old count result }
{
    let Ok(index) = Index::build(alloc, sample.desk.database()) else {
        return Err(Ending::Memory);
    };
    let Ok(mut scratch) = Scratch::new(alloc) else {
        return Err(Ending::Memory);
    };
    let mut tally = Tally {
        allowed: 0,
        denied: 0,
    };
    match ask_over(sample, &index, &mut scratch, &mut tally, count) {
        Ok(()) => Ok(tally),
        Err(ending) => Err(ending),
    }
}

// The same over an index.
fn ask_over(
    sample: &mut Sample,
    index: &Index,
    scratch: &mut Scratch,
    tally: &mut Tally,
    count: u32,
) -> Result<(), Ending>
    requires allowed { tally.old.allowed ≡ 0 }
    requires denied { tally.old.denied ≡ 0 }
    ensures { Goes (ask_line index.now) (checks 0 count) (asked_of sample.old tally.old)
        (asked_of sample.new tally.new) result }
{
    let mut app = 0;
    'apps: while app < count {
        match ask_app(sample, index, scratch, tally, app) {
            Ok(()) => {}
            Err(ending) => return Err(ending),
        }
        app += 1;
    }
    Ok(())
}

// The questions of the four users about an application.
fn ask_app(
    sample: &mut Sample,
    index: &Index,
    scratch: &mut Scratch,
    tally: &mut Tally,
    app: u32,
) -> Result<(), Ending>
    requires allowed { tally.old.allowed < 2 ^ 62 }
    requires denied { tally.old.denied < 2 ^ 62 }
    ensures asks { Goes (ask_line index.now) (checks_of app) (asked_of sample.old tally.old)
        (asked_of sample.new tally.new) result }
    ensures allowed { tally.new.allowed ≤ tally.old.allowed + 4 }
    ensures denied { tally.new.denied ≤ tally.old.denied + 4 }
{
    ask_user(sample, index, scratch, tally, app, 5001)?;
    ask_user(sample, index, scratch, tally, app, 5002)?;
    ask_user(sample, index, scratch, tally, app, 5003)?;
    ask_user(sample, index, scratch, tally, app, 5004)
}

// The question of one user about an application.
fn ask_user(
    sample: &mut Sample,
    index: &Index,
    scratch: &mut Scratch,
    tally: &mut Tally,
    app: u32,
    user: u32,
) -> Result<(), Ending>
    requires allowed { tally.old.allowed < 2 ^ 63 }
    requires denied { tally.old.denied < 2 ^ 63 }
    ensures asks { Goes (ask_line index.now) (check_line app user ∷ []) (asked_of sample.old tally.old)
        (asked_of sample.new tally.new) result }
    ensures allowed { tally.new.allowed ≤ tally.old.allowed + 1 }
    ensures denied { tally.new.denied ≤ tally.old.denied + 1 }
{
    match put_check(app, user, &mut sample.line) {
        Ok(()) => ask_line(sample, index, scratch, tally),
        Err(_) => Err(Ending::Memory),
    }
}

// The question of the line that was put.
fn ask_line(
    sample: &mut Sample,
    index: &Index,
    scratch: &mut Scratch,
    tally: &mut Tally,
) -> Result<(), Ending>
    requires allowed { tally.old.allowed < 2 ^ 63 }
    requires denied { tally.old.denied < 2 ^ 63 }
    ensures asks { Goes (ask_line index.now) (sample.old.line ∷ []) (asked_of sample.old tally.old)
        (asked_of sample.new tally.new) result }
    ensures allowed { tally.new.allowed ≤ tally.old.allowed + 1 }
    ensures denied { tally.new.denied ≤ tally.old.denied + 1 }
{
    sample.number = sample.number.saturating_add(1);
    match sample.reader.line(sample.line.as_slice()) {
        Ok(step) => match kind_asked(&step, index, scratch) {
            Some(kind) => {
                tally.count(kind);
                Ok(())
            }
            None => Err(Ending::Line(sample.number)),
        },
        Err(LineRefusal::Syntax) => Err(Ending::Line(sample.number)),
        Err(LineRefusal::Memory(_)) => Err(Ending::Memory),
    }
}

// The kind of the result that decides a step, where it is a question.
fn kind_asked(step: &Step<'_>, index: &Index, scratch: &mut Scratch) -> Option<Kind>
    ensures { option_map (λ kind. kind.0) result ≡ kind_at index.now step.now }
{
    match step {
        Step::Check(question) => Some(index.decide(scratch, question).result.kind()),
        _ => None,
    }
}
