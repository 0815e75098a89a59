ghost use Rattle.std.specs.Prelude.{Some};
ghost use Rattle.line_script.specs.declared.steps.Step.TheVariants as step;
ghost use Rattle.script_words.specs.Reading.{Gives};

use app_registry::Ident;
use cynara_keys::{BorrowedQuestion, BucketName, Filter, Name};
use desk_ports::Boxed;
use desk_state::Command;
use level_requests::LevelRequest;
use script_words::LineRefusal;
use smack_rules::{Label, Modes};
use std::alloc::Global;

/// What a line of a script asks for. The names of a question stand in the line.
#[derive(Debug, Drop)]
pub enum Step<'a> {
    /// Nothing: a blank line, a comment, or a line within a block.
    Nothing,
    /// A change of the policy state. A block is one command, which its last line gives.
    Command(Boxed<Command>),
    /// The policies of a bucket whose keys the filter admits.
    List {
        bucket: BucketName,
        filter: Boxed<Filter>,
    },
    /// The verdict on a question, from the root bucket.
    Check(BorrowedQuestion<'a>),
    /// The verdict of a bucket on a question. With `deep` the buckets are followed that its policies point to.
    From {
        bucket: BucketName,
        deep: bool,
        question: BorrowedQuestion<'a>,
    },
    /// The decision of Smack under the rules of all packages, and those of the open shares behind them.
    Access {
        subject: Label,
        object: Label,
        asked: Modes,
    },
    /// That a user sets a level for an application and a privilege, or an administrator sets one for a user.
    Level(Boxed<LevelRequest>),
    /// The levels that the user of this number has set.
    Levels {
        uid: u32,
    },
    /// What the applications of a user may do.
    Audit {
        user: Name,
    },
    /// That an application shares the place of this name with another one, once more.
    Share {
        owner: Ident,
        target: Ident,
        name: Ident,
    },
    /// The same once less.
    Unshare {
        owner: Ident,
        target: Ident,
        name: Ident,
    },
    /// The Smack rules that the open shares give.
    Shares,
    /// The number of the last accepted command.
    Status,
    /// The end of the service.
    Stop,
}

impl<'a> Step<'a> {
    // The step that is this command.
    pub(crate) fn of_command(alloc: Global, command: Command) -> Result<Step<'a>, LineRefusal>
        ensures { Gives result (Some (step.Command command)) }
    {
        match Boxed::of(alloc, command) {
            Ok(command) => Ok(Step::Command(command)),
            Err(error) => Err(LineRefusal::Memory(error)),
        }
    }
}
