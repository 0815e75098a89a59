// The commands of the program, as clap is told of them.
ghost use Rattle.std.specs.Prelude.{◌≡◌, IfOk, List, [], ◌∷◌, false, codes};
ghost use Rattle.clap.specs.Words.{App, Rule, app_of, rule_of, shape_of};
ghost use Rattle.clap.specs.declared.builder.command.Command.TheViews.{out-Command as fields_of};
ghost use Rattle.word_line.specs.Grammar.{place, command, check_places, top, with_all, program};
ghost use Rattle.word_line.specs.Grammar.{folder_commands, service_commands, client_commands, script_commands};

use clap::{Arg, ArgAction, Command};
use std::alloc::{AllocError, Global};

/// What stands below the commands in the help. Its version is that of the file `VERSION`; the examples fail at another.
const AFTER_HELP: &str = "\
The folder 'store' and the sockets are in the directory that PRIVILEGE_DIR names, or else in the working directory.
Words that begin with - are outside the grammar: such a run ends with status 2. The page privilege(1) tells more.
This is privilege 0.1.0.";

// A place for one word.
fn place<'a>(alloc: Global, name: &'a str) -> Arg<'a>
    ensures rule { rule_of result ≡ place name.entry.now }
    ensures local { result.global ≡ false }
{
    Arg::new(alloc, name).required(true).action(ArgAction::Set)
}

// A command with no places.
fn bare<'a>(alloc: Global, name: &'a str, about: &'a str) -> Command<'a>
    ensures shape { shape_of result ≡ command name.entry.now [] }
    ensures local { (fields_of result).has_globals ≡ false }
{
    Command::new(alloc, name).about(about)
}

fn with_one<'a>(
    alloc: Global,
    name: &'a str,
    about: &'a str,
    first: &'a str,
) -> Result<Command<'a>, AllocError>
    ensures shape { IfOk result (λ made. shape_of made ≡ command name.entry.now (place first.entry.now ∷ [])) }
    ensures local { IfOk result (λ made. (fields_of made).has_globals ≡ false) }
{
    bare(alloc, name, about).arg(place(alloc, first))
}

fn with_two<'a>(
    alloc: Global,
    name: &'a str,
    about: &'a str,
    first: &'a str,
    second: &'a str,
) -> Result<Command<'a>, AllocError>
    ensures shape { IfOk result (λ made. shape_of made
        ≡ command name.entry.now (place first.entry.now ∷ place second.entry.now ∷ [])) }
    ensures local { IfOk result (λ made. (fields_of made).has_globals ≡ false) }
{
    with_one(alloc, name, about, first)?.arg(place(alloc, second))
}

fn with_three<'a>(
    alloc: Global,
    name: &'a str,
    about: &'a str,
    first: &'a str,
    second: &'a str,
    third: &'a str,
) -> Result<Command<'a>, AllocError>
    ensures shape { IfOk result (λ made. shape_of made
        ≡ command name.entry.now (place first.entry.now ∷ place second.entry.now ∷ place third.entry.now ∷ [])) }
    ensures local { IfOk result (λ made. (fields_of made).has_globals ≡ false) }
{
    with_two(alloc, name, about, first, second)?.arg(place(alloc, third))
}

// The program without its commands, and how its words are read.
fn top<'a>(alloc: Global) -> Command<'a>
    ensures app { app_of result ≡ record { top = top; subs = [] } }
{
    Command::new(alloc, "privilege")
        .about("Answers whether an application may do what it asks for.")
        .after_help(AFTER_HELP)
        .no_binary_name(true)
        .disable_help_flag(true)
        .disable_help_subcommand(true)
        .arg_required_else_help(true)
        .subcommand_required(true)
}

// The same, with the name that usage texts begin with.
fn named_top<'a>(alloc: Global) -> Result<Command<'a>, AllocError>
    ensures { IfOk result (λ made. app_of made ≡ record { top = top; subs = [] }) }
{
    top(alloc).bin_name("privilege")
}

/// The program, as clap reads its words.
pub(crate) fn program<'a>(alloc: Global) -> Result<Command<'a>, AllocError>
    ensures { IfOk result (λ made. app_of made ≡ program) }
{
    let folder = with_folder_commands(alloc, named_top(alloc)?)?;
    let service = with_service_commands(alloc, folder)?;
    let client = with_client_commands(alloc, service)?;
    with_script_commands(alloc, client)
}

// The commands that read the folder or the rules alone.
fn with_folder_commands<'a>(alloc: Global, above: Command<'a>) -> Result<Command<'a>, AllocError>
    ensures { IfOk result (λ made. app_of made ≡ with_all (app_of above.entry) folder_commands) }
{
    let local = bare(
        alloc,
        "local",
        "Answers the commands and questions of standard input, a line each, over the folder",
    );
    let load = bare(
        alloc,
        "smack-load",
        "Writes the Smack rules of all packages of the folder",
    );
    let access = with_three(
        alloc,
        "smack-access",
        "Decides one request under the Smack rules of standard input",
        "SUBJECT",
        "OBJECT",
        "MODES",
    )?;
    above
        .subcommand(local)?
        .subcommand(load)?
        .subcommand(access)
}

// The commands that serve.
fn with_service_commands<'a>(alloc: Global, above: Command<'a>) -> Result<Command<'a>, AllocError>
    ensures { IfOk result (λ made. app_of made ≡ with_all (app_of above.entry) service_commands) }
{
    let serve = with_one(
        alloc,
        "serve",
        "Serves launchers, administrators and agents, with the policies of the folder",
        "WORKERS",
    )?;
    let watch = with_one(
        alloc,
        "watch",
        "Serves so, and writes a line of each check that was answered",
        "WORKERS",
    )?;
    above.subcommand(serve)?.subcommand(watch)
}

// The commands that ask the service.
fn with_client_commands<'a>(alloc: Global, above: Command<'a>) -> Result<Command<'a>, AllocError>
    ensures { IfOk result (λ made. app_of made ≡ with_all (app_of above.entry) client_commands) }
{
    let check = with_names(
        alloc,
        "check",
        "Asks the service whether the client may use the privilege for the user",
    )?;
    let simple = with_names(alloc, "simple", "Asks the same, and no agent is asked")?;
    above.subcommand(check)?.subcommand(simple)
}

// The administrator's command, an agent's and the generated script's.
fn with_script_commands<'a>(alloc: Global, above: Command<'a>) -> Result<Command<'a>, AllocError>
    ensures { IfOk result (λ made. app_of made ≡ with_all (app_of above.entry) script_commands) }
{
    let admin = bare(
        alloc,
        "admin",
        "Sends the commands and questions of standard input to the service",
    );
    let agent = with_two(
        alloc,
        "agent",
        "Answers each question to agents of the kind so: allow, or deny",
        "KIND",
        "ANSWER",
    )?;
    let sample = with_one(
        alloc,
        "sample",
        "Runs a generated script of so many applications, and writes counts",
        "COUNT",
    )?;
    above
        .subcommand(admin)?
        .subcommand(agent)?
        .subcommand(sample)
}

// A command with the places of a question.
fn with_names<'a>(alloc: Global, name: &'a str, about: &'a str) -> Result<Command<'a>, AllocError>
    ensures shape { IfOk result (λ made. shape_of made ≡ command name.entry.now check_places) }
    ensures local { IfOk result (λ made. (fields_of made).has_globals ≡ false) }
{
    with_three(alloc, name, about, "CLIENT", "SESSION", "USER")?.arg(place(alloc, "PRIVILEGE"))
}
