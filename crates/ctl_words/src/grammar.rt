// The orders of `privctl`, as clap is told of them.
use clap::builder::ValueParser;
use clap::{Arg, ArgAction, Command};
use std::alloc::{AllocError, Global};

/// What stands below the orders in the help.
const AFTER_HELP: &str = "\
The sockets of the service are in the directory that PRIVILEGE_DIR names, or else in the working directory.
DIR is the folder of a copy of a store, as privilege-backup(8) makes it. The page privctl(1) tells more.";

const STORE_HELP: &str = "Asks this copy of a store, and no service";

const TIMEOUT_HELP: &str = "How long the service has to answer [default: 5]";

/// The longest time that a service may be given: a day.
const MOST_SECONDS: u64 = 86_400;

/// The words of levels.
const LEVELS: &[&str] = &["allow", "ask", "deny", "unset"];

/// The words of what a service decides.
const RESULTS: &[&str] = &["allow", "deny"];

// A place for one word.
fn place<'a>(alloc: Global, name: &'a str) -> Arg<'a> {
    Arg::new(alloc, name).required(true).action(ArgAction::Set)
}

// An option with a value.
fn option<'a>(alloc: Global, name: &'a str, value: &'a str, help: &'a str) -> Arg<'a> {
    Arg::new(alloc, name)
        .long(name)
        .value_name(value)
        .action(ArgAction::Set)
        .help(help)
}

// An option without a value.
fn flag<'a>(alloc: Global, name: &'a str, help: &'a str) -> Arg<'a> {
    Arg::new(alloc, name)
        .long(name)
        .action(ArgAction::SetTrue)
        .help(help)
}

fn timeout<'a>(alloc: Global) -> Arg<'a> {
    option(alloc, "timeout", "SECONDS", TIMEOUT_HELP).value_parser(ValueParser::unsigned(
        1,
        MOST_SECONDS,
    ))
}

// With the options that say where the state is read.
fn with_source<'a>(alloc: Global, above: Command<'a>) -> Result<Command<'a>, AllocError> {
    let store = option(alloc, "store", "DIR", STORE_HELP).conflicts_with("timeout")?;
    above.arg(store)?.arg(timeout(alloc))
}

fn bare<'a>(alloc: Global, name: &'a str, about: &'a str) -> Command<'a> {
    Command::new(alloc, name).about(about)
}

// With the places of a question.
fn with_question<'a>(alloc: Global, above: Command<'a>) -> Result<Command<'a>, AllocError> {
    above
        .arg(place(alloc, "CLIENT"))?
        .arg(place(alloc, "USER"))?
        .arg(place(alloc, "PRIVILEGE"))
}

fn may<'a>(alloc: Global) -> Result<Command<'a>, AllocError> {
    let quiet = flag(alloc, "quiet", "Says nothing: the status is the answer").short('q');
    let json = flag(alloc, "json", "Writes one line of JSON").conflicts_with("quiet")?;
    let made = bare(
        alloc,
        "may",
        "Asks the service. Status 0: allowed, 1: denied, 2: nobody decided, 3: not asked",
    );
    with_question(alloc, made.arg(quiet)?.arg(json)?.arg(timeout(alloc))?)
}

fn explain<'a>(alloc: Global) -> Result<Command<'a>, AllocError> {
    let made = bare(
        alloc,
        "explain",
        "Tells which policies match a question, and which one decides",
    );
    with_question(alloc, with_source(alloc, made)?)
}

fn who<'a>(alloc: Global) -> Result<Command<'a>, AllocError> {
    let user = option(alloc, "user", "UID", "Asks for this user alone");
    let made = bare(
        alloc,
        "who",
        "Tells which applications may use a privilege, user by user",
    );
    with_source(alloc, made.arg(user)?)?.arg(place(alloc, "PRIVILEGE"))
}

fn listing<'a>(alloc: Global, name: &'a str, about: &'a str) -> Result<Command<'a>, AllocError> {
    with_source(alloc, bare(alloc, name, about))
}

fn plan<'a>(alloc: Global) -> Result<Command<'a>, AllocError> {
    let made = bare(
        alloc,
        "plan",
        "Tells what a script would change, and changes nothing",
    );
    with_source(alloc, made)?.arg(place(alloc, "SCRIPT"))
}

fn level_get<'a>(alloc: Global) -> Result<Command<'a>, AllocError> {
    listing(alloc, "get", "Lists the levels that a user has set")?.arg(place(alloc, "UID"))
}

fn level_set<'a>(alloc: Global) -> Result<Command<'a>, AllocError> {
    let by = option(
        alloc,
        "by",
        "ADMIN",
        "The user who sets it as an administrator",
    );
    bare(alloc, "set", "Sets what an application may do for a user")
        .arg(by)?
        .arg(timeout(alloc))?
        .arg(place(alloc, "UID"))?
        .arg(place(alloc, "CLIENT"))?
        .arg(place(alloc, "PRIVILEGE"))?
        .arg(place(alloc, "LEVEL").value_parser(LEVELS))
}

fn level<'a>(alloc: Global) -> Result<Command<'a>, AllocError> {
    bare(
        alloc,
        "level",
        "Sets and lists what users let applications do",
    )
    .subcommand_required(true)
    .arg_required_else_help(true)
    .subcommand(level_get(alloc)?)?
    .subcommand(level_set(alloc)?)
}

fn log<'a>(alloc: Global) -> Result<Command<'a>, AllocError> {
    let file = Arg::new(alloc, "FILE").action(ArgAction::Set);
    bare(
        alloc,
        "log",
        "Reads what 'privilege watch' wrote, from standard input or a file",
    )
    .arg(flag(alloc, "json", "Writes a line of JSON for each"))?
    .arg(flag(alloc, "follow", "Waits for more at the end of FILE").short('f'))?
    .arg(option(alloc, "client", "CLIENT", "Only this client"))?
    .arg(option(alloc, "user", "USER", "Only this user"))?
    .arg(option(alloc, "privilege", "PRIVILEGE", "Only this privilege"))?
    .arg(option(alloc, "result", "RESULT", "Only this").value_parser(RESULTS))?
    .arg(option(
        alloc,
        "since",
        "TIME",
        "Only from this time on: 2026-12-01T08:00:00Z, or its front",
    ))?
    .arg(file)
}

fn import<'a>(alloc: Global) -> Result<Command<'a>, AllocError> {
    bare(
        alloc,
        "import-cynara",
        "Writes the script that makes the policies of a data base of Cynara",
    )
    .arg(place(alloc, "FOLDER"))
}

fn top<'a>(alloc: Global) -> Command<'a> {
    Command::new(alloc, "privctl")
        .about("Asks a device, or a copy of its store, who may do what, and why.")
        .version("0.1.0")
        .after_help(AFTER_HELP)
        .no_binary_name(true)
        .arg_required_else_help(true)
        .subcommand_required(true)
}

// The orders that ask of one question or privilege.
fn with_questions<'a>(alloc: Global, above: Command<'a>) -> Result<Command<'a>, AllocError> {
    above
        .subcommand(may(alloc)?)?
        .subcommand(explain(alloc)?)?
        .subcommand(who(alloc)?)
}

// The orders that list.
fn with_listings<'a>(alloc: Global, above: Command<'a>) -> Result<Command<'a>, AllocError> {
    let above = above
        .subcommand(listing(alloc, "users", "Lists the users, with their types")?)?
        .subcommand(listing(alloc, "packages", "Lists the packages")?)?
        .subcommand(listing(alloc, "apps", "Lists the installed applications")?)?;
    let buckets = listing(
        alloc,
        "buckets",
        "Lists the buckets, and how many policies each has",
    )?;
    let status = listing(
        alloc,
        "status",
        "Tells the commit and counts, and whether the service answers",
    )?;
    above.subcommand(buckets)?.subcommand(status)
}

// The orders about scripts.
fn with_scripts<'a>(alloc: Global, above: Command<'a>) -> Result<Command<'a>, AllocError> {
    above
        .subcommand(level(alloc)?)?
        .subcommand(listing(alloc, "export", "Writes the script that makes this device")?)?
        .subcommand(plan(alloc)?)
}

// The orders that read what others wrote.
fn with_readers<'a>(alloc: Global, above: Command<'a>) -> Result<Command<'a>, AllocError> {
    above.subcommand(import(alloc)?)?.subcommand(log(alloc)?)
}

/// The program, as clap reads its words.
pub(crate) fn program<'a>(alloc: Global) -> Result<Command<'a>, AllocError> {
    let asking = with_questions(alloc, top(alloc).bin_name("privctl")?)?;
    let listing = with_listings(alloc, asking)?;
    with_readers(alloc, with_scripts(alloc, listing)?)
}
