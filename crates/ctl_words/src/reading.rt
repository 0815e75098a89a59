// Reading the words by clap.
use crate::grammar::program;
use crate::orders::{Asked, At, LevelWords, LogWords, Order, Style, Subject, Unread};
use clap::error::ErrorKind;
use clap::{ArgMatches, Error};
use std::alloc::{AllocError, Global};

/// How long a service has to answer where no time is given.
const USUAL_SECONDS: u32 = 5;

/// Reads the words behind the program's name. `Shown` where they ask for the help or the version, `Wrong` with what is
/// wrong and which words are near where clap does not take them, and `Memory` where there was none.
pub fn read_order<'a>(alloc: Global, words: &'a [String]) -> Result<Order<'a>, Unread> {
    let command = match program(alloc) {
        Ok(command) => command,
        Err(error) => return Err(Unread::Memory(error)),
    };
    match command.try_get_matches_from(words) {
        Ok(matches) => match order_of(&matches) {
            Some(order) => Ok(order),
            None => Err(Unread::Memory(AllocError)),
        },
        Err(error) => Err(unread(alloc, &error)),
    }
}

// What clap says of words that it does not take.
fn unread(alloc: Global, error: &Error) -> Unread {
    let kind = error.kind();
    if kind == ErrorKind::OutOfMemory {
        return Unread::Memory(AllocError);
    }
    match format!(in alloc; "{error}") {
        Ok(text) => match kind {
            ErrorKind::DisplayHelp | ErrorKind::DisplayVersion => Unread::Shown(text),
            _ => Unread::Wrong(text),
        },
        Err(error) => Unread::Memory(error),
    }
}

fn order_of<'a>(matches: &ArgMatches<'a>) -> Option<Order<'a>> {
    let (name, values) = matches.subcommand()?;
    match name {
        "may" => may_order(values),
        "explain" => explain_order(values),
        "who" => who_order(values),
        "level" => level_order(values),
        "log" => Some(log_order(values)),
        "import-cynara" => import_order(values),
        "plan" => plan_order(values),
        _ => short_order(name, values),
    }
}

// An order without words of its own.
fn short_order<'a>(name: &str, values: &ArgMatches<'a>) -> Option<Order<'a>> {
    let at = source_in(values);
    match name {
        "export" => Some(Order::Export { at }),
        "users" => Some(listing(Subject::Users, at)),
        "packages" => Some(listing(Subject::Packages, at)),
        "apps" => Some(listing(Subject::Apps, at)),
        "buckets" => Some(listing(Subject::Buckets, at)),
        "status" => Some(listing(Subject::Status, at)),
        _ => None,
    }
}

fn listing<'a>(subject: Subject, at: At<'a>) -> Order<'a> {
    Order::List { subject, at }
}

// How many seconds the service has.
fn seconds_in(values: &ArgMatches<'_>) -> u32 {
    match values.get_one::<u32>("timeout") {
        Some(seconds) => seconds,
        None => USUAL_SECONDS,
    }
}

fn source_in<'a>(values: &ArgMatches<'a>) -> At<'a> {
    match values.get_str("store") {
        Some(folder) => At::Copy { folder },
        None => At::Service {
            seconds: seconds_in(values),
        },
    }
}

fn asked_in<'a>(values: &ArgMatches<'a>) -> Option<Asked<'a>> {
    let client = values.get_str("CLIENT")?;
    let user = values.get_str("USER")?;
    let privilege = values.get_str("PRIVILEGE")?;
    Some(Asked {
        client,
        user,
        privilege,
    })
}

fn may_order<'a>(values: &ArgMatches<'a>) -> Option<Order<'a>> {
    let asked = asked_in(values)?;
    let style = if values.get_flag("quiet") {
        Style::Quiet
    } else if values.get_flag("json") {
        Style::Json
    } else {
        Style::Line
    };
    Some(Order::May {
        asked,
        style,
        seconds: seconds_in(values),
    })
}

fn explain_order<'a>(values: &ArgMatches<'a>) -> Option<Order<'a>> {
    let asked = asked_in(values)?;
    let at = source_in(values);
    Some(Order::Explain { asked, at })
}

fn who_order<'a>(values: &ArgMatches<'a>) -> Option<Order<'a>> {
    let privilege = values.get_str("PRIVILEGE")?;
    Some(Order::Who {
        privilege,
        user: values.get_str("user"),
        at: source_in(values),
    })
}

fn level_order<'a>(matches: &ArgMatches<'a>) -> Option<Order<'a>> {
    let (name, values) = matches.subcommand()?;
    let user = values.get_str("UID")?;
    if name == "get" {
        return Some(Order::GetLevels {
            user,
            at: source_in(values),
        });
    }
    let words = LevelWords {
        by: values.get_str("by"),
        user,
        client: values.get_str("CLIENT")?,
        privilege: values.get_str("PRIVILEGE")?,
        level: values.get_str("LEVEL")?,
    };
    Some(Order::SetLevel {
        words,
        seconds: seconds_in(values),
    })
}

fn log_order<'a>(values: &ArgMatches<'a>) -> Order<'a> {
    let words = LogWords {
        file: values.get_str("FILE"),
        follow: values.get_flag("follow"),
        json: values.get_flag("json"),
        client: values.get_str("client"),
        user: values.get_str("user"),
        privilege: values.get_str("privilege"),
        result: values.get_str("result"),
        since: values.get_str("since"),
    };
    Order::Log { words }
}

fn import_order<'a>(values: &ArgMatches<'a>) -> Option<Order<'a>> {
    let folder = values.get_str("FOLDER")?;
    Some(Order::Import { folder })
}

fn plan_order<'a>(values: &ArgMatches<'a>) -> Option<Order<'a>> {
    let script = values.get_str("SCRIPT")?;
    let at = source_in(values);
    Some(Order::Plan { script, at })
}
