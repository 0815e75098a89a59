// Reading the words by clap.
ghost use Rattle.std.specs.Prelude.{◌≡◌, false, map, codes, option_map, option_and_then};
ghost use Rattle.std.specs.List.{list_any};
ghost use Rattle.std.specs.String.{string_bytes};
ghost use Rattle.clap.specs.Words.{first_of, found_of, rows_of, subcommand_rows_of};
ghost use Rattle.word_line.specs.Lines.{ReadsLine, is_dashed, refusal_of, words_of};
ghost use Rattle.word_line.specs.Spelling.{one, two, three, four, spelled};

use crate::grammar::program;
use crate::lines::{Line, LineRefusal};
use clap::ArgMatches;
use clap::error::ErrorKind;
use std::alloc::{AllocError, Global};

/// Reads the words behind the program's name, of which none begins with `-`: the command that they name, and the word
/// in each of its places. `NoLine` exactly where the first is no command's name, or so many words do not belong behind
/// it; `Memory` may come at any words.
pub fn read_line<'a>(alloc: Global, words: &'a [String]) -> Result<Line<'a>, LineRefusal>
    requires { list_any is_dashed (map string_bytes words.now) ≡ false }
    ensures { ReadsLine (map string_bytes words.entry.now) result }
{
    let command = match program(alloc) {
        Ok(command) => command,
        Err(error) => return Err(LineRefusal::Memory(error)),
    };
    match command.try_get_matches_from(words) {
        Ok(matches) => match line_of(&matches) {
            Some(line) => Ok(line),
            None => unreachable!(),
        },
        Err(error) => Err(refusal_of(error.kind())),
    }
}

// Why clap gave no matches.
fn refusal_of(kind: ErrorKind) -> LineRefusal
    ensures { result ≡ refusal_of kind }
{
    match kind {
        ErrorKind::OutOfMemory => LineRefusal::Memory(AllocError),
        _ => LineRefusal::NoLine,
    }
}

// The line that the matches tell.
fn line_of<'a>(matches: &ArgMatches<'a>) -> Option<Line<'a>>
    ensures { option_map words_of result
        ≡ option_and_then (λ found. spelled found.0 found.1) (subcommand_rows_of matches.now) }
{
    let (name, values) = matches.subcommand()?;
    named_line(name, values)
}

// The line that a command's name and its matches tell.
fn named_line<'a>(name: &str, values: &ArgMatches<'a>) -> Option<Line<'a>>
    ensures { option_map words_of result ≡ spelled name.now (rows_of (found_of values.now)) }
{
    match name {
        "local" => Some(Line::Local),
        "smack-load" => Some(Line::SmackLoad),
        "admin" => Some(Line::Admin),
        "serve" => serve_line(values),
        "watch" => watch_line(values),
        "sample" => sample_line(values),
        "agent" => agent_line(values),
        "smack-access" => access_line(values),
        "check" => check_line(values),
        "simple" => simple_line(values),
        _ => None,
    }
}

// The word in this place.
fn word_in<'a>(values: &ArgMatches<'a>, place: &str) -> Option<&'a str>
    ensures { option_map (λ word. word.now) result ≡ first_of place.now (rows_of (found_of values.now)) }
{
    values.get_str(place)
}

fn serve_line<'a>(values: &ArgMatches<'a>) -> Option<Line<'a>>
    ensures { option_map words_of result ≡ one (codes "serve") (codes "WORKERS") (rows_of (found_of values.now)) }
{
    let workers = word_in(values, "WORKERS")?;
    Some(Line::Serve { workers })
}

fn watch_line<'a>(values: &ArgMatches<'a>) -> Option<Line<'a>>
    ensures { option_map words_of result ≡ one (codes "watch") (codes "WORKERS") (rows_of (found_of values.now)) }
{
    let workers = word_in(values, "WORKERS")?;
    Some(Line::Watch { workers })
}

fn sample_line<'a>(values: &ArgMatches<'a>) -> Option<Line<'a>>
    ensures { option_map words_of result ≡ one (codes "sample") (codes "COUNT") (rows_of (found_of values.now)) }
{
    let count = word_in(values, "COUNT")?;
    Some(Line::Sample { count })
}

fn agent_line<'a>(values: &ArgMatches<'a>) -> Option<Line<'a>>
    ensures { option_map words_of result
        ≡ two (codes "agent") (codes "KIND") (codes "ANSWER") (rows_of (found_of values.now)) }
{
    let kind = word_in(values, "KIND")?;
    let answer = word_in(values, "ANSWER")?;
    Some(Line::Agent { kind, answer })
}

fn access_line<'a>(values: &ArgMatches<'a>) -> Option<Line<'a>>
    ensures { option_map words_of result
        ≡ three (codes "smack-access") (codes "SUBJECT") (codes "OBJECT") (codes "MODES")
        (rows_of (found_of values.now)) }
{
    let subject = word_in(values, "SUBJECT")?;
    let object = word_in(values, "OBJECT")?;
    let modes = word_in(values, "MODES")?;
    Some(Line::SmackAccess {
        subject,
        object,
        modes,
    })
}

fn check_line<'a>(values: &ArgMatches<'a>) -> Option<Line<'a>>
    ensures { option_map words_of result ≡ four (codes "check") (rows_of (found_of values.now)) }
{
    let client = word_in(values, "CLIENT")?;
    let session = word_in(values, "SESSION")?;
    let user = word_in(values, "USER")?;
    let privilege = word_in(values, "PRIVILEGE")?;
    Some(Line::Check {
        client,
        session,
        user,
        privilege,
    })
}

fn simple_line<'a>(values: &ArgMatches<'a>) -> Option<Line<'a>>
    ensures { option_map words_of result ≡ four (codes "simple") (rows_of (found_of values.now)) }
{
    let client = word_in(values, "CLIENT")?;
    let session = word_in(values, "SESSION")?;
    let user = word_in(values, "USER")?;
    let privilege = word_in(values, "PRIVILEGE")?;
    Some(Line::Simple {
        client,
        session,
        user,
        privilege,
    })
}
