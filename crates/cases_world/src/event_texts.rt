// Lists of events in a compact text form, so that a list can be tried without writing code:
//
//     dial C     enter L     ask C Q     simple C Q     hit C E     send C     read L N     write L
//     deliver C     notice C     lose L     tell C N
//     stored P     undecided P     decide KEEP     publish     hang     acknowledge     stop KEEP [P]
//     join K     put L [MOST]     reply N ANSWER     withdraw L     leave K
//
// with `; ` between them. C is a client, L a link, E an entry of a cache, N a number, K the number of a kind, KEEP is
// `keep` or `drop`, ANSWER is `allow` or `deny`. Q is a privilege, which the client `c` asks to use for the user `u`.
// P is a command: `set PRIVILEGE K` sets a policy for everyone in the root bucket, and `drop-root` is refused by a
// rule. A word that is no number where one is read stands for the greatest one.
use bucket_store::{Change, Changes};
use cases_words::Failure;
use cynara_keys::{BucketName, Field, Key, Kind, Metadata, Name, PolicyResult, Question};
use desk_state::Command;
use desk_world::{Event, Half};
use std::alloc::Global;

fn word<'a>(words: &[&'a str], at: usize) -> &'a str {
    match words.get(at) {
        Some(word) => word,
        None => "",
    }
}

fn number(words: &[&str], at: usize) -> u32 {
    match word(words, at).parse::<u32>() {
        Ok(number) => number,
        Err(_) => u32::MAX,
    }
}

fn commit(words: &[&str], at: usize) -> u64 {
    u64::from(number(words, at))
}

fn kind(words: &[&str], at: usize) -> Kind {
    match word(words, at).parse::<u16>() {
        Ok(number) => Kind(number),
        Err(_) => Kind(u16::MAX),
    }
}

// Both values, or the first failure. Taking them one after another by `?` would let go of those before at each end,
// which is dear to prove.
fn both<A: Drop, B: Drop>(
    one: Result<A, Failure>,
    other: Result<B, Failure>,
) -> Result<(A, B), Failure> {
    match one {
        Ok(one) => with_second(one, other),
        Err(failure) => Err(failure),
    }
}

fn with_second<A: Drop, B: Drop>(one: A, other: Result<B, Failure>) -> Result<(A, B), Failure> {
    match other {
        Ok(other) => Ok((one, other)),
        Err(failure) => Err(failure),
    }
}

fn name(alloc: Global, text: &str) -> Result<Name, Failure> {
    Ok(Name::read(alloc, text.as_bytes())?)
}

fn question(alloc: Global, words: &[&str], at: usize) -> Result<Question, Failure> {
    let names = both(name(alloc, "c"), name(alloc, "u"));
    let ((client, user), privilege) = both(names, name(alloc, word(words, at)))?;
    Ok(Question::of(
        alloc,
        client.as_slice(),
        user.as_slice(),
        privilege.as_slice(),
    )?)
}

// For everyone.
fn key(alloc: Global, privilege: &str) -> Result<Key, Failure> {
    let privilege = Field::read(alloc, privilege.as_bytes())?;
    Ok(Key::of_fields(alloc, &Field::Any, &Field::Any, &privilege)?)
}

fn bare(alloc: Global, kind: Kind) -> Result<PolicyResult, Failure> {
    let metadata = Metadata::read(alloc, b"")?;
    Ok(PolicyResult::of(kind, metadata).ok().ok_or(Failure::Words)?)
}

// A list of one value.
fn one<T: Drop>(alloc: Global, value: T) -> Result<Vec<T>, Failure> {
    let mut list = Vec::new(alloc);
    list.push(value)?;
    Ok(list)
}

fn set(alloc: Global, privilege: &str, kind: Kind) -> Result<Command, Failure> {
    let (key, result) = both(key(alloc, privilege), bare(alloc, kind))?;
    let bucket = BucketName::root(alloc);
    let change = Change::Set {
        bucket,
        key,
        result,
    };
    let changes = Changes::of(one(alloc, change)?);
    Ok(Command::SetPolicies { changes })
}

fn command(alloc: Global, words: &[&str], at: usize) -> Result<Command, Failure> {
    if word(words, at) == "set" {
        let kind = kind(words, at.saturating_add(2));
        return set(alloc, word(words, at.saturating_add(1)), kind);
    }
    let bucket = BucketName::root(alloc);
    Ok(Command::RemoveBucket { bucket })
}

// An event of a client, of a link or of its cache.
fn of_clients(words: &[&str], at: u32) -> Option<Event> {
    let event = match word(words, 0) {
        "dial" => Event::Connect {
            half: Half::Dial { client: at },
        },
        "enter" => Event::Connect {
            half: Half::Enter { link: at },
        },
        "hit" => Event::Hit {
            client: at,
            entry: number(words, 2),
        },
        "tell" => Event::Tell {
            client: at,
            commit: commit(words, 2),
        },
        "send" => Event::Send { client: at },
        "deliver" => Event::Deliver { client: at },
        "notice" => Event::Notice { client: at },
        "read" => Event::Read {
            link: at,
            commit: commit(words, 2),
        },
        "write" => Event::Write { link: at },
        "lose" => Event::Lose { link: at },
        _ => return None,
    };
    Some(event)
}

// An event of a commit or of an agent.
fn of_commits(words: &[&str], at: u32) -> Option<Event> {
    let event = match word(words, 0) {
        "decide" => Event::Decide {
            kept: word(words, 1) == "keep",
        },
        "publish" => Event::Publish,
        "hang" => Event::Hang,
        "acknowledge" => Event::Acknowledge,
        "join" => Event::AgentJoin {
            kind: kind(words, 1),
        },
        "put" => Event::AgentPut {
            link: at,
            full: words.get(2).map(|_| number(words, 2)),
        },
        "reply" => Event::AgentReply {
            number: at,
            allowed: word(words, 2) == "allow",
        },
        "withdraw" => Event::AgentWithdraw { link: at },
        "leave" => Event::AgentLeave {
            kind: kind(words, 1),
        },
        _ => return None,
    };
    Some(event)
}

// An event without a command or a question.
fn plain(words: &[&str]) -> Result<Event, Failure> {
    let at = number(words, 1);
    match of_clients(words, at) {
        Some(event) => Ok(event),
        None => of_commits(words, at).ok_or(Failure::Words),
    }
}

fn ask(alloc: Global, words: &[&str], simple: bool) -> Result<Event, Failure> {
    Ok(Event::Ask {
        client: number(words, 1),
        question: question(alloc, words, 2)?,
        simple,
    })
}

fn stop(alloc: Global, words: &[&str]) -> Result<Event, Failure> {
    let kept = word(words, 1) == "keep";
    let command = if words.len() < 3 {
        None
    } else {
        Some(command(alloc, words, 2)?)
    };
    Ok(Event::Stop { command, kept })
}

fn of_words(alloc: Global, words: &[&str]) -> Result<Event, Failure> {
    match word(words, 0) {
        "ask" => ask(alloc, words, false),
        "simple" => ask(alloc, words, true),
        "stored" => Ok(Event::Stored {
            command: command(alloc, words, 1)?,
        }),
        "undecided" => Ok(Event::Undecided {
            command: command(alloc, words, 1)?,
        }),
        "stop" => stop(alloc, words),
        _ => plain(words),
    }
}

fn event(alloc: Global, text: &str) -> Result<Event, Failure> {
    let mut words = Vec::new(alloc);
    for word in text.split_whitespace() {
        words.push(word)?;
    }
    of_words(alloc, &words)
}

// Puts a value that was made behind the others.
fn put_made<T: Drop>(list: &mut Vec<T>, made: Result<T, Failure>) -> Result<(), Failure> {
    Ok(list.push(made?)?)
}

/// The events of a text are added to these.
pub fn add_events(alloc: Global, events: &mut Vec<Event>, text: &str) -> Result<(), Failure> {
    for part in text.split(';') {
        if !part.trim().is_empty() {
            put_made(events, event(alloc, part))?;
        }
    }
    Ok(())
}
