// What a list of events leads to, as a text: `not enabled N` with the place of the first event that is not enabled, or
// the replies that clients were given, with `; ` behind each:
//
//     ASK RUN judged COMMIT KIND          ASK RUN from COMMIT KIND NUMBER ALLOWED
//     ASK RUN simple COMMIT KIND          ASK RUN none COMMIT KIND
//     ASK RUN gone COMMIT NUMBER          ASK RUN full COMMIT KIND MOST
//
// or `no reply`. Of more than twenty replies it is their number and the last one.
use crate::event_texts::add_events;
use cases_words::Failure;
use desk_state::Desk;
use desk_world::{Event, Given, Reply, World, WorldRefusal, run};
use std::alloc::{AllocError, Global};
use std::fmt::Write;

// So many replies are told one by one.
const MOST_TOLD: usize = 20;

fn put_reply(text: &mut String, reply: &Reply) -> Result<(), AllocError> {
    match reply {
        Reply::Judged(verdict) => {
            write!(text, "judged {} {}", verdict.commit, verdict.answer.kind.0)
        }
        Reply::FromAgent {
            commit,
            kind,
            number,
            allowed,
        } => write!(text, "from {commit} {} {number} {allowed}", kind.0),
        Reply::NotResolved { commit, kind } => write!(text, "simple {commit} {}", kind.0),
        Reply::NoAgent { commit, kind } => write!(text, "none {commit} {}", kind.0),
        Reply::AgentGone { commit, number } => write!(text, "gone {commit} {number}"),
        Reply::AgentFull { commit, kind, most } => {
            write!(text, "full {commit} {} {most}", kind.0)
        }
    }
}

fn put_given(text: &mut String, given: &[Given]) -> Result<(), AllocError> {
    if given.is_empty() {
        return text.push_str("no reply");
    }
    for one in given {
        write!(text, "{} {} ", one.ask, one.run)?;
        put_reply(text, &one.reply)?;
        text.push_str("; ")?;
    }
    Ok(())
}

fn put_told(text: &mut String, given: &[Given]) -> Result<(), AllocError> {
    if given.len() <= MOST_TOLD {
        return put_given(text, given);
    }
    write!(text, "{} replies, the last ", given.len())?;
    put_given(text, &given[given.len() - 1..])
}

/// The world after the events, from a fresh one; or why there is none.
fn ran(alloc: Global, events: &[Event]) -> Result<World, WorldRefusal> {
    let desk = fresh_desk(alloc)?;
    let world = fresh_world(alloc, &desk);
    drop(desk);
    let world = world?;
    let ran = run_in_room(&world, events);
    drop(world);
    ran
}

fn run_in_room(world: &World, events: &[Event]) -> Result<World, WorldRefusal> {
    if !world.has_room(events.len()) {
        return Err(WorldRefusal::NotEnabled(usize::MAX));
    }
    run(world, events)
}

fn fresh_desk(alloc: Global) -> Result<Desk, WorldRefusal> {
    match Desk::fresh(alloc) {
        Ok(desk) => Ok(desk),
        Err(error) => Err(WorldRefusal::Memory(error)),
    }
}

fn fresh_world(alloc: Global, desk: &Desk) -> Result<World, WorldRefusal> {
    match World::fresh(alloc, desk) {
        Ok(world) => Ok(world),
        Err(error) => Err(WorldRefusal::Memory(error)),
    }
}

// The text with the number in the place of each `@`.
fn numbered(alloc: Global, text: &str, number: u32) -> Result<String, AllocError> {
    let number = format!(in alloc; "{number}")?;
    let mut whole = String::new(alloc);
    for (place, part) in text.split('@').enumerate() {
        if place > 0 {
            whole.push_str(number.as_str())?;
        }
        whole.push_str(part)?;
    }
    Ok(whole)
}

fn add_repeated(
    alloc: Global,
    events: &mut Vec<Event>,
    count: u32,
    text: &str,
) -> Result<(), Failure> {
    for number in 0..count {
        add_events(alloc, events, numbered(alloc, text, number)?.as_str())?;
    }
    Ok(())
}

// A part of a list: `N * LIST` is the list so often, in each turn with the turn's number, from 0, for `@`.
fn add_part(alloc: Global, events: &mut Vec<Event>, part: &str) -> Result<(), Failure> {
    let Some((count, text)) = part.split_once(" * ") else {
        return add_events(alloc, events, part);
    };
    match count.trim().parse::<u32>() {
        Ok(count) => add_repeated(alloc, events, count, text),
        Err(_) => Err(Failure::Words),
    }
}

// What the events lead to.
fn put_outcome(alloc: Global, text: &mut String, events: &[Event]) -> Result<(), AllocError> {
    match ran(alloc, events) {
        Ok(world) => {
            let told = put_told(text, world.given());
            drop(world);
            told
        }
        Err(WorldRefusal::NotEnabled(at)) => write!(text, "not enabled {at}"),
        Err(WorldRefusal::Memory(error)) => Err(error),
    }
}

fn add_parts(alloc: Global, events: &mut Vec<Event>, line: &str) -> Result<(), Failure> {
    for part in line.split(" / ") {
        add_part(alloc, events, part)?;
    }
    Ok(())
}

fn line_told(alloc: Global, events: &mut Vec<Event>, line: &str) -> Result<String, Failure> {
    add_parts(alloc, events, line)?;
    let mut text = String::new(alloc);
    put_outcome(alloc, &mut text, events)?;
    Ok(text)
}

/// What the list of a line leads to. Its parts stand between ` / `.
pub fn line_outcome(alloc: Global, line: &str) -> Result<String, Failure> {
    let mut events = Vec::new(alloc);
    let told = line_told(alloc, &mut events, line);
    drop(events);
    told
}
