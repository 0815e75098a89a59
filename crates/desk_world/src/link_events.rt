// What the workers of links do, and how links close.
ghost use Rattle.std.specs.Prelude.{◌≡◌, ◌<◌, ◌&&◌, length, map, slice_get, is_some, Some, None, MatchOption};
ghost use Rattle.desk_world.specs.World.{entry_at, with_link};
ghost use Rattle.desk_world.specs.Links.{enter, is_nothing, may_read, read, outgoing, write, lose};
ghost use Rattle.desk_world.specs.Commits.{entered_before, hung_up, closed};
ghost use Rattle.desk_world.specs.parts.Parts.{world_of, Becomes};

use crate::agent_entries::{AgentEntry, EntryState};
use crate::evaluations::{is_nothing, reading_at, state_at};
use crate::links::{Asked, Link, Reading, Transit};
use crate::parts::Parts;
use crate::replies::Reply;

/// The worker enters the link in the roll. Says whether that event is enabled.
pub fn enter(world: &mut Parts, link: u32) -> bool
    ensures { Becomes (enter link (world_of world.old)) result (world_of world.new) }
{
    let note = world.note;
    let run = world.run;
    let Some(found) = world.links.get_mut(link as usize) else {
        return false;
    };
    if found.run != run || found.entered.is_some() {
        return false;
    }
    found.entered = Some(note);
    found.seen = note;
    true
}

/// The worker reads the policies of this commit. Says whether that event is enabled.
pub fn read(world: &mut Parts, link: u32, commit: u64) -> bool
    ensures { Becomes (read link commit (world_of world.old)) result (world_of world.new) }
{
    let Some(found) = world.links.get(link as usize) else {
        return false;
    };
    let Some(ask) = found.question else {
        return false;
    };
    let Some(asked) = world.asks.get(ask as usize) else {
        return false;
    };
    let Some(state) = state_at(&world.first, &world.later, commit) else {
        return false;
    };
    if !may_read(found, commit, world.published) {
        return false;
    }
    let alloc = *world.links.allocator();
    let reading = reading_at(alloc, state.desk(), &asked.question, commit, asked.simple);
    let changed = Link {
        seen: commit,
        reading,
        ..*found
    };
    set_link(world, link, changed);
    true
}

// It has entered and read nothing, and the commit is from the last one seen to the published one.
fn may_read(found: &Link, commit: u64, published: u64) -> bool
    ensures { result ≡ (is_some found.now.entered
        && (is_nothing found.now.reading && may_read found.now.seen published commit)) }
{
    found.entered.is_some()
        && is_nothing(&found.reading)
        && found.seen <= commit
        && commit <= published
}

/// The link of the number.
pub fn link_at(links: &[Link], link: u32) -> Option<&Link>
    ensures { MatchOption result (slice_get links.now link ≡ None)
        (λ found. slice_get links.now link ≡ Some found.now) }
{
    links.get(link as usize)
}

/// The ask of the number.
pub fn ask_at(asks: &[Asked], ask: u32) -> Option<&Asked>
    ensures { MatchOption result (slice_get asks.now ask ≡ None)
        (λ asked. slice_get asks.now ask ≡ Some asked.now) }
{
    asks.get(ask as usize)
}

/// The link is this one from now on.
pub fn set_link(world: &mut Parts, link: u32, changed: Link)
    requires { link < length world.old.links.items }
    ensures { world_of world.new ≡ with_link link changed (world_of world.old) }
{
    world.links[link as usize] = changed;
}

/// The worker sends its reply. Says whether that event is enabled.
pub fn write(world: &mut Parts, link: u32) -> bool
    ensures { Becomes (write link (world_of world.old)) result (world_of world.new) }
{
    let Some(found) = world.links.get_mut(link as usize) else {
        return false;
    };
    let Some(ask) = found.question else {
        return false;
    };
    let Some(reply) = outgoing(found.run, &world.entries, &found.reading) else {
        return false;
    };
    if !found.up {
        return false;
    }
    found.question = None;
    found.reading = Reading::Nothing;
    found.reply = Some(Transit { ask, reply });
    true
}

// The reply of a reading, if it has one.
fn outgoing(run: u32, entries: &[AgentEntry], reading: &Reading) -> Option<Reply>
    ensures { result ≡ outgoing run entries.now reading.now }
{
    match reading {
        Reading::Nothing | Reading::Due { .. } => None,
        Reading::Ready(reply) => Some(*reply),
        Reading::Waiting {
            commit,
            kind,
            number,
        } => {
            let (commit, kind, number) = (*commit, *kind, *number);
            let entry = entry_at(entries, run, number)?;
            match entry.state {
                EntryState::Open => None,
                EntryState::Gone => Some(Reply::AgentGone { commit, number }),
                EntryState::Answered(allowed) => Some(Reply::FromAgent {
                    commit,
                    kind,
                    number,
                    allowed,
                }),
            }
        }
    }
}

/// The entry of this number in this run.
pub fn entry_at(entries: &[AgentEntry], run: u32, number: u32) -> Option<&AgentEntry>
    ensures { MatchOption result (entry_at run number entries.now ≡ None)
        (λ entry. entry_at run number entries.now ≡ Some entry.now) }
{
    for entry in entries {
        if entry.run == run && entry.number == number {
            return Some(entry);
        }
    }
    None
}

/// The link is closed. Says whether that event is enabled.
pub fn lose(world: &mut Parts, link: u32) -> bool
    ensures { Becomes (lose link (world_of world.old)) result (world_of world.new) }
{
    let Some(found) = world.links.get_mut(link as usize) else {
        return false;
    };
    if !found.up {
        return false;
    }
    found.up = false;
    true
}

/// Every link that entered before the published commit is closed.
pub fn hang_up(links: &mut [Link], published: u64)
    ensures { links.new ≡ map (hung_up published) links.old }
{
    for link in links.iter_mut() {
        hang_up_one(link, published);
    }
}

fn hang_up_one(link: &mut Link, published: u64)
    ensures { link.new ≡ hung_up published link.old }
{
    link.up = link.up && !entered_before(link.entered, published);
}

fn entered_before(entered: Option<u64>, published: u64) -> bool
    ensures { result ≡ entered_before published entered }
{
    match entered {
        None => false,
        Some(commit) => commit < published,
    }
}

/// Every link is closed.
pub fn close_all(links: &mut [Link])
    ensures { links.new ≡ map closed links.old }
{
    for link in links.iter_mut() {
        close(link);
    }
}

fn close(link: &mut Link)
    ensures { link.new ≡ closed link.old }
{
    link.up = false;
}
