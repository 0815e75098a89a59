ghost use Rattle.std.specs.Prelude.{◌≡◌, ◌<◌, ◌≤◌, ◌∷◌, [], IfOk};
ghost use Rattle.live_roll.specs.Roll.{IsNew};
ghost use Rattle.state_list.specs.Opening.{book_of};
ghost use Rattle.live_desk.specs.Seat.{new_seats};

use crate::publishers::{Publisher, Ready};
use crate::seats::Seat;
use desk_state::Desk;
use link_ports::HangEnd;
use live_roll::{Event, Roll};
use state_list::{Events, Front, Naming, Opened};
use std::alloc::{AllocError, Global};
use std::sync::Wait;

/// A publisher that has published this state alone, so many seats, numbered from 0, and a roll whose note is the
/// state's commit. The published states are the first of these lists, and the roll's log is the second; neither has
/// entries yet. Fails for want of memory alone. May wait.
pub fn start<J: Naming, H: HangEnd, R: Wait>(
    rt: &R,
    alloc: Global,
    opened: Opened<Desk>,
    happened: Opened<Event>,
    desk: &Desk,
    seats: u32,
) -> Result<(Publisher<J>, Vec<Seat<J>>, Roll<H, J>), AllocError>
    requires list { book_of opened ≡ J.book }
    requires log { book_of happened ≡ J.events }
    requires some { 0 < seats }
    requires most { seats ≤ 64 }
    ensures published { IfOk result (λ started. started.0 ≡ desk.now ∷ []) }
    ensures seats { IfOk result (λ started. started.1.items ≡ new_seats seats) }
    ensures roll { IfOk result (λ started. IsNew desk.now.commit seats started.2) }
{
    let roll = Roll::new(alloc, happened, desk.commit(), seats)?;
    let first = Ready::of(alloc, desk)?;
    let (publisher, unseen) = Publisher::open(rt, alloc, opened, first, seats as usize)?;
    match seats_of(rt, alloc, &publisher, &unseen, roll.known(), seats) {
        Ok(seats) => Ok((publisher, seats, roll)),
        Err(refusal) => {
            publisher.end(rt);
            Err(refusal)
        }
    }
}

// So many seats, numbered from 0, that have seen nothing and know of no event.
fn seats_of<J: Naming, R: Wait>(
    rt: &R,
    alloc: Global,
    publisher: &Publisher<J>,
    unseen: &Front<Desk, J>,
    events: &Front<Event, Events<J>>,
    count: u32,
) -> Result<Vec<Seat<J>>, AllocError>
    requires count { count ≤ 64 }
    requires unseen { unseen.now ≡ [] }
    requires quiet { events.now ≡ [] }
    ensures { IfOk result (λ seats. seats.items ≡ new_seats count) }
{
    let mut seats = Vec::with_capacity(alloc, count as usize)?;
    for number in 0..count {
        let seat = Seat::of(
            alloc,
            publisher.reader(rt),
            unseen.again(),
            events.again(),
            number,
        )?;
        seats.push(seat)?;
    }
    Ok(seats)
}
