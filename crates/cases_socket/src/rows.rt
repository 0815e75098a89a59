// Rows of calls.
use crate::places::Places;
use crate::words::{Words, kind, number};
use desk_ports::PortFault;
use link_ports::{Dial, Door, DoorKind, HangEnd, Link, Net};
use socket_net::{SocketDoor, SocketLink, SocketNet};
use std::alloc::Global;
use std::sync::Arc;
use std::sync::atomic::{AtomicU64, Ordering};
use std::thread::{JoinHandle, Threads};
use std::time::Duration;
use std::{io, thread};

/// Makes the row of calls of these words, where it is one. Whether it is.
pub fn obey<T: Threads>(
    rt: &HostRuntime,
    threads: &T,
    places: &mut Places,
    words: &Words<'_>,
) -> io::Result<bool> {
    match words.call {
        "ask" => ask(rt, places, words)?,
        "serve" => serve(rt, places, words)?,
        "fill" => fill(rt, places, words)?,
        "wake" => wake(rt, threads, places, words)?,
        "rouse" => rouse(rt, threads, places, words)?,
        _ => return Ok(false),
    }
    Ok(true)
}

const FRAME: &[u8] = b"question";

// ask NET COUNT: dials so often, and each time sends a frame and receives it again.
fn ask(rt: &HostRuntime, places: &mut Places, words: &Words<'_>) -> io::Result<()> {
    let Some(net) = places.net(words.first) else {
        return Ok(());
    };
    let mut answered = 0u64;
    for _ in 0..number(words.second) {
        if is_answered(net) {
            answered = answered.saturating_add(1);
        }
    }
    println!(rt; "answered {answered}")
}

fn is_answered(net: &mut SocketNet<HostRuntime>) -> bool {
    let Ok(mut link) = net.dial(DoorKind::Client) else {
        return false;
    };
    let answered = link.send(FRAME).is_ok() && echoes(&mut link);
    net.give_back(link);
    answered
}

// Whether the link gives the frame, which was sent at once.
fn echoes(link: &mut SocketLink<HostRuntime>) -> bool {
    let mut room = [0; 8];
    link.receive(&mut room).is_ok() && room == *b"question"
}

// serve DOOR COUNT: accepts so many links, and sends back what each gives until it ends.
fn serve(rt: &HostRuntime, places: &mut Places, words: &Words<'_>) -> io::Result<()> {
    let Some(mut door) = places.take_door(words.first) else {
        return Ok(());
    };
    let mut served = 0u64;
    for _ in 0..number(words.second) {
        if let Ok(mut link) = door.accept() {
            if echo(&mut link) {
                served = served.saturating_add(1);
            }
            door.give_back(link);
        }
    }
    places.put_door(words.first, door);
    println!(rt; "served {served}")
}

// Sends back what the link gives. Whether it ended after a whole frame.
fn echo(link: &mut SocketLink<HostRuntime>) -> bool {
    let mut room = [0; 8];
    let mut whole = false;
    for _ in 0..u64::MAX {
        match link.receive(&mut room) {
            Ok(0) => return whole,
            Ok(count) => {
                whole = count == 8;
                if link.send(&room[..count.min(8)]).is_err() {
                    return false;
                }
            }
            Err(_) => return false,
        }
    }
    whole
}

// fill NET COUNT: dials so often, and gives each link back at once: it waits to be accepted none the less.
fn fill(rt: &HostRuntime, places: &mut Places, words: &Words<'_>) -> io::Result<()> {
    let Some(net) = places.net(words.first) else {
        return Ok(());
    };
    let mut linked = 0u64;
    for _ in 0..number(words.second) {
        if let Ok(link) = net.dial(kind(words.third)) {
            net.give_back(link);
            linked = linked.saturating_add(1);
        }
    }
    println!(rt; "linked {linked}")
}

// What a thread has when its accept returned.
type Woken = (
    SocketDoor<HostRuntime>,
    Result<SocketLink<HostRuntime>, PortFault>,
);

// wake NET DOOR DOOR: two threads wait at the doors, and are woken one by one.
fn wake<T: Threads>(
    rt: &HostRuntime,
    threads: &T,
    places: &mut Places,
    words: &Words<'_>,
) -> io::Result<()> {
    let woken = Arc::new(rt.alloc(), AtomicU64::new(0))?;
    let first = start(threads, places, words.second, &woken)?;
    let second = start(threads, places, words.third, &woken)?;
    for round in 0u64..2 {
        thread::sleep(rt, Duration::from_millis(100));
        println!(rt; "woken {}", woken.load(Ordering::SeqCst))?;
        if let Some(net) = places.net(words.first) {
            net.knock(DoorKind::Client);
        }
        wait_for(rt, &woken, round.saturating_add(1));
    }
    end(rt, threads, places, words.second, first)?;
    end(rt, threads, places, words.third, second)
}

fn start<T: Threads>(
    threads: &T,
    places: &mut Places,
    place: &str,
    woken: &Arc<AtomicU64, Global>,
) -> io::Result<Option<JoinHandle<Woken>>> {
    let Some(mut door) = places.take_door(place) else {
        return Ok(None);
    };
    let woken = Arc::try_clone(woken)?;
    let started = thread::spawn(threads, move || {
        let answer = door.accept();
        woken.fetch_add(1, Ordering::SeqCst);
        (door, answer)
    });
    match started {
        Ok(thread) => Ok(Some(thread)),
        Err(_) => Ok(None),
    }
}

// Waits until so many were woken, and for five seconds at most.
fn wait_for(rt: &HostRuntime, woken: &Arc<AtomicU64, Global>, count: u64) {
    for _ in 0..500u32 {
        if woken.load(Ordering::SeqCst) >= count {
            return;
        }
        thread::sleep(rt, Duration::from_millis(10));
    }
}

fn end<T: Threads>(
    rt: &HostRuntime,
    threads: &T,
    places: &mut Places,
    place: &str,
    thread: Option<JoinHandle<Woken>>,
) -> io::Result<()> {
    let Some(thread) = thread else {
        return Ok(());
    };
    let (door, answer) = thread.join(threads);
    places.put_door(place, door);
    match answer {
        Ok(mut link) => match link.receive(&mut [0; 8]) {
            Ok(count) => println!(rt; "woken with a link that gives {count}"),
            Err(_) => println!(rt; "woken with a link that fails"),
        },
        Err(fault) => println!(rt; "refused: {fault}"),
    }
}

// rouse LINK END: a thread waits for bytes of the link, and in another one the end hangs up.
fn rouse<T: Threads>(
    rt: &HostRuntime,
    threads: &T,
    places: &mut Places,
    words: &Words<'_>,
) -> io::Result<()> {
    let Some(mut link) = places.take_link(words.first) else {
        return Ok(());
    };
    let Some(mut end) = places.take_end(words.second) else {
        return Ok(());
    };
    let started = thread::spawn(threads, move || {
        let mut room = [0; 8];
        link.receive(&mut room)
    });
    let Ok(thread) = started else {
        return Ok(());
    };
    thread::sleep(rt, Duration::from_millis(100));
    if let Ok(thread) = thread::spawn(threads, move || end.hang_up()) {
        thread.join(threads);
    }
    match thread.join(threads) {
        Ok(count) => println!(rt; "roused with {count}"),
        Err(_) => println!(rt; "roused by a failure"),
    }
}
