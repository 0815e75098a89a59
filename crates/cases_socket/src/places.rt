// Calls of nets, doors, links and ends, each in its place.
use crate::words::{Words, kind, number};
use desk_ports::PortFault;
use link_ports::{Dial, Door, HangEnd, Link, Net};
use socket_net::{SocketDoor, SocketEnd, SocketLink, SocketNet};
use std::alloc::{AllocError, Global};
use std::io;

/// Nets, doors, links and ends in numbered places.
#[derive(Drop)]
pub struct Places {
    nets: Vec<Option<SocketNet<HostRuntime>>>,
    doors: Vec<Option<SocketDoor<HostRuntime>>>,
    links: Vec<Option<SocketLink<HostRuntime>>>,
    ends: Vec<Option<SocketEnd>>,
}

// How many of each there may be.
const MOST: usize = 4;

const MOST_BYTES: usize = 64;

impl Places {
    /// Four empty places of each kind. Fails only for want of memory.
    pub fn new(alloc: Global) -> Result<Places, AllocError> {
        Ok(Places {
            nets: empty(alloc)?,
            doors: empty(alloc)?,
            links: empty(alloc)?,
            ends: empty(alloc)?,
        })
    }

    /// The net at the place of this number, where one stands there. A word that is no number means place 0.
    pub fn net(&mut self, word: &str) -> Option<&mut SocketNet<HostRuntime>> {
        self.nets.get_mut(number(word))?.as_mut()
    }

    /// The link at the place of this number, where one stands there.
    pub fn link(&mut self, word: &str) -> Option<&mut SocketLink<HostRuntime>> {
        self.links.get_mut(number(word))?.as_mut()
    }

    /// Takes the door out of the place of this number, where one stands there.
    pub fn take_door(&mut self, word: &str) -> Option<SocketDoor<HostRuntime>> {
        self.doors.get_mut(number(word))?.take()
    }

    /// Takes the link out of the place of this number, where one stands there.
    pub fn take_link(&mut self, word: &str) -> Option<SocketLink<HostRuntime>> {
        self.links.get_mut(number(word))?.take()
    }

    /// Takes the end of a link out of the place of this number, where one stands there.
    pub fn take_end(&mut self, word: &str) -> Option<SocketEnd> {
        self.ends.get_mut(number(word))?.take()
    }

    /// Puts a door in the place of this number, which lets go the one that stood there.
    pub fn put_door(&mut self, word: &str, door: SocketDoor<HostRuntime>) {
        put(&mut self.doors, word, Some(door));
    }

    /// Makes the call of these words, where it is one of a net, a door, a link or an end. Whether it is.
    pub fn obey(&mut self, rt: &HostRuntime, words: &Words<'_>) -> io::Result<bool> {
        match words.call {
            "net" => self.make_net(rt, words)?,
            "drop" => self.drop_net(words),
            "faults" => self.show_faults(rt, words)?,
            "why" => self.show_failure(rt, words)?,
            "door" => self.open(rt, words)?,
            "knock" => self.knock(words),
            "close" => self.close(words),
            _ => return self.obey_link(rt, words),
        }
        Ok(true)
    }

    fn obey_link(&mut self, rt: &HostRuntime, words: &Words<'_>) -> io::Result<bool> {
        match words.call {
            "dial" => self.dial(rt, words)?,
            "accept" => self.accept(rt, words)?,
            "send" => self.send(rt, words)?,
            "receive" => self.receive(rt, words)?,
            "up" => self.look(rt, words)?,
            "come" => self.wait(rt, words)?,
            "end" => self.make_end(rt, words)?,
            "hang" => self.hang(words.first),
            "give" => self.give_to_net(words),
            "back" => self.give_to_door(words),
            _ => return Ok(false),
        }
        Ok(true)
    }

    // net PLACE DIRECTORY
    fn make_net(&mut self, rt: &HostRuntime, words: &Words<'_>) -> io::Result<()> {
        let net = SocketNet::new(rt.clone()?, words.second)?;
        put(&mut self.nets, words.first, Some(net));
        Ok(())
    }

    // drop NET
    fn drop_net(&mut self, words: &Words<'_>) {
        put(&mut self.nets, words.first, None);
    }

    // faults NET
    fn show_faults(&mut self, rt: &HostRuntime, words: &Words<'_>) -> io::Result<()> {
        if let Some(net) = self.net(words.first) {
            println!(rt; "{} failed", net.faults())?;
        }
        Ok(())
    }

    // why NET
    fn show_failure(&mut self, rt: &HostRuntime, words: &Words<'_>) -> io::Result<()> {
        if let Some(net) = self.net(words.first) {
            match net.failure() {
                Some(failure) => println!(rt; "{failure}")?,
                None => println!(rt; "no failure")?,
            }
        }
        Ok(())
    }

    // door NET KIND DOOR
    fn open(&mut self, rt: &HostRuntime, words: &Words<'_>) -> io::Result<()> {
        let Some(net) = self.net(words.first) else {
            return Ok(());
        };
        match net.door(kind(words.second)) {
            Ok(door) => {
                self.put_door(words.third, door);
                println!(rt; "open")
            }
            Err(fault) => refused(rt, &fault),
        }
    }

    // knock NET KIND
    fn knock(&mut self, words: &Words<'_>) {
        if let Some(net) = self.net(words.first) {
            net.knock(kind(words.second));
        }
    }

    // close NET DOOR
    fn close(&mut self, words: &Words<'_>) {
        let Some(door) = self.take_door(words.second) else {
            return;
        };
        if let Some(net) = self.net(words.first) {
            net.close(door);
        }
    }

    // dial NET KIND LINK
    fn dial(&mut self, rt: &HostRuntime, words: &Words<'_>) -> io::Result<()> {
        let Some(net) = self.net(words.first) else {
            return Ok(());
        };
        match net.dial(kind(words.second)) {
            Ok(link) => {
                put(&mut self.links, words.third, Some(link));
                println!(rt; "linked")
            }
            Err(fault) => refused(rt, &fault),
        }
    }

    // accept DOOR LINK
    fn accept(&mut self, rt: &HostRuntime, words: &Words<'_>) -> io::Result<()> {
        let Some(mut door) = self.take_door(words.first) else {
            return Ok(());
        };
        match door.accept() {
            Ok(link) => {
                put(&mut self.links, words.second, Some(link));
                println!(rt; "accepted")?;
            }
            Err(fault) => refused(rt, &fault)?,
        }
        self.put_door(words.first, door);
        Ok(())
    }

    // send LINK TEXT
    fn send(&mut self, rt: &HostRuntime, words: &Words<'_>) -> io::Result<()> {
        let Some(link) = self.link(words.first) else {
            return Ok(());
        };
        match link.send(words.second.as_bytes()) {
            Ok(()) => println!(rt; "sent"),
            Err(_) => failed(rt, link),
        }
    }

    // receive LINK ROOM
    fn receive(&mut self, rt: &HostRuntime, words: &Words<'_>) -> io::Result<()> {
        let Some(link) = self.link(words.first) else {
            return Ok(());
        };
        let mut room = [0; MOST_BYTES];
        let most = number(words.second).min(MOST_BYTES);
        match link.receive(&mut room[..most]) {
            Ok(count) => {
                let text = str::from_utf8(&room[..count.min(MOST_BYTES)]).unwrap_or("no text");
                println!(rt; "received {count}: {text}")
            }
            Err(_) => failed(rt, link),
        }
    }

    // up LINK
    fn look(&mut self, rt: &HostRuntime, words: &Words<'_>) -> io::Result<()> {
        if let Some(link) = self.link(words.first) {
            let text = if link.is_up() { "up" } else { "down" };
            println!(rt; "{text}")?;
        }
        Ok(())
    }

    // come LINK
    fn wait(&mut self, rt: &HostRuntime, words: &Words<'_>) -> io::Result<()> {
        if let Some(link) = self.link(words.first) {
            let text = if link.has_come() { "come" } else { "nothing" };
            println!(rt; "{text}")?;
        }
        Ok(())
    }

    // end LINK END
    fn make_end(&mut self, rt: &HostRuntime, words: &Words<'_>) -> io::Result<()> {
        let Some(link) = self.link(words.first) else {
            return Ok(());
        };
        match link.hang_end() {
            Ok(end) => {
                put(&mut self.ends, words.second, Some(end));
                println!(rt; "taken")
            }
            Err(fault) => refused(rt, &fault),
        }
    }

    // hang END
    fn hang(&mut self, word: &str) {
        if let Some(Some(end)) = self.ends.get_mut(number(word)) {
            end.hang_up();
        }
    }

    // give NET LINK
    fn give_to_net(&mut self, words: &Words<'_>) {
        let Some(link) = self.take_link(words.second) else {
            return;
        };
        if let Some(net) = self.net(words.first) {
            net.give_back(link);
        }
    }

    // back DOOR LINK
    fn give_to_door(&mut self, words: &Words<'_>) {
        let Some(link) = self.take_link(words.second) else {
            return;
        };
        let Some(mut door) = self.take_door(words.first) else {
            return;
        };
        door.give_back(link);
        self.put_door(words.first, door);
    }
}

// Leaves this in a place, where there is such a place.
fn put<T: Drop>(places: &mut [Option<T>], word: &str, thing: Option<T>) {
    if let Some(place) = places.get_mut(number(word)) {
        *place = thing;
    }
}

// Places with nothing in them.
fn empty<T: Drop>(alloc: Global) -> Result<Vec<Option<T>>, AllocError> {
    let mut places = Vec::new(alloc);
    for _ in 0..MOST {
        places.push(None)?;
    }
    Ok(places)
}

fn refused(rt: &HostRuntime, fault: &PortFault) -> io::Result<()> {
    println!(rt; "refused: {fault}")
}

fn failed(rt: &HostRuntime, link: &SocketLink<HostRuntime>) -> io::Result<()> {
    match link.failure() {
        Some(failure) => println!(rt; "failed: {}", failure.error),
        None => println!(rt; "failed"),
    }
}
