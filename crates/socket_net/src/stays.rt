// How long a link that came in at a door may keep its worker.
ghost use Rattle.std.specs.Prelude.{◌<◌, ◌≤◌, length, take, IfOk, OnOk};
ghost use Rattle.desk_ports.specs.Content.{Appended};

use crate::commons::Commons;
use crate::faults::Fault;
use crate::{limits, steps};
use link_ports::DoorKind;
use std::alloc::Global;
use std::io;
use std::io::{ErrorKind, Write};
use std::net::Net as HostNet;
use std::os::unix::net::UnixStream;
use std::sync::Arc;
use std::time::{Clock, Duration, Instant};

// The most milliseconds that are told apart.
const MOST_MILLIS: u128 = u64::MAX as u128;

/// What decides how long a link that came in at a door may keep its worker. What the peer does within the limits, and
/// what the limits are, no clause says.
#[derive(Drop)]
pub struct Stay<R: HostNet + AllocGlobal + Clock + Copy + Drop> {
    rt: R,
    commons: Arc<Commons, Global>,
    stood_in_line: bool,
    // When the peer was accepted, or when it was last looked whether another waits.
    served_since: Instant,
    // When it is looked for that again, if ever.
    look_at: Option<Instant>,
    // Whether a piece was sent to the peer.
    is_answered: bool,
    // Whether bytes came since a piece was last sent: the peer is within a frame, if nothing is sent for them.
    is_heard: bool,
    // When the wait for the rest of the frame began.
    frame_began: Option<Instant>,
    // How long the machine lets a read wait, in milliseconds.
    tick: u64,
}

impl<R: HostNet + AllocGlobal + Clock + Copy + Drop> Stay<R> {
    /// That of a connection which was just accepted, and may have stood in line before. The machine lets no read or
    /// write of it wait for ever from then on.
    pub fn begin(
        rt: R,
        commons: Arc<Commons, Global>,
        stream: &UnixStream,
        stood_in_line: bool,
    ) -> io::Result<Stay<R>> {
        let tick = if stood_in_line {
            limits::SHORT_PATIENCE
        } else {
            limits::TICK
        };
        stream.set_read_timeout(Some(Duration::from_millis(tick)))?;
        stream.set_write_timeout(Some(Duration::from_millis(limits::SENDING_TICK)))?;
        let mut stay = Stay {
            rt,
            commons,
            stood_in_line,
            served_since: Instant::now(&rt)?,
            look_at: None,
            is_answered: false,
            is_heard: false,
            frame_began: None,
            tick,
        };
        stay.set_look();
        Ok(stay)
    }

    /// The next bytes, at the front of the slice. None where the connection was closed, and where it may keep its
    /// worker no longer: then it is closed, and nothing that the peer could send before is lost.
    pub fn receive(&mut self, stream: &mut UnixStream, into: &mut [u8]) -> Result<usize, Fault>
        ensures within { IfOk result (λ count. count ≤ length into.old) }
    {
        if self.is_heard {
            let count = self.receive_more(stream, into)?;
            return Ok(count);
        }
        let start = self.read_clock()?;
        if self.is_due(start) && self.has_line(start) {
            return let_go(stream, into);
        }
        if let Some(count) = steps::receive_in_time(stream, into)? {
            self.is_heard = true;
            return Ok(count);
        }
        let count = self.go_on(stream, start, into)?;
        Ok(count)
    }

    // The next bytes within a frame. That they come one by one is no reason to wait for more of them.
    fn receive_more(&mut self, stream: &mut UnixStream, into: &mut [u8]) -> Result<usize, Fault>
        ensures within { IfOk result (λ count. count ≤ length into.old) }
    {
        let start = self.start()?;
        if self.is_over(start)? {
            return let_go(stream, into);
        }
        if let Some(count) = steps::receive_in_time(stream, into)? {
            return Ok(count);
        }
        let count = self.go_on(stream, start, into)?;
        Ok(count)
    }

    // Goes on with a wait that began then, and that has found nothing yet.
    fn go_on(
        &mut self,
        stream: &mut UnixStream,
        start: Instant,
        into: &mut [u8],
    ) -> Result<usize, Fault>
        ensures within { IfOk result (λ count. count ≤ length into.old) }
    {
        for _ in 0..steps::MOST_TRIES {
            if self.is_over(start)? {
                return let_go(stream, into);
            }
            self.set_tick(stream, start)?;
            if let Some(count) = steps::receive_in_time(stream, into)? {
                self.is_heard = true;
                return Ok(count);
            }
        }
        Err(Fault::Kind(ErrorKind::Interrupted))
    }

    /// Whether a `receive` waits for nothing: bytes came, or the connection was closed, or may keep its worker no
    /// longer. Then it is closed for what the peer may still send, so that the `receive` finds the end behind what was
    /// sent before. It waits for bytes itself, no longer than a look takes. A wait between two frames begins anew with
    /// each look.
    pub fn has_come(&mut self, stream: &mut UnixStream) -> Result<bool, Fault> {
        let start = self.start()?;
        self.tick_by(stream, limits::LOOK)?;
        if steps::has_come(stream)? {
            return Ok(true);
        }
        if !self.is_over(start)? {
            return Ok(false);
        }
        // Where the peer closed it before, there is nothing to shut.
        let _ = steps::shut_input(stream);
        Ok(true)
    }

    // Whether another waits for the worker. It is looked for that again in time.
    fn has_line(&mut self, now: Instant) -> bool {
        self.served_since = now;
        self.set_look();
        self.commons.has_line(&self.rt)
    }

    // Whether it is to be looked now whether another waits, between two frames: a peer that asks without a pause holds
    // its worker as one that is silent does.
    fn is_due(&self, now: Instant) -> bool {
        match self.look_at {
            Some(at) => at <= now,
            None => false,
        }
    }

    // Sets when it is looked again: once the peer was served for as long as it may be waited for.
    fn set_look(&mut self) {
        self.look_at = match self.patience() {
            Some(patience) => self
                .served_since
                .checked_add(Duration::from_millis(patience)),
            None => None,
        };
    }

    // When the wait that begins or goes on now began: within a frame, at the first call that found it so.
    fn start(&mut self) -> Result<Instant, Fault> {
        if !self.is_heard {
            return self.read_clock();
        }
        if let Some(began) = self.frame_began {
            return Ok(began);
        }
        let began = self.read_clock()?;
        self.frame_began = Some(began);
        Ok(began)
    }

    // What time it is.
    #[inline(always)]
    fn read_clock(&self) -> Result<Instant, Fault> {
        match Instant::now(&self.rt) {
            Ok(now) => Ok(now),
            Err(error) => Err(Fault::of(&error)),
        }
    }

    // For how long a wait goes on that began then, in milliseconds.
    fn waited(&self, start: Instant) -> Result<u64, Fault> {
        let now = self.read_clock()?;
        Ok(millis(now.duration_since(start)))
    }

    // Whether a wait that began then is to end.
    fn is_over(&self, start: Instant) -> Result<bool, Fault> {
        if self.commons.is_knocked() {
            return Ok(true);
        }
        let waited = self.waited(start)?;
        if is_reached(self.most(), waited) {
            return Ok(true);
        }
        Ok(is_reached(self.patience(), waited) && self.commons.has_line(&self.rt))
    }

    // How long the peer may be waited for in any case.
    fn most(&self) -> Option<u64> {
        if self.is_heard {
            return Some(limits::MOST_OF_FRAME);
        }
        match self.commons.kind() {
            DoorKind::Admin => Some(limits::MOST_OF_SILENCE),
            DoorKind::Client | DoorKind::Agent => None,
        }
    }

    // How long the peer may be waited for while another waits for the worker. An agent that was answered waits to be
    // asked, or has a person before it.
    fn patience(&self) -> Option<u64> {
        match self.commons.kind() {
            DoorKind::Admin => Some(limits::PATIENCE),
            DoorKind::Agent if self.is_answered => None,
            DoorKind::Agent | DoorKind::Client => Some(self.patience_of_guest()),
        }
    }

    fn patience_of_guest(&self) -> u64 {
        if self.stood_in_line || !self.is_answered {
            limits::SHORT_PATIENCE
        } else {
            limits::PATIENCE
        }
    }

    // Has the machine wake the next read when there is something to look at.
    fn set_tick(&mut self, stream: &UnixStream, start: Instant) -> Result<(), Fault> {
        let waited = self.waited(start)?;
        let mut tick = sooner(limits::TICK, self.most(), waited);
        if self.commons.is_taken() {
            tick = sooner(tick, self.patience(), waited);
        }
        self.tick_by(stream, tick)
    }

    // Has the machine let a read wait for so many milliseconds.
    fn tick_by(&mut self, stream: &UnixStream, tick: u64) -> Result<(), Fault> {
        if tick == self.tick {
            return Ok(());
        }
        stream.set_read_timeout(Some(Duration::from_millis(tick)))?;
        self.tick = tick;
        Ok(())
    }

    /// Sends all bytes, or fails: as `steps::send`, and where the peer takes them too slowly. The clock is read only
    /// for a long piece, and where the machine does not take a short one at once.
    #[tactic(auto, using(crate::proofs::Appending::appended_rest))]
    pub fn send<W: Write>(&mut self, stream: &mut W, from: &[u8]) -> Result<(), Fault>
        ensures { OnOk result (Appended (W.contents stream.old) from.now (W.contents stream.new)) }
    {
        if !self.is_answered {
            self.is_answered = true;
            self.set_look();
        }
        self.is_heard = false;
        self.frame_began = None;
        if from.len() > limits::SHORT_PIECE {
            let start = self.read_clock()?;
            return self.send_since(start, stream, from);
        }
        let done = steps::send_part(stream, from)?;
        if done >= from.len() {
            return Ok(());
        }
        self.send_rest(stream, &from[done..])?;
        Ok(())
    }

    // Sends what the first call left of a short piece. That call waited for a tick, so the sending began a tick ago.
    fn send_rest<W: Write>(&self, stream: &mut W, from: &[u8]) -> Result<(), Fault>
        ensures { OnOk result (Appended (W.contents stream.old) from.now (W.contents stream.new)) }
    {
        let now = self.read_clock()?;
        let tick = Duration::from_millis(limits::SENDING_TICK);
        let start = now.checked_sub(tick).unwrap_or(now);
        if self.is_sending_over(start)? {
            return Err(Fault::Kind(ErrorKind::TimedOut));
        }
        self.send_since(start, stream, from)
    }

    // Sends all bytes within a sending that began then.
    #[tactic(auto, using(crate::proofs::Appending::appended_more))]
    fn send_since<W: Write>(&self, start: Instant, stream: &mut W, from: &[u8]) -> Result<(), Fault>
        ensures { OnOk result (Appended (W.contents stream.old) from.now (W.contents stream.new)) }
    {
        let mut done = 0;
        for _ in 0..steps::MOST_TRIES {
            if done >= from.len() {
                return Ok(());
            }
            done += steps::send_part(stream, &from[done..])?;
            if done < from.len() && self.is_sending_over(start)? {
                return Err(Fault::Kind(ErrorKind::TimedOut));
            }
        }
        Err(Fault::Kind(ErrorKind::Interrupted))
    }

    // Whether a sending that began then is to end.
    fn is_sending_over(&self, start: Instant) -> Result<bool, Fault> {
        if self.commons.is_knocked() {
            return Ok(true);
        }
        let waited = self.waited(start)?;
        if waited >= limits::MOST_OF_SENDING {
            return Ok(true);
        }
        Ok(is_reached(self.patience(), waited) && self.commons.has_line(&self.rt))
    }
}

// Ends the connection. What the peer sent before is still given; from then on it can send nothing.
#[cold]
#[inline(never)]
fn let_go(stream: &mut UnixStream, into: &mut [u8]) -> Result<usize, Fault>
    ensures within { IfOk result (λ count. count ≤ length into.old) }
{
    // Where the peer closed it before, there is nothing to shut.
    let _ = steps::shut_input(stream);
    let count = steps::receive(stream, into)?;
    if count == 0 {
        let _ = steps::shut_down(stream);
    }
    Ok(count)
}

// The time in milliseconds.
fn millis(time: Duration) -> u64 {
    time.as_millis().min(MOST_MILLIS) as u64
}

fn is_reached(limit: Option<u64>, waited: u64) -> bool {
    match limit {
        Some(limit) => waited >= limit,
        None => false,
    }
}

// This tick, or what is left of the limit, where that is less and not over. The machine takes no tick of nothing.
fn sooner(tick: u64, limit: Option<u64>, waited: u64) -> u64
    ensures most { result ≤ tick }
    ensures some { 0 < tick → 0 < result }
{
    match limit {
        Some(limit) if waited < limit => tick.min(limit - waited),
        Some(_) | None => tick,
    }
}
