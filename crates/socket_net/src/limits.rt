// How long a peer may keep a worker of a service, and so others waiting.
//
// The limits hold for links that came in at a door; a link that was dialled waits for ever, but where its net has a
// deadline. Each time is judged by the clock, and given in milliseconds.

/// From the first bytes of a frame until the whole of it is there. A program of the same machine sends a frame in one
/// write, so one that takes longer is stopped, or holds the worker on purpose.
pub const MOST_OF_FRAME: u64 = 5_000;

/// For the sending of a whole piece. Only a peer that doesn't read lets a piece wait.
pub const MOST_OF_SENDING: u64 = 5_000;

/// How long a link may be silent while another waits for its worker. A client that dials anew is answered as right as
/// before: it only asks once more what it had kept.
pub const PATIENCE: u64 = 2_000;

/// The same for a client's link that itself stood in line, or to which nothing was sent yet. The line is first come,
/// first served: with the longer patience for all, whoever comes behind forty idle links at four workers would wait for
/// twenty seconds.
pub const SHORT_PATIENCE: u64 = 10;

/// How long an administrator's link may be silent in any case: there is one worker for them all.
pub const MOST_OF_SILENCE: u64 = 60_000;

/// How long an `accept` pauses after an error that passes by itself, as want of descriptors.
pub const ACCEPT_PAUSE: u64 = 100;

/// How long a dial that has a deadline pauses before it looks again whether the queue of connections has room.
pub const CONNECT_PAUSE: u64 = 5;

/// How long an `accept` or a read waits before it looks around again. Each look of each worker takes the processor a
/// few microseconds, so that all workers of an idle service together take less than a thousandth of one.
pub const TICK: u64 = 1_250;

/// The same for a write, which waits only where a peer doesn't read.
pub const SENDING_TICK: u64 = 100;

/// The most bytes of a short piece: far fewer than the parts in which the machine takes a long one. So it takes them at
/// once or not at all, and their write waits for one tick at most.
pub const SHORT_PIECE: usize = 4_096;

/// How long a link that is asked whether something has come waits for it.
pub const LOOK: u64 = 100;

/// An `accept` that took less, in microseconds, found its link standing in line.
pub const AT_ONCE_MICROS: u64 = 500;
