// `log`.
use crate::telling::{DONE, NOT_DONE, WRONG_WORDS, tell_unread, tell_wrong};
use ctl_log::{LogEnd, Wanted, is_time_front, pass_on};
use ctl_words::LogWords;
use desk_ports::{Sink, Source};
use host_ports::InputSource;
use std::alloc::Global;
use std::fs::File;
use std::io::{self, Read};
use std::thread;
use std::time::{Clock, Duration};

/// How long to wait at the end of a file that is followed, in milliseconds.
const PAUSE: u64 = 200;

/// A file at whose end a read waits for more.
#[derive(Drop)]
struct FollowedFile<R: Clock + Drop> {
    rt: R,
    file: File,
}

impl<R: Clock + Drop> Read for FollowedFile<R> {
    fn read(&mut self, buf: &mut [u8]) -> io::Result<usize> {
        for _ in 0..u64::MAX {
            let count = self.file.read(buf)?;
            if count > 0 || buf.is_empty() {
                return Ok(count);
            }
            thread::sleep(&self.rt, Duration::from_millis(PAUSE));
        }
        Ok(0)
    }
}

/// Passes on the lines of a log that are wanted.
pub(crate) fn read_log<K: Sink>(
    rt: &HostRuntime,
    alloc: Global,
    words: LogWords<'_>,
    sink: &mut K,
) -> u8 {
    if let Some(since) = words.since {
        if !is_time_front(since.as_bytes()) {
            tell_wrong(alloc, "no time:", since.as_bytes(), sink);
            return WRONG_WORDS;
        }
    }
    let Some(path) = words.file else {
        let mut source = InputSource::over(rt.stdin());
        return pass(alloc, words, &mut source, sink);
    };
    let file = match File::open(rt, path) {
        Ok(file) => file,
        Err(error) => return tell_unread(alloc, path.as_bytes(), &error, sink),
    };
    if !words.follow {
        let mut source = InputSource::over(file);
        return pass(alloc, words, &mut source, sink);
    }
    let Ok(rt) = rt.clone() else {
        return NOT_DONE;
    };
    let mut source = InputSource::over(FollowedFile { rt, file });
    pass(alloc, words, &mut source, sink)
}

fn pass<S: Source, K: Sink>(
    alloc: Global,
    words: LogWords<'_>,
    source: &mut S,
    sink: &mut K,
) -> u8 {
    let wanted = Wanted {
        client: bytes_of(words.client),
        user: bytes_of(words.user),
        privilege: bytes_of(words.privilege),
        result: bytes_of(words.result),
        since: bytes_of(words.since),
    };
    match pass_on(alloc, &wanted, words.json, source, sink) {
        LogEnd::Done => DONE,
        LogEnd::Source => {
            sink.note("privctl: the log cannot be read");
            NOT_DONE
        }
        LogEnd::Sink => NOT_DONE,
        LogEnd::Memory => {
            sink.note("privctl: out of memory");
            NOT_DONE
        }
    }
}

fn bytes_of(word: Option<&str>) -> Option<&[u8]> {
    match word {
        Some(word) => Some(word.as_bytes()),
        None => None,
    }
}
