//! The program: the words of the command line, standard input and output, the folder and the sockets.
#![tactic(auto)]

mod program;

use desk_server::Notes;
use folder_disk::FolderDisk;
use host_notes::{explain, explain_streams, tell_folder_failure};
use host_ports::{
    InputSource, OutputSink, directory_path, folder_path, sockets_path, take_descriptors,
};
use link_ports::OpenGate;
use noted_disk::{HearsFailures, NotedDisk};
use program::run_on;
use socket_net::SocketNet;
use std::alloc::AllocError;
use std::io::IsTerminal;
use std::process::ExitCode;
use std::sync::Wait;
use std::thread::Threads;
use std::time::{Clock, Duration, Instant};

/// The status of a run that found no memory.
const NO_MEMORY: u8 = 1;

/// The fewest seconds between two notes of the store's failing calls.
const SECONDS_BETWEEN_NOTES: u64 = 1;

fn main(rt: HostRuntime) -> ExitCode {
    match run_on_host(&rt, &rt) {
        Ok(status) => ExitCode::from(status),
        Err(_) => ExitCode::from(NO_MEMORY),
    }
}

/// Tells a person on standard error.
#[derive(Clone, Copy)]
struct ErrorNotes<'a> {
    rt: &'a HostRuntime,
}

impl Notes for ErrorNotes<'_> {
    fn note(&self, line: &str) {
        // Where standard error takes nothing, there is no one to tell.
        let _ = eprintln!(self.rt; "{line}");
    }
}

/// Tells a person on standard error that a call of the store failed, the moment it fails, and once a second at most.
#[derive(Drop)]
struct StoreNotes<'a> {
    rt: &'a HostRuntime,
    folder: &'a str,
    // When a failing call was told last.
    last: Option<Instant>,
    // The call that failed last was told.
    is_told: bool,
}

impl StoreNotes<'_> {
    fn was_told_just_now(&self) -> bool {
        match &self.last {
            Some(last) => match last.elapsed(self.rt) {
                Ok(since) => since < Duration::from_secs(SECONDS_BETWEEN_NOTES),
                Err(_) => false,
            },
            None => false,
        }
    }
}

impl HearsFailures<FolderDisk<HostRuntime>> for StoreNotes<'_> {
    fn hear(&mut self, disk: &FolderDisk<HostRuntime>) {
        self.is_told = !self.was_told_just_now();
        if self.is_told {
            tell_folder_failure(self.rt, self.folder, disk.failure());
            self.last = Instant::now(self.rt).ok();
        }
    }
}

// Runs the program on standard input and output, on its folder and on the sockets beside it. How it ends.
fn run_on_host<T: Threads + Wait + Clock + Sync>(
    rt: &HostRuntime,
    threads: &T,
) -> Result<u8, AllocError> {
    take_descriptors(rt);
    let directory = directory_path(rt, rt.alloc())?;
    let folder = folder_path(rt.alloc(), &directory)?;
    let notes = StoreNotes {
        rt,
        folder: folder.as_str(),
        last: None,
        is_told: false,
    };
    let mut disk = NotedDisk::over(FolderDisk::open(rt.clone()?, folder.as_str())?, notes);
    let mut net = SocketNet::new(rt.clone()?, sockets_path(&directory))?;
    let mut source = InputSource::over(rt.stdin());
    let mut sink = OutputSink::over(rt.stdout(), rt.stderr());
    let is_typed = rt.stdin().is_terminal();
    let status = run_on(
        rt,
        threads,
        rt.alloc(),
        is_typed,
        &mut source,
        &mut sink,
        &mut disk,
        &mut net,
        &OpenGate,
        &ErrorNotes { rt },
    );
    explain_streams(rt, &source.failure, &sink.failure);
    explain(
        rt,
        status,
        sockets_path(&directory),
        folder.as_str(),
        disk.disk().failure(),
        disk.hearer().is_told,
        net.failure(),
    );
    Ok(status)
}
