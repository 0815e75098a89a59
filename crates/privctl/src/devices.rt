// The policy state that an order is about.
use crate::services::{net_within, tell_refusal};
use crate::telling::tell_wrong;
use ctl_device::{CopyRefusal, state_of_copy};
use ctl_door::state_of_service;
use ctl_words::At;
use desk_ports::Sink;
use desk_state::Desk;
use folder_disk::FolderDisk;
use socket_net::SocketNet;
use std::alloc::Global;
use std::fs::{self, File};
use std::rt::{Clock, Files};

/// The policy state that is asked: of a service, or of a copy of a store. `None` where there is none, which a person
/// was told.
pub(crate) fn state_at<K: Sink>(
    rt: &HostRuntime,
    alloc: Global,
    at: At<'_>,
    sink: &mut K,
) -> Option<Desk> {
    match at {
        At::Service { seconds } => state_of(rt, alloc, seconds, sink),
        At::Copy { folder } => state_in(rt, alloc, folder, sink),
    }
}

// The policy state of the service.
fn state_of<K: Sink>(rt: &HostRuntime, alloc: Global, seconds: u32, sink: &mut K) -> Option<Desk> {
    let mut net = net_within(rt, seconds)?;
    state_over(alloc, &mut net, sink)
}

/// The policy state of the service behind these sockets. `None` where it told none, which a person was told.
pub(crate) fn state_over<K: Sink>(
    alloc: Global,
    net: &mut SocketNet<HostRuntime>,
    sink: &mut K,
) -> Option<Desk> {
    match state_of_service(alloc, net) {
        Ok(desk) => Some(desk),
        Err(refusal) => {
            tell_refusal(alloc, &refusal, net, sink);
            None
        }
    }
}

// The policy state of a copy of a store, in the folder of this path.
fn state_in<R: Files<File = File> + Clock + AllocGlobal + Clone + Drop, K: Sink>(
    rt: &R,
    alloc: Global,
    folder: &str,
    sink: &mut K,
) -> Option<Desk> {
    if !is_folder(rt, folder) {
        tell_wrong(alloc, "there is no folder", folder.as_bytes(), sink);
        return None;
    }
    let Ok(runtime) = rt.clone() else {
        return None;
    };
    let Ok(mut disk) = FolderDisk::open(runtime, folder) else {
        return None;
    };
    match state_of_copy(alloc, &mut disk) {
        Ok(desk) => Some(desk),
        Err(CopyRefusal::Folder) => {
            tell_failure(alloc, &disk, sink);
            None
        }
        Err(CopyRefusal::NoStore) => {
            tell_wrong(alloc, "there is no store in", folder.as_bytes(), sink);
            None
        }
        Err(CopyRefusal::Damaged { file, line }) => {
            if let Ok(text) = format!(in alloc; "the store is damaged: line {line} of the file") {
                tell_wrong(alloc, text.as_str(), file.as_slice(), sink);
            }
            None
        }
        Err(CopyRefusal::Memory(_)) => {
            sink.note("privctl: out of memory");
            None
        }
    }
}

// Tells why the folder cannot be read.
fn tell_failure<R: Files<File = File> + Clock + AllocGlobal + Clone + Drop, K: Sink>(
    alloc: Global,
    disk: &FolderDisk<R>,
    sink: &mut K,
) {
    if let Some(failure) = disk.failure() {
        if let Ok(line) = format!(in alloc; "privctl: {failure}") {
            sink.note(line.as_str());
        }
    }
}

fn is_folder<R: Files>(rt: &R, path: &str) -> bool {
    match fs::metadata(rt, path) {
        Ok(found) => found.is_dir(),
        Err(_) => false,
    }
}
