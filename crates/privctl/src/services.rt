// The sockets of a service.
use ctl_door::DoorRefusal;
use desk_ports::Sink;
use host_ports::{directory_path, sockets_path};
use socket_net::SocketNet;
use std::alloc::Global;

/// The sockets of the directory that the environment names, which have so many seconds from now on.
pub(crate) fn net_within(rt: &HostRuntime, seconds: u32) -> Option<SocketNet<HostRuntime>> {
    let Ok(directory) = directory_path(rt, rt.alloc()) else {
        return None;
    };
    let Ok(runtime) = rt.clone() else {
        return None;
    };
    match SocketNet::new(runtime, sockets_path(&directory)) {
        Ok(net) => match net.within(seconds) {
            Ok(net) => Some(net),
            Err(_) => None,
        },
        Err(_) => None,
    }
}

/// Tells why the service told nothing.
pub(crate) fn tell_refusal<K: Sink>(
    alloc: Global,
    refusal: &DoorRefusal,
    net: &SocketNet<HostRuntime>,
    sink: &mut K,
) {
    if let Ok(line) = format!(in alloc; "privctl: {refusal}") {
        sink.note(line.as_str());
    }
    tell_failure(alloc, net, sink);
}

/// Tells which call of a socket failed last, where one did.
pub(crate) fn tell_failure<K: Sink>(alloc: Global, net: &SocketNet<HostRuntime>, sink: &mut K) {
    if let Some(failure) = net.failure() {
        if let Ok(line) = format!(in alloc; "privctl: {failure}") {
            sink.note(line.as_str());
        }
    }
}
