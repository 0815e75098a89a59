// What each order does.
use crate::devices::{state_at, state_over};
use crate::explaining::explain_question;
use crate::imports::import_folder;
use crate::levels::{get_levels, set_level};
use crate::logs::read_log;
use crate::mays::ask_service;
use crate::plans::{export, plan_file};
use crate::questions::name_of;
use crate::services::{net_within, tell_refusal};
use crate::telling::{DONE, NOT_DONE, write_text, written};
use ctl_door::{DoorRefusal, answers, service_seen};
use ctl_views::{
    list_apps, list_buckets, list_packages, list_service, list_status, list_users, list_who,
};
use ctl_words::{At, Order, Subject};
use desk_ports::{Bytes, Sink};
use desk_state::Desk;
use socket_net::SocketNet;
use std::alloc::{AllocError, Global};

/// Runs the order, and answers the status.
pub(crate) fn run_order<K: Sink>(
    rt: &HostRuntime,
    alloc: Global,
    order: Order<'_>,
    sink: &mut K,
) -> u8 {
    match order {
        Order::May {
            asked,
            style,
            seconds,
        } => ask_service(rt, alloc, asked, style, seconds, sink),
        Order::Explain { asked, at } => explain_question(rt, alloc, asked, at, sink),
        Order::SetLevel { words, seconds } => set_level(rt, alloc, words, seconds, sink),
        Order::GetLevels { user, at } => get_levels(rt, alloc, user, at, sink),
        Order::Log { words } => read_log(rt, alloc, words, sink),
        Order::Import { folder } => import_folder(rt, alloc, folder, sink),
        Order::Who {
            privilege,
            user,
            at,
        } => who(rt, alloc, privilege, user, at, sink),
        Order::List { subject, at } => list(rt, alloc, subject, at, sink),
        Order::Export { at } => match state_at(rt, alloc, at, sink) {
            Some(desk) => export(alloc, &desk, sink),
            None => NOT_DONE,
        },
        Order::Plan { script, at } => match state_at(rt, alloc, at, sink) {
            Some(desk) => plan_file(rt, alloc, &desk, script, sink),
            None => NOT_DONE,
        },
    }
}

fn list<K: Sink>(
    rt: &HostRuntime,
    alloc: Global,
    subject: Subject,
    at: At<'_>,
    sink: &mut K,
) -> u8 {
    match (subject, at) {
        (Subject::Status, At::Service { seconds }) => status_of(rt, alloc, seconds, sink),
        _ => match state_at(rt, alloc, at, sink) {
            Some(desk) => written(listing(alloc, &desk, subject), DONE, sink),
            None => NOT_DONE,
        },
    }
}

fn listing(alloc: Global, desk: &Desk, subject: Subject) -> Result<Bytes, AllocError> {
    match subject {
        Subject::Users => list_users(alloc, desk),
        Subject::Packages => list_packages(alloc, desk),
        Subject::Apps => list_apps(alloc, desk),
        Subject::Buckets => list_buckets(alloc, desk),
        Subject::Status => list_status(alloc, desk),
    }
}

// Tells what there is of each at the service, and whether it answers. All of it is asked within the seconds.
fn status_of<K: Sink>(rt: &HostRuntime, alloc: Global, seconds: u32, sink: &mut K) -> u8 {
    let Some(mut net) = net_within(rt, seconds) else {
        return NOT_DONE;
    };
    let Some(desk) = state_over(alloc, &mut net, sink) else {
        return NOT_DONE;
    };
    let status = written(list_status(alloc, &desk), DONE, sink);
    if status != DONE {
        return status;
    }
    let status = tell_service(alloc, &mut net, sink);
    if status != DONE {
        return status;
    }
    test_service(alloc, &mut net, sink)
}

// Tells what the service says of itself, or that it doesn't tell it: one that is older ends the connection at the
// question.
fn tell_service<K: Sink>(alloc: Global, net: &mut SocketNet<HostRuntime>, sink: &mut K) -> u8 {
    match service_seen(alloc, net) {
        Ok(seen) => {
            let text = list_service(alloc, seen.kinds.as_slice(), seen.workers, seen.served);
            written(text, DONE, sink)
        }
        Err(DoorRefusal::NotKnown) => {
            write_text(
                b"agents and client workers: not told by this service\n",
                DONE,
                sink,
            )
        }
        Err(refusal) => {
            tell_refusal(alloc, &refusal, net, sink);
            NOT_DONE
        }
    }
}

// Tells whether the service answers a check and a listing: the status is 0 only then.
fn test_service<K: Sink>(alloc: Global, net: &mut SocketNet<HostRuntime>, sink: &mut K) -> u8 {
    match answers(alloc, net) {
        Ok(()) => write_text(b"answers checks and listings\n", DONE, sink),
        Err(refusal) => {
            tell_refusal(alloc, &refusal, net, sink);
            NOT_DONE
        }
    }
}

fn who<K: Sink>(
    rt: &HostRuntime,
    alloc: Global,
    privilege: &str,
    user: Option<&str>,
    at: At<'_>,
    sink: &mut K,
) -> u8 {
    let privilege = match name_of(alloc, privilege, sink) {
        Ok(privilege) => privilege,
        Err(status) => return status,
    };
    let only = match user {
        Some(user) => match name_of(alloc, user, sink) {
            Ok(user) => Some(user),
            Err(status) => return status,
        },
        None => None,
    };
    match state_at(rt, alloc, at, sink) {
        Some(desk) => written(
            list_who(alloc, &desk, &privilege, only.as_ref()),
            DONE,
            sink,
        ),
        None => NOT_DONE,
    }
}
