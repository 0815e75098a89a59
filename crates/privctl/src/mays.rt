// `may`.
use crate::questions::question_of;
use crate::services::{net_within, tell_failure};
use crate::telling::NOT_DONE;
use ctl_may::{NOT_ASKED, Telling, may};
use ctl_words::{Asked, Style};
use desk_ports::Sink;
use std::alloc::Global;

/// Asks the service, and answers the status of `may`.
pub(crate) fn ask_service<K: Sink>(
    rt: &HostRuntime,
    alloc: Global,
    asked: Asked<'_>,
    style: Style,
    seconds: u32,
    sink: &mut K,
) -> u8 {
    let question = match question_of(alloc, asked, sink) {
        Ok(question) => question,
        Err(status) => return status,
    };
    let Some(mut net) = net_within(rt, seconds) else {
        return NOT_DONE;
    };
    let status = may(alloc, &question, telling_of(style), &mut net, sink);
    if status == NOT_ASKED && !is_quiet(style) {
        tell_failure(alloc, &net, sink);
    }
    status
}

fn telling_of(style: Style) -> Telling {
    match style {
        Style::Line => Telling::Line,
        Style::Json => Telling::Json,
        Style::Quiet => Telling::Quiet,
    }
}

fn is_quiet(style: Style) -> bool {
    match style {
        Style::Quiet => true,
        Style::Line => false,
        Style::Json => false,
    }
}
