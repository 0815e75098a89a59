// Why nobody decided, or why the question was not asked.
use cynara_client::{Checked, ClientRefusal};
use desk_ports::Sink;
use std::alloc::Global;

/// The commit at which nobody decided, and why. `None` where the question was not asked.
pub(crate) fn why_undecided(refusal: &ClientRefusal) -> Option<(u64, &'static str)> {
    match refusal {
        ClientRefusal::NotResolved { commit, .. } => {
            Some((*commit, "an agent would have to be asked"))
        }
        ClientRefusal::NoAgent { commit, .. } => {
            Some((
                *commit,
                "the agent that would have to be asked is not connected",
            ))
        }
        ClientRefusal::AgentGone { commit, .. } => {
            Some((
                *commit,
                "the agent that was asked left, or had no answer in time",
            ))
        }
        ClientRefusal::AgentFull { commit, .. } => {
            Some((
                *commit,
                "the agent that would have to be asked has too many questions",
            ))
        }
        _ => None,
    }
}

/// Tells a person why the question was not asked, where it was not.
pub(crate) fn note_why<K: Sink>(
    alloc: Global,
    answer: &Result<Checked, ClientRefusal>,
    sink: &mut K,
) {
    match answer {
        Ok(_) => {}
        Err(refusal) => {
            if why_undecided(refusal).is_none() {
                note_refusal(alloc, refusal, sink);
            }
        }
    }
}

fn note_refusal<K: Sink>(alloc: Global, refusal: &ClientRefusal, sink: &mut K) {
    if let Ok(line) = format!(in alloc; "privctl: not asked: {refusal}") {
        sink.note(line.as_str());
    }
}
