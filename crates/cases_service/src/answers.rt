// Answers as texts.
use cases_words::put_bytes;
use cynara_client::{Checked, ClientRefusal};
use desk_ports::MemSink;
use run_endings::Ending;
use std::alloc::{AllocError, Global};

/// What a check was answered. Of a verdict the commit and the kind.
pub fn check_text(
    alloc: Global,
    answer: &Result<Checked, ClientRefusal>,
) -> Result<String, AllocError> {
    match answer {
        Ok(Checked::Judged(verdict)) => {
            format!(in alloc; "Judged {} {}", verdict.commit, verdict.answer.kind.0)
        }
        Ok(checked) => format!(in alloc; "{checked:?}"),
        Err(refusal) => format!(in alloc; "{refusal:?}"),
    }
}

/// How the run of a command ended, and what it wrote.
pub fn said(alloc: Global, ending: Ending, sink: &mut MemSink) -> Result<String, AllocError> {
    ending.write_last_line(sink);
    let mut text = format!(in alloc; "{} ", ending.status())?;
    if sink.taken().is_empty() {
        text.push_str("nothing")?;
    }
    put_bytes(&mut text, sink.taken())?;
    Ok(text)
}

/// How a run of the service ended, and how many replies were sent to clients.
pub fn ending_text(alloc: Global, ending: &Ending, replies: u32) -> Result<String, AllocError> {
    format!(in alloc; "status {} replies {replies}", ending.status())
}
