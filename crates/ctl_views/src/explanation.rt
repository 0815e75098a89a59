// The text of an explanation.
use crate::clients::{client_names, named_clients};
use crate::near_clients::{is_named, near_name};
use crate::trees::tree_of;
use bucket_eval::{BorrowedAnswer, Index, Scratch};
use ctl_text::{put, put_bucket, put_key, put_number, put_result};
use cynara_keys::Question;
use desk_ports::Bytes;
use desk_state::Desk;
use std::alloc::{AllocError, Global};

/// What the root bucket answers, the tree of buckets with each policy that matches, and why the one decides that does.
/// Where no policy names the client, that is told, and a near one.
pub fn explain(alloc: Global, desk: &Desk, question: &Question) -> Result<Bytes, AllocError> {
    let index = Index::build(alloc, desk.database())?;
    let mut scratch = Scratch::new(alloc)?;
    let borrowed = question.borrowed();
    let decided = index.decide(&mut scratch, &borrowed);
    let tree = tree_of(alloc, desk.database(), question, &decided)?;
    let mut out = Bytes::new(alloc);
    put_answer(&mut out, desk.commit(), &decided)?;
    out.append(tree.text.as_slice())?;
    put_reason(&mut out, &decided, tree.counted)?;
    put_near(alloc, &mut out, desk, question.client())?;
    Ok(out)
}

fn put_answer(
    out: &mut Bytes,
    commit: u64,
    decided: &BorrowedAnswer<'_>,
) -> Result<(), AllocError> {
    put_result(out, decided.result)?;
    put(out, " at commit ")?;
    put_number(out, commit)?;
    match decided.key {
        Some(key) => {
            put(out, ", by a policy of ")?;
            put_bucket(out, decided.bucket.as_slice())?;
            put(out, ": ")?;
            put_key(out, key)?;
        }
        None => {
            put(out, ", by the fallback of ")?;
            put_bucket(out, decided.bucket.as_slice())?;
        }
    }
    put(out, "\n")
}

fn put_reason(
    out: &mut Bytes,
    decided: &BorrowedAnswer<'_>,
    counted: u32,
) -> Result<(), AllocError> {
    if decided.key.is_none() {
        if counted == 0 {
            return put(
                out,
                "No policy that matches has a result: a fallback decides.\n",
            );
        }
        return put(
            out,
            "The least result decides, and here it is a bucket's fallback.\n",
        );
    }
    if counted == 1 {
        return put(
            out,
            "It is the only policy that matches and has a result.\n",
        );
    }
    put(out, "It is the least of ")?;
    put_number(out, u64::from(counted))?;
    put(out, " policies that match and have a result: ")?;
    put(
        out,
        "deny before agents, agents before allow, and of equal results the first key.\n",
    )
}

// Tells that no policy names the client, and which near one there is.
fn put_near(alloc: Global, out: &mut Bytes, desk: &Desk, client: &[u8]) -> Result<(), AllocError> {
    if is_named(desk.database(), client) {
        return Ok(());
    }
    put(out, "No policy names this client")?;
    let mut names = client_names(alloc, desk.registry())?;
    let mut others = named_clients(alloc, desk.database(), &names)?;
    names.append(&mut others)?;
    if let Some(name) = near_name(&names, client) {
        put(out, "; did you mean ")?;
        out.append(name.as_slice())?;
        put(out, "?")?;
    } else {
        put(out, ".")?;
    }
    put(out, "\n")
}
