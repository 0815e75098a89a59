// The buckets that a question is asked of, with the policies that match.
use bucket_eval::BorrowedAnswer;
use bucket_store::{Bucket, Database};
use ctl_text::{put, put_bucket, put_key, put_result};
use cynara_keys::{BucketName, Kind, Policy, Question};
use desk_ports::Bytes;
use std::alloc::{AllocError, Global};

/// How far a bucket has been told: its place, the place of its next policy, and how deep it stands.
#[derive(Clone, Copy)]
struct Told {
    bucket: usize,
    policy: usize,
    depth: usize,
}

/// What is told of a tree: its text, and how many of its policies have a say.
#[derive(Drop)]
pub(crate) struct Tree {
    pub text: Bytes,
    pub counted: u32,
}

/// The tree of the buckets from the root, each once: its fallback, and its policies that match the question, in order.
pub(crate) fn tree_of(
    alloc: Global,
    database: &Database,
    question: &Question,
    decided: &BorrowedAnswer<'_>,
) -> Result<Tree, AllocError> {
    let mut tree = Tree {
        text: Bytes::new(alloc),
        counted: 0,
    };
    let mut is_told = vec![in alloc; false; database.buckets().len()]?;
    let mut stack = Vec::new(alloc);
    open(&mut tree, database, 0, 0, decided, &mut is_told, &mut stack)?;
    for _ in 0..u32::MAX {
        let Some(told) = stack.pop() else {
            break;
        };
        step(
            &mut tree,
            database,
            question,
            decided,
            told,
            &mut is_told,
            &mut stack,
        )?;
    }
    Ok(tree)
}

// Tells the head of a bucket that was not told before, and keeps that its policies are to be told.
fn open(
    tree: &mut Tree,
    database: &Database,
    place: usize,
    depth: usize,
    decided: &BorrowedAnswer<'_>,
    is_told: &mut [bool],
    stack: &mut Vec<Told>,
) -> Result<(), AllocError> {
    let Some(bucket) = database.buckets().get(place) else {
        return Ok(());
    };
    indent(&mut tree.text, depth)?;
    put_bucket(&mut tree.text, bucket.name().as_slice())?;
    let Some(mark) = is_told.get_mut(place) else {
        return Ok(());
    };
    if *mark {
        return put(&mut tree.text, " (as above)\n");
    }
    *mark = true;
    put(&mut tree.text, " (else ")?;
    put_result(&mut tree.text, bucket.fallback())?;
    put(&mut tree.text, ")")?;
    if decided.key.is_none() && decided.bucket == bucket.name() {
        put(&mut tree.text, "   <== decides")?;
    }
    put(&mut tree.text, "\n")?;
    stack.push(Told {
        bucket: place,
        policy: 0,
        depth,
    })?;
    Ok(())
}

// Tells the next policy of the bucket that matches, where there is one, and then the bucket that it points to.
fn step(
    tree: &mut Tree,
    database: &Database,
    question: &Question,
    decided: &BorrowedAnswer<'_>,
    told: Told,
    is_told: &mut [bool],
    stack: &mut Vec<Told>,
) -> Result<(), AllocError> {
    let Some(bucket) = database.buckets().get(told.bucket) else {
        return Ok(());
    };
    let Some((place, policy)) = next_match(bucket, told.policy, question) else {
        return Ok(());
    };
    stack.push(Told {
        bucket: told.bucket,
        policy: place.saturating_add(1),
        depth: told.depth,
    })?;
    put_policy(tree, bucket, policy, told.depth.saturating_add(1), decided)?;
    if policy.result.kind() != Kind::BUCKET {
        return Ok(());
    }
    match place_of(database, policy.result.metadata().as_slice()) {
        Some(target) => open(
            tree,
            database,
            target,
            told.depth.saturating_add(2),
            decided,
            is_told,
            stack,
        ),
        None => Ok(()),
    }
}

// The first policy of the bucket from this place on that matches, and its place.
fn next_match<'a>(
    bucket: &'a Bucket,
    from: usize,
    question: &Question,
) -> Option<(usize, &'a Policy)> {
    for (place, policy) in bucket.policies().iter().enumerate() {
        if place >= from && policy.key.matches(question) {
            return Some((place, policy));
        }
    }
    None
}

fn place_of(database: &Database, name: &[u8]) -> Option<usize> {
    database
        .buckets()
        .iter()
        .position(|bucket| bucket.name().as_slice() == name)
}

fn put_policy(
    tree: &mut Tree,
    bucket: &Bucket,
    policy: &Policy,
    depth: usize,
    decided: &BorrowedAnswer<'_>,
) -> Result<(), AllocError> {
    indent(&mut tree.text, depth)?;
    put_key(&mut tree.text, &policy.key)?;
    put(&mut tree.text, " ")?;
    put_result(&mut tree.text, &policy.result)?;
    if decides(bucket.name(), policy, decided) {
        put(&mut tree.text, "   <== decides")?;
    }
    let kind = policy.result.kind();
    if kind != Kind::BUCKET && kind != Kind::NONE {
        tree.counted = tree.counted.saturating_add(1);
    }
    put(&mut tree.text, "\n")
}

fn decides(bucket: &BucketName, policy: &Policy, decided: &BorrowedAnswer<'_>) -> bool {
    match decided.key {
        Some(key) => decided.bucket == bucket && *key == policy.key,
        None => false,
    }
}

fn indent(out: &mut Bytes, depth: usize) -> Result<(), AllocError> {
    for _ in 0..depth {
        put(out, "  ")?;
    }
    Ok(())
}
