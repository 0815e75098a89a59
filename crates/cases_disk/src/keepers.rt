// A policy state over the disk: commits, what a mount finds, and what failing calls leave.
use crate::vaults::failing_disk;
use app_registry::{Ident, IdentRefusal, Install, NameSet, Scope, UserType};
use cases_words::{Failure, Runs, first_number, first_word, put_bytes, put_word};
use cynara_keys::{BucketName, Filter, FilterField};
use desk_keeper::{Keeper, KeeperRefusal, PreparedCommit};
use desk_ports::MemDisk;
use desk_state::{Command, Refusal};
use std::alloc::{AllocError, Global};
use std::fmt::Write;

type Kept<'a> = Keeper<'a, MemDisk>;

fn ident(alloc: Global, text: &str) -> Result<Ident, Failure> {
    match Ident::read(alloc, text.as_bytes()) {
        Ok(ident) => Ok(ident),
        Err(IdentRefusal::Memory(error)) => Err(Failure::Memory(error)),
        Err(_) => Err(Failure::Words),
    }
}

fn install(alloc: Global, app: &str) -> Result<Install, Failure> {
    let privileges = NameSet::of(Vec::new(alloc))?;
    let app = ident(alloc, app)?;
    Ok(Install {
        package: ident(alloc, "pk")?,
        author: None,
        app,
        scope: Scope::Everyone,
        privileges,
        hybrid: false,
    })
}

// The command that these words name: `layout`, `user UID`, `install APP`, `remove APP` and `erase`. Installs are of the
// package `pk` and for all users.
fn command(alloc: Global, text: &str) -> Result<Command, Failure> {
    let (word, rest) = first_word(text);
    match word {
        "layout" => Ok(Command::Layout),
        "install" => Ok(Command::Install {
            install: install(alloc, rest)?,
        }),
        "remove" => Ok(Command::Uninstall {
            app: ident(alloc, rest)?,
            scope: Scope::Everyone,
        }),
        "user" => Ok(Command::UserSet {
            uid: first_number(rest)?.0,
            kind: UserType::Normal,
        }),
        "erase" => Ok(Command::Erase {
            bucket: BucketName::root(alloc),
            filter: Filter {
                client: FilterField::Every,
                user: FilterField::Every,
                privilege: FilterField::Every,
            },
        }),
        _ => Err(Failure::Words),
    }
}

// Commits the command: its number, or none where it was refused or a call of the disk failed.
fn commit(keeper: &mut Kept, command: &Command) -> Result<Option<u64>, Failure> {
    if !keeper.is_decided() {
        return Ok(None);
    }
    match keeper.prepare(command) {
        Ok(prepared) => Ok(keeper.commit(prepared).ok()),
        Err(Refusal::Memory(error)) => Err(Failure::Memory(error)),
        Err(refusal) => {
            drop(refusal);
            Ok(None)
        }
    }
}

fn commit_words(alloc: Global, keeper: &mut Kept, words: &str) -> Result<Option<u64>, Failure> {
    let command = command(alloc, words)?;
    let answer = commit(keeper, &command);
    drop(command);
    answer
}

// Commits these commands in turn: what each is answered.
fn commit_each(alloc: Global, keeper: &mut Kept, words: &str) -> Result<String, Failure> {
    let mut text = String::new(alloc);
    for words in words.split(", ") {
        put_word(&mut text, "")?;
        match commit_words(alloc, keeper, words)? {
            Some(number) => write!(text, "{number}")?,
            None => text.push_str("none")?,
        }
    }
    Ok(text)
}

fn put_refusal(text: &mut String, refusal: &KeeperRefusal) -> Result<(), Failure> {
    match refusal {
        KeeperRefusal::Damaged { file, line } => {
            text.push_str("damaged ")?;
            put_bytes(text, file.as_slice())?;
            Ok(write!(text, " {line}")?)
        }
        KeeperRefusal::StoreFault => Ok(text.push_str("failed")?),
        KeeperRefusal::Memory(_) => Err(Failure::Memory(AllocError)),
    }
}

fn put_found(alloc: Global, disk: &mut MemDisk, text: &mut String) -> Result<(), Failure> {
    match Keeper::mount(alloc, disk) {
        Ok(keeper) => {
            let commit = keeper.desk().commit();
            drop(keeper);
            Ok(write!(text, "commit {commit}")?)
        }
        Err(left) => {
            let told = put_refusal(text, &left.refusal);
            drop(left);
            told
        }
    }
}

/// `found`: what a mount of the disk finds.
pub fn found(alloc: Global, disk: &mut MemDisk) -> Result<String, Failure> {
    let mut text = String::new(alloc);
    put_found(alloc, disk, &mut text)?;
    Ok(text)
}

// What a call gave, or that the case is refused.
fn given<T: Drop, E: Drop>(answer: Result<T, E>) -> Result<T, Failure> {
    match answer {
        Ok(value) => Ok(value),
        Err(_) => Err(Failure::Refused),
    }
}

/// `commit COMMAND, ..`: mounts the disk and commits these commands in turn: the number of each, or `none` where it was
/// refused or a call failed; and the commit that the keeper then gives.
pub fn commits(alloc: Global, disk: &mut MemDisk, words: &str) -> Result<String, Failure> {
    let mut keeper = given(Keeper::mount(alloc, disk))?;
    let told = commit_each(alloc, &mut keeper, words);
    let commit = keeper.desk().commit();
    drop(keeper);
    let mut text = told?;
    write!(text, " at {commit}")?;
    Ok(text)
}

// The commits before and after, and how many policies are erased.
fn prepared_text(alloc: Global, prepared: &PreparedCommit) -> Result<String, Failure> {
    let (base, erased) = (prepared.base(), prepared.erased());
    let next = prepared.desk().commit();
    Ok(format!(in alloc; "from {base} erased {erased} to {next}")?)
}

fn prepare(alloc: Global, keeper: &Kept, command: &Command) -> Result<String, Failure> {
    if !keeper.is_decided() {
        return Err(Failure::Refused);
    }
    let prepared = given(keeper.prepare(command))?;
    let text = prepared_text(alloc, &prepared);
    drop(prepared);
    text
}

// What is prepared, and what a remount then gives.
fn remount(alloc: Global, keeper: &mut Kept, command: &Command) -> Result<String, Failure> {
    let mut text = prepare(alloc, keeper, command)?;
    given(keeper.remount())?;
    write!(text, " at {}", keeper.desk().commit())?;
    Ok(text)
}

/// `prepare COMMAND`: what is prepared for a commit that is not made: the commit before, how many policies are erased,
/// the commit after, and what a remount then gives.
pub fn prepared(alloc: Global, disk: &mut MemDisk, words: &str) -> Result<String, Failure> {
    let command = command(alloc, words)?;
    let told = match given(Keeper::mount(alloc, disk)) {
        Ok(mut keeper) => {
            let told = remount(alloc, &mut keeper, &command);
            drop(keeper);
            told
        }
        Err(failure) => Err(failure),
    };
    drop(command);
    told
}

// Puts whether the keeper is decided, and the commit that it gives.
fn put_standing(keeper: &Kept, text: &mut String) -> Result<(), AllocError> {
    let (stands, commit) = (keeper.is_decided(), keeper.desk().commit());
    let word = if stands { "decided" } else { "undecided" };
    write!(text, " {word} {commit}")
}

// What the commits are answered, and what is given before a remount and after it.
fn answered(alloc: Global, keeper: &mut Kept, words: &str) -> Result<String, Failure> {
    let mut text = String::from_str(alloc, "[")?;
    text.push_str(commit_each(alloc, keeper, words)?.as_str())?;
    put_standing(keeper, &mut text)?;
    given(keeper.remount())?;
    put_standing(keeper, &mut text)?;
    text.push(']')?;
    Ok(text)
}

// The same where the call of this number fails.
fn answered_where(alloc: Global, words: &str, failing: u64) -> Result<String, Failure> {
    let mut disk = failing_disk(alloc, "", &[failing])?;
    match given(Keeper::mount(alloc, &mut disk)) {
        Ok(mut keeper) => {
            let told = answered(alloc, &mut keeper, words);
            drop(keeper);
            told
        }
        Err(_) => Ok(String::from_str(alloc, "no mount")?),
    }
}

/// `commit-failing MOST COMMAND, ..`: what is answered where each call up to this number fails, from an empty folder
/// on.
pub fn failing(alloc: Global, words: &str) -> Result<String, Failure> {
    let (most, words) = first_number(words)?;
    let mut runs = Runs::new(alloc);
    for call in 1..=u64::from(most) {
        runs.add(alloc, answered_where(alloc, words, call)?)?;
    }
    Ok(runs.told(alloc)?)
}
