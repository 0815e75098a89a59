// A store over the disk: what a mount finds, replacements, and what failing calls leave.
ghost use Rattle.std.specs.Prelude.{◌≡◌};
ghost use Rattle.std.specs.List.{list_all};
ghost use Rattle.guard_files.specs.OwnName.{is_listable as may_stand};

use crate::stops::{Seen, seen_later};
use cases_words::{Failure, Found, Runs, files, first_number, folder_text, put_bytes, put_file};
use desk_ports::{FailList, FileSet, MemDisk, SetFile};
use guard_files::{Mounted, Vault, VaultRefusal, is_listable, look, settle};
use std::alloc::{AllocError, Global};

type Store<'a> = Vault<'a, MemDisk>;

fn put_set(text: &mut String, held: Option<&FileSet>) -> Result<(), Failure> {
    let Some(set) = held else {
        return Ok(text.push_str("none")?);
    };
    text.push_str("set ")?;
    for file in set.as_slice() {
        put_file(text, &file.name, file.bytes.as_slice())?;
    }
    Ok(())
}

fn put_refusal(text: &mut String, refusal: &VaultRefusal) -> Result<(), Failure> {
    match refusal {
        VaultRefusal::Damaged { file } => {
            text.push_str("damaged ")?;
            Ok(put_bytes(text, file.as_slice())?)
        }
        VaultRefusal::StoreFault => Ok(text.push_str("failed")?),
        VaultRefusal::Memory(_) => Err(Failure::Memory(AllocError)),
    }
}

// Brings the disk to rest, whatever set it holds.
fn at_rest(alloc: Global, disk: &mut MemDisk) -> Result<Mounted, VaultRefusal> {
    match look(alloc, disk) {
        Ok(found) => settle(alloc, disk, found),
        Err(refusal) => Err(refusal),
    }
}

fn put_mount(alloc: Global, text: &mut String, disk: &mut MemDisk) -> Result<(), Failure> {
    match at_rest(alloc, disk) {
        Ok(found) => {
            let vault = Vault::of(alloc, disk, found);
            put_set(text, vault.held())
        }
        Err(refusal) => put_refusal(text, &refusal),
    }
}

/// `mount`: what a mount of the disk finds.
pub fn mount(alloc: Global, disk: &mut MemDisk) -> Result<String, Failure> {
    let mut text = String::new(alloc);
    put_mount(alloc, &mut text, disk)?;
    Ok(text)
}

/// What a mount of the disk finds, a bar, and what the folder holds after it.
pub fn mounted(alloc: Global, disk: &mut MemDisk) -> Result<String, Failure> {
    let mut text = mount(alloc, disk)?;
    text.push('|')?;
    text.push_str(folder_text(alloc, disk)?.as_str())?;
    Ok(text)
}

fn are_listable(files: &[SetFile]) -> bool
    ensures { result ≡ list_all (λ file. may_stand file.name) files.now }
{
    files.iter().all(|file| is_listable(file.name.as_slice()))
}

// Replaces what the vault holds by this set. Whether that was done.
fn replace(vault: &mut Store, set: FileSet) -> Result<bool, Failure> {
    if !vault.is_decided() || !are_listable(set.as_slice()) {
        return Err(Failure::Words);
    }
    let prepared = vault.prepare(set)?;
    Ok(vault.replace(prepared).is_ok())
}

fn remount(vault: &mut Store) -> Result<(), VaultRefusal> {
    match vault.look() {
        Ok(found) => vault.settle(found),
        Err(refusal) => Err(refusal),
    }
}

// Remounts until the vault is decided, at most three times.
fn decide(vault: &mut Store) -> Result<(), Failure> {
    for _ in 0..3 {
        if vault.is_decided() {
            return Ok(());
        }
        match remount(vault) {
            Ok(()) | Err(VaultRefusal::StoreFault) => {}
            Err(_) => return Err(Failure::Refused),
        }
    }
    Err(Failure::Refused)
}

// Replaces the held set, and remounts until the vault is decided. Whether the replacement was done, which is exactly
// where the vault was decided after it.
fn replace_and_decide(alloc: Global, vault: &mut Store, words: &str) -> Result<bool, Failure> {
    let is_done = replace(vault, files(alloc, words)?)?;
    if is_done != vault.is_decided() {
        return Err(Failure::Refused);
    }
    decide(vault)?;
    Ok(is_done)
}

// Mounts and replaces the held set, or says by `None` that a call of the mount failed.
fn try_replace(alloc: Global, disk: &mut MemDisk, words: &str) -> Result<Option<bool>, Failure> {
    match at_rest(alloc, disk) {
        Ok(found) => {
            let mut vault = Vault::of(alloc, disk, found);
            let told = replace_and_decide(alloc, &mut vault, words);
            drop(vault);
            Ok(Some(told?))
        }
        Err(VaultRefusal::StoreFault) => Ok(None),
        Err(_) => Err(Failure::Refused),
    }
}

// Mounts, and again where a call failed, and then replaces the held set.
fn replaced(alloc: Global, disk: &mut MemDisk, words: &str) -> Result<bool, Failure> {
    for _ in 0..3 {
        if let Some(is_done) = try_replace(alloc, disk, words)? {
            return Ok(is_done);
        }
    }
    Err(Failure::Refused)
}

/// `replace FILE ..`: mounts the disk and replaces the held set by these files; where that failed it remounts.
pub fn replacement(alloc: Global, disk: &mut MemDisk, words: &str) -> Result<String, Failure> {
    let answer = if replaced(alloc, disk, words)? {
        "done"
    } else {
        "failed"
    };
    Ok(String::from_str(alloc, answer)?)
}

/// A disk of these files whose calls of these numbers fail.
pub fn failing_disk(alloc: Global, words: &str, fails: &[u64]) -> Result<MemDisk, Failure> {
    let set = files(alloc, words)?;
    Ok(MemDisk::new(alloc, set, FailList::of(fails.to_vec(alloc)?))?)
}

// Replacements whose calls fail: the two sets, and what was found, what one failing call leaves and what two do.
#[derive(Drop)]
struct Tried<'a> {
    alloc: Global,
    before: &'a str,
    after: &'a str,
    found: Found,
    runs: Runs,
    answers: String,
}

impl Tried<'_> {
    // What is left on the disk: a letter of what a mount finds, behind `+` where the replacement was done.
    fn left_on(&mut self, disk: &mut MemDisk) -> Result<String, Failure> {
        let is_done = replaced(self.alloc, disk, self.after)?;
        let front = if is_done { "+" } else { "" };
        let text = seen_later(Seen::Store, self.alloc, disk, disk.calls().len(), 0)?;
        let letter = self.found.letter(text)?;
        Ok(format!(in self.alloc; "{front}{letter}")?)
    }

    // The same where the calls of these numbers fail.
    fn left_where(&mut self, fails: &[u64]) -> Result<String, Failure> {
        let mut disk = failing_disk(self.alloc, self.before, fails)?;
        self.left_on(&mut disk)
    }

    fn add_pairs(&mut self, most: u64, first: u64) -> Result<(), Failure> {
        for second in first..=most {
            let answer = self.left_where(&[first, second])?;
            let mut answers = self.answers.as_str().split(' ');
            if !answers.any(|other| other == answer.as_str()) {
                self.answers.push(' ')?;
                self.answers.push_str(answer.as_str())?;
            }
        }
        Ok(())
    }

    fn told(&mut self, most: u64) -> Result<String, Failure> {
        for first in 1..=most {
            let answer = self.left_where(&[first])?;
            self.runs.add(self.alloc, answer)?;
            self.add_pairs(most, first)?;
        }
        let mut text = self.runs.told(self.alloc)?;
        text.push_str("; two of them:")?;
        text.push_str(self.answers.as_str())?;
        self.found.put_texts(&mut text)?;
        Ok(text)
    }
}

/// `failing MOST FILE .. / FILE ..`: what is left of a replacement of which each call up to this number fails, and each
/// two of them, with a stop behind it.
pub fn failing(alloc: Global, words: &str) -> Result<String, Failure> {
    let (most, words) = first_number(words)?;
    let Some((before, after)) = words.split_once(" / ") else {
        return Err(Failure::Words);
    };
    let mut tried = Tried {
        alloc,
        before,
        after,
        found: Found::new(alloc),
        runs: Runs::new(alloc),
        answers: String::new(alloc),
    };
    tried.told(u64::from(most))
}
