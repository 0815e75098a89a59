// Files as words, each its name, `=` and its bytes, and the calls of a disk that are to fail.
use crate::{Failure, bytes_of, put_bytes};
use desk_ports::{Bytes, FailList, FileName, FileSet, SetFile, set_in_order};
use std::alloc::{AllocError, Global};

/// The numbers of the calls that are to fail: with commas between them, or `-` for none.
pub fn fails(alloc: Global, word: &str) -> Result<FailList, Failure> {
    let mut calls = Vec::new(alloc);
    for part in word.split(',') {
        if part == "-" {
            continue;
        }
        match part.parse::<u64>() {
            Ok(call) => calls.push(call)?,
            Err(_) => return Err(Failure::Words),
        }
    }
    Ok(FailList::of(calls))
}

/// The file name that a word is.
pub fn file_name(alloc: Global, word: &str) -> Result<FileName, Failure> {
    Ok(FileName::read(alloc, word.as_bytes())?)
}

fn file(alloc: Global, word: &str) -> Result<SetFile, Failure> {
    let Some((name, bytes)) = word.split_once("=") else {
        return Err(Failure::Words);
    };
    Ok(SetFile {
        name: file_name(alloc, name)?,
        bytes: Bytes::of(bytes_of(alloc, bytes)?),
    })
}

/// The files that words are, with a space between them, in order of name.
pub fn files(alloc: Global, words: &str) -> Result<FileSet, Failure> {
    let mut made = Vec::new(alloc);
    for word in words.split(' ') {
        if !word.is_empty() {
            made.push(file(alloc, word)?)?;
        }
    }
    Ok(set_in_order(alloc, &made)?)
}

/// Adds a file to a text, as `NAME=BYTES;`.
pub fn put_file(text: &mut String, name: &FileName, bytes: &[u8]) -> Result<(), AllocError> {
    put_bytes(text, name.as_slice())?;
    text.push('=')?;
    put_bytes(text, bytes)?;
    text.push(';')
}
