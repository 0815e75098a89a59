//! The file `stamp`: the number of the last accepted command.

ghost use Rattle.std.specs.Prelude.{◌≡◌, ◌∷◌, [], Ok, Err, IfOk, MatchResult};
ghost use Rattle.set_text.specs.Stamp as word;

use crate::lines::FileFault;
use crate::numbers::decimal_of;
use desk_state::LAST_COMMIT;
use itoa::Buffer;
use std::alloc::{AllocError, Global};
use text_lines::split_at_newline;

/// The text of `stamp`.
pub fn stamp_text(alloc: Global, commit: u64) -> Result<Vec<u8>, AllocError>
    ensures { IfOk result (λ text. text.items ≡ word.stamp_text commit) }
{
    let mut text = Vec::new(alloc);
    text.extend_from_slice(Buffer::new().format(commit).as_bytes())?;
    text.push(b'\n')?;
    Ok(text)
}

/// Reads `stamp`: its one line, or the number of its first wrong line. Takes no memory.
pub fn read_stamp(text: &[u8]) -> Result<u64, u32>
    ensures { MatchResult result (λ commit. word.commits_of text.now ≡ Ok (commit ∷ []))
        (λ line. word.commits_of text.now ≡ Err line) }
{
    let Some((line, rest)) = split_at_newline(text) else {
        return Err(1);
    };
    let Some(commit) = decimal_of(line, LAST_COMMIT) else {
        return Err(1);
    };
    if !rest.is_empty() {
        return Err(2);
    }
    Ok(commit)
}
