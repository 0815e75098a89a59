// The whole policy state, as its files.
ghost use Rattle.std.specs.Prelude.{◌≡◌, ◌<◌, ◌++◌, ◌∷◌, [], List, ℕ, length, map, MatchResult};
ghost use Rattle.set_text.specs.Files.{files};
ghost use Rattle.wire_fields.specs.declared.messages.Message.TheVariants.{StateFile};
ghost use Rattle.door_frames.specs.declared.endings.Ended.TheVariants.{Memory};
ghost use Rattle.admin_door.specs.State.{AreState, AreFiles, ArePartsOf, AreParts};

use crate::questions::with_one;
use desk_ports::{Bytes, FileName, SetFile};
use desk_state::Desk;
use door_frames::Ended;
use set_text::write;
use std::alloc::Global;
use wire_messages::{MOST_PART_BYTES, Message};

/// The files of the policy state in the order of their names, each in parts, and then its commit.
pub(crate) fn state_replies(alloc: Global, desk: &Desk) -> Result<Vec<Message>, Ended>
    ensures { MatchResult result (λ replies. AreState desk.now replies.items) (λ ended. ended ≡ Memory) }
{
    let Ok(set) = write(alloc, desk) else {
        return Err(Ended::Memory);
    };
    let commit = desk.commit();
    match in_parts(alloc, set.as_slice()) {
        Ok(replies) => with_one(replies, Message::StateEnd { commit }),
        Err(ended) => Err(ended),
    }
}

// The files, each in parts.
fn in_parts(alloc: Global, files: &[SetFile]) -> Result<Vec<Message>, Ended>
    ensures { MatchResult result (λ replies. AreFiles files.now replies.items) (λ ended. ended ≡ Memory) }
{
    let mut replies = Vec::new(alloc);
    for file in files {
        match with_file(alloc, replies, file) {
            Ok(more) => replies = more,
            Err(ended) => return Err(ended),
        }
    }
    Ok(replies)
}

// The replies with those of a file behind them: one for each part, and one for a file without bytes.
fn with_file(alloc: Global, before: Vec<Message>, file: &SetFile) -> Result<Vec<Message>, Ended>
    ensures { MatchResult result (λ longer. (parts : List (List ℕ))
        × (longer.items ≡ before.items ++ map (StateFile file.now.name) parts) × ArePartsOf file.now.bytes parts)
        (λ ended. ended ≡ Memory) }
{
    if file.bytes.len() == 0 {
        return with_part(alloc, before, &file.name, &[]);
    }
    with_some(alloc, before, &file.name, file.bytes.as_slice())
}

// The same for a file with some bytes.
fn with_some(
    alloc: Global,
    before: Vec<Message>,
    name: &FileName,
    bytes: &[u8],
) -> Result<Vec<Message>, Ended>
    ensures { MatchResult result (λ longer. (parts : List (List ℕ))
        × (longer.items ≡ before.items ++ map (StateFile name.now) parts) × AreParts bytes.now parts)
        (λ ended. ended ≡ Memory) }
{
    let mut replies = before;
    let mut rest = bytes;
    'parts: while !rest.is_empty() {
        let count = rest.len().min(MOST_PART_BYTES);
        let (part, behind) = rest.split_at(count);
        match with_part(alloc, replies, name, part) {
            Ok(more) => replies = more,
            Err(ended) => return Err(ended),
        }
        rest = behind;
    }
    Ok(replies)
}

// The replies with one part of a file behind them.
fn with_part(
    alloc: Global,
    replies: Vec<Message>,
    name: &FileName,
    part: &[u8],
) -> Result<Vec<Message>, Ended>
    ensures { MatchResult result (λ longer. longer.items ≡ replies.items ++ StateFile name.now part.now ∷ [])
        (λ ended. ended ≡ Memory) }
{
    let Ok(name) = name.copy() else {
        return Err(Ended::Memory);
    };
    let mut bytes = Bytes::new(alloc);
    let Ok(()) = bytes.append(part) else {
        return Err(Ended::Memory);
    };
    with_one(replies, Message::StateFile { name, bytes })
}
