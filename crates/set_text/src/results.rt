//! What a policy or a fallback decides, as the last two fields of a line.

ghost use Rattle.std.specs.Prelude.{◌≡◌, ◌++◌, ◌∷◌, [], OnOk};
ghost use Rattle.set_text.specs.Buckets.{ruling_of};
ghost use Rattle.set_text.specs.IsSpelt.{IsRuling};
ghost use Rattle.set_text.specs.Lines.{joined};
ghost use Rattle.set_text.specs.Numbers.{kind_text};
ghost use Rattle.set_text.specs.parts.Reads.{ReadsLine};

use crate::lines::LineFault;
use crate::numbers::{append_kind, kind_of};
use cynara_keys::{Metadata, MetadataRefusal, PolicyResult};
use std::alloc::{AllocError, Global};

/// The result of a kind and metadata that go together.
pub fn ruling_of(alloc: Global, kind: &[u8], metadata: &[u8]) -> Result<PolicyResult, LineFault>
    ensures { ReadsLine result (ruling_of kind.now metadata.now) }
{
    let Some(kind) = kind_of(kind) else {
        return Err(LineFault::Wrong);
    };
    let metadata = match Metadata::read(alloc, metadata) {
        Ok(metadata) => metadata,
        Err(MetadataRefusal::Memory(error)) => return Err(LineFault::Memory(error)),
        Err(_) => return Err(LineFault::Wrong),
    };
    match PolicyResult::of(kind, metadata) {
        Ok(ruling) => Ok(ruling),
        Err(_) => Err(LineFault::Wrong),
    }
}

/// Appends the kind and the metadata, with a semicolon between them, and the newline of the line.
pub fn append_ruling(ruling: &PolicyResult, text: &mut Vec<u8>) -> Result<(), AllocError>
    ensures text { OnOk result (text.new.items
        ≡ text.old.items ++ (joined (kind_text ruling.now.kind ∷ ruling.now.metadata ∷ []) ++ 10 ∷ [])) }
    ensures spelt { OnOk result (IsRuling ruling.now) }
{
    append_kind(ruling.kind(), text)?;
    text.push(b';')?;
    text.extend_from_slice(ruling.metadata().as_slice())?;
    text.push(b'\n')?;
    Ok(())
}
