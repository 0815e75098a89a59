ghost use Rattle.std.specs.Prelude.{◌≡◌, None, IfOk};
ghost use Rattle.smack_rules.specs.Label.{label_fault};
ghost use Rattle.private_sharing.specs.Rules as rule;

use app_registry::Ident;
use smack_rules::Label;
use std::alloc::{AllocError, Global};

const FRONT: &[u8] = b"User::Pkg::";

const SHARE: &[u8] = b"::Share::";

/// The label of what is shared under a name, by an application of the package.
pub(crate) fn share_label(alloc: Global, package: &Ident, name: &Ident) -> Result<Label, AllocError>
    ensures { IfOk result (λ label. label ≡ rule.share_label «package».now name.now) }
{
    let text = share_text(alloc, package, name)?;
    Label::of(alloc, &text)
}

fn share_text(alloc: Global, package: &Ident, name: &Ident) -> Result<Vec<u8>, AllocError>
    ensures text { IfOk result (λ text. text.items ≡ rule.share_label «package».now name.now) }
    ensures label { IfOk result (λ text. label_fault text.items ≡ None) }
{
    let front = package.as_slice();
    let own = name.as_slice();
    let mut text = Vec::with_capacity(alloc, FRONT.len() + front.len() + SHARE.len() + own.len())?;
    text.extend_from_slice(FRONT)?;
    text.extend_from_slice(front)?;
    text.extend_from_slice(SHARE)?;
    text.extend_from_slice(own)?;
    Ok(text)
}
