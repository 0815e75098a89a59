//! The Smack rules that open shares give.

ghost use Rattle.std.specs.Prelude.{◌≡◌, ◌++◌, ◌∷◌, [], IfOk, OnOk};
ghost use Rattle.std.specs.Option.{option_copied};
ghost use Rattle.app_registry.specs.Label.{label_of};
ghost use Rattle.app_registry.specs.Registry.{package_of};
ghost use Rattle.private_sharing.specs.Rules as rule;

use crate::labels::share_label;
use crate::shares::Share;
use app_registry::{Ident, Registry};
use smack_rules::{Label, Modes, Rule};
use std::alloc::{AllocError, Global};

/// `rwxatl`, what the owner gets.
const OWNER_MODES: Modes = Modes {
    read: true,
    write: true,
    execute: true,
    append: true,
    transmute: true,
    lock: true,
    bring_up: false,
};

/// `rxl`, what the target gets.
const TARGET_MODES: Modes = Modes {
    read: true,
    write: false,
    execute: true,
    append: false,
    transmute: false,
    lock: true,
    bring_up: false,
};

/// The rules of the shares, in their order.
pub(crate) fn rules(
    alloc: Global,
    shares: &[Share],
    registry: &Registry,
) -> Result<Vec<Rule>, AllocError>
    ensures { IfOk result (λ given. given.items ≡ rule.rules registry.now shares.now) }
{
    let mut rules = Vec::with_capacity(alloc, 2 * shares.len())?;
    for share in shares {
        append_rules(&mut rules, alloc, share, registry)?;
    }
    Ok(rules)
}

/// Appends the rules of a share, if both of its applications are installed.
fn append_rules(
    rules: &mut Vec<Rule>,
    alloc: Global,
    share: &Share,
    registry: &Registry,
) -> Result<(), AllocError>
    ensures { OnOk result (rules.new.items ≡ rules.old.items ++ rule.share_rules registry.now share.now) }
{
    let Some(package) = registry.package_of(&share.owner) else {
        return Ok(());
    };
    let Some(own) = registry.label_of(&share.owner)? else {
        return Ok(());
    };
    let Some(other) = registry.label_of(&share.target)? else {
        return Ok(());
    };
    let owned = share_label(alloc, package, &share.name)?;
    let shared = share_label(alloc, package, &share.name)?;
    push_giving(rules, own, owned, OWNER_MODES)?;
    push_giving(rules, other, shared, TARGET_MODES)?;
    Ok(())
}

fn push_giving(
    rules: &mut Vec<Rule>,
    subject: Label,
    object: Label,
    allow: Modes,
) -> Result<(), AllocError>
    ensures { OnOk result (rules.new.items ≡ rules.old.items ++ rule.giving subject object allow ∷ []) }
{
    rules.push(giving(subject, object, allow))?;
    Ok(())
}

/// A rule that gives modes and takes nothing away.
fn giving(subject: Label, object: Label, allow: Modes) -> Rule
    ensures { result ≡ rule.giving subject object allow }
{
    Rule::Adjust {
        subject,
        object,
        allow,
        deny: Modes::NO_ACCESS,
    }
}
