//! What the layout has against a command.

ghost use Rattle.std.specs.Prelude.{◌≡◌, if◌then◌else◌, IfErr, OnOk, Some, None, find, map};
ghost use Rattle.std.specs.List.{list_any};
ghost use Rattle.std.specs.Option.{option_copied, option_map};
ghost use Rattle.cynara_keys.specs.Text.{same_text};
ghost use Rattle.desk_state.specs.Layout as layout;
ghost use Rattle.desk_state.specs.Rules as rule;
ghost use Rattle.desk_state.specs.Rules.{Refuses};
ghost use Rattle.desk_state.specs.parts.Naming.{NamesReserved};
ghost use Rattle.desk_state.specs.declared.refusals.Refusal.TheVariants.{Reserved, LayoutThere};

use crate::names::{MAIN, is_built_in, is_managed};
use crate::{Command, Desk, Refusal};
use bucket_store::{Bucket, Change};
use cynara_keys::BucketName;

impl Desk {
    // Whether the layout is there.
    pub(crate) fn has_layout(&self) -> bool
        ensures { result ≡ layout.has_layout self.now.database }
    {
        has_bucket(self.database().buckets(), MAIN)
    }

    // Tests the command by what the layout has against it, before all other rules.
    pub(crate) fn check_layout(&self, command: &Command) -> Result<(), Refusal>
        ensures unreserved { OnOk result (rule.reserved (layout.has_layout self.now.database) command.now ≡ None) }
        ensures there { OnOk result (rule.layout_there (layout.has_layout self.now.database) command.now ≡ None) }
        ensures known { OnOk result (rule.no_layout (layout.has_layout self.now.database) command.now ≡ None) }
        ensures refused { IfErr result (Refuses self.now command.now) }
    {
        let laid_out = self.has_layout();
        if let Some(name) = reserved_name(laid_out, command) {
            return Err(reserved(name));
        }
        if repeats_layout(laid_out, command) {
            return Err(Refusal::LayoutThere);
        }
        if is_about_registry(command) && !laid_out {
            return Err(Refusal::NoLayout);
        }
        Ok(())
    }
}

fn has_bucket(buckets: &[Bucket], name: &[u8]) -> bool
    ensures { result ≡ list_any (λ bucket. same_text bucket.name name.now) buckets.now }
{
    buckets
        .iter()
        .any(|bucket| bucket.name().as_slice() == name)
}

// The refusal of a reserved name.
fn reserved(name: &BucketName) -> Refusal
    ensures { NamesReserved name.now result }
{
    match name.copy() {
        Ok(name) => Refusal::Reserved(name),
        Err(error) => Refusal::Memory(error),
    }
}

// The first name in the command that the layout keeps for itself.
fn reserved_name(laid_out: bool, command: &Command) -> Option<&BucketName>
    ensures { rule.reserved laid_out command.now ≡ option_map (λ name. Reserved name) (option_copied result) }
{
    match command {
        Command::SetBucket { bucket, .. } => {
            let name = bucket.as_slice();
            if is_managed(name) || (is_built_in(name) && !laid_out) {
                return Some(bucket);
            }
            None
        }
        Command::RemoveBucket { bucket } => {
            if is_built_in(bucket.as_slice()) {
                return Some(bucket);
            }
            None
        }
        Command::SetPolicies { changes } => managed_bucket(changes.as_slice()),
        Command::Erase { bucket, .. } => {
            if is_managed(bucket.as_slice()) {
                return Some(bucket);
            }
            None
        }
        _ => None,
    }
}

fn managed_bucket(changes: &[Change]) -> Option<&BucketName>
    ensures { option_copied result ≡ find layout.is_managed (map rule.changed_bucket changes.now) }
{
    match first_managed(changes) {
        Some(change) => Some(changed_bucket(change)),
        None => None,
    }
}

fn first_managed(changes: &[Change]) -> Option<&Change>
    ensures { option_copied result ≡ find (λ change. layout.is_managed (rule.changed_bucket change)) changes.now }
{
    changes
        .iter()
        .find(|change| is_managed(changed_bucket(change).as_slice()))
}

fn changed_bucket(change: &Change) -> &BucketName
    ensures { result.now ≡ rule.changed_bucket change.now }
{
    match change {
        Change::Set { bucket, .. } => bucket,
        Change::Delete { bucket, .. } => bucket,
    }
}

fn repeats_layout(laid_out: bool, command: &Command) -> bool
    ensures { rule.layout_there laid_out command.now ≡ (if result then Some LayoutThere else None) }
{
    match command {
        Command::Layout => laid_out,
        _ => false,
    }
}

fn is_about_registry(command: &Command) -> bool
    ensures { result ≡ rule.is_about_registry command.now }
{
    match command {
        Command::UserSet { .. }
        | Command::UserRemove { .. }
        | Command::Install { .. }
        | Command::Uninstall { .. }
        | Command::Convert { .. } => true,
        _ => false,
    }
}
