//! The labels with which the applications of a package run.

ghost use Rattle.std.specs.Prelude.{◌≡◌, ◌++◌, IfOk, OnOk};
ghost use Rattle.rule_templates.specs.Processes.{distinct_labels};
ghost use Rattle.rule_templates.specs.parts.Last.{ends_with, last_of, tail_of};

use app_registry::{Install, install_label};
use smack_rules::Label;
use std::alloc::{AllocError, Global};

/// The labels of the installs of a package, which stand together: each once, in the order of the applications' names.
pub(crate) fn process_labels(alloc: Global, installs: &[Install]) -> Result<Vec<Label>, AllocError>
    ensures { IfOk result (λ labels. labels.items ≡ distinct_labels installs.now) }
{
    let mut labels = Vec::new(alloc);
    for install in installs {
        push_label(&mut labels, install_label(alloc, install)?)?;
    }
    Ok(labels)
}

// Puts the label behind these, where it is not the last of them.
fn push_label(labels: &mut Vec<Label>, label: Label) -> Result<(), AllocError>
    ensures { OnOk result (labels.new.items ≡ labels.old.items ++ tail_of labels.old.items label) }
{
    if is_last(labels, &label) {
        return Ok(());
    }
    labels.push(label)?;
    Ok(())
}

// Whether the label is the last of these.
fn is_last(labels: &[Label], label: &Label) -> bool
    ensures { result ≡ ends_with (last_of labels.now) label.now }
{
    match labels.last() {
        Some(last) => last.as_slice() == label.as_slice(),
        None => false,
    }
}
