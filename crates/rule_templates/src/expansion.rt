//! The rules of a package.

ghost use Rattle.std.specs.Prelude.{◌≡◌, ◌++◌, IsTrue, IfOk, OnOk};
ghost use Rattle.app_registry.specs.Registry.{has_package};
ghost use Rattle.rule_templates.specs.Expansion.{expansion, rule_of};
ghost use Rattle.rule_templates.specs.Kinds.{labels_by_kind};
ghost use Rattle.rule_templates.specs.Processes.{process_labels};
ghost use Rattle.rule_templates.specs.parts.Labels.{line_rules_in, each_rules_in, package_line_rules_in};

use crate::labels::PackageLabels;
use crate::lines::{Change, TemplateLine};
use crate::templates::Template;
use app_registry::{Ident, Registry};
use smack_rules::{Label, Rule};
use std::alloc::{AllocError, Global};

/// The Smack rules of a package: the template's lines in order, each placeholder replaced by the package's label. In a
/// hybrid package a line with `~PROCESS~` gives one rule for each application, in the order of their names, with that
/// application's label. A line with `~AUTHOR~` is left out where the package has no author. Linear in the template and
/// the package's installs, which are found by binary searches.
pub fn expand(
    alloc: Global,
    template: &Template,
    registry: &Registry,
    package: &Ident,
) -> Result<Vec<Rule>, AllocError>
    requires { IsTrue (has_package registry.now «package».now) }
    ensures rules { IfOk result (λ rules. rules.items ≡ expansion template.now registry.now «package».now) }
    // What `~PROCESS~` stands for: the labels of the applications of a hybrid package, and that of a plain package
    // alone.
    ensures processes { process_labels registry.now «package».now ≡ labels_by_kind registry.now «package».now }
{
    // A registry keeps that all installs of a package are of one kind.
    let _installs = registry.installs();
    template.rules_for(registry, package)
}

impl Change {
    /// The rule that makes this change for a pair.
    fn rule(self, subject: Label, object: Label) -> Rule
        ensures { result ≡ rule_of self subject object }
    {
        match self {
            Change::Set(modes) => Rule::Set {
                subject,
                object,
                modes,
            },
            Change::Adjust { allow, deny } => Rule::Adjust {
                subject,
                object,
                allow,
                deny,
            },
        }
    }
}

/// Appends the rules that a line gives: one for each process where it has `~PROCESS~`, and else one alone.
pub(crate) fn append_rules(
    rules: &mut Vec<Rule>,
    labels: &PackageLabels,
    processes: &[Label],
    line: &TemplateLine,
) -> Result<(), AllocError>
    ensures { OnOk result (rules.new.items
        ≡ rules.old.items ++ package_line_rules_in labels.now processes.now line.now) }
{
    if line.has_process() {
        return append_each(rules, labels, processes, line);
    }
    append_rule(rules, labels, labels.own(), line)
}

/// Appends the rules of a line for each of these processes.
fn append_each(
    rules: &mut Vec<Rule>,
    labels: &PackageLabels,
    processes: &[Label],
    line: &TemplateLine,
) -> Result<(), AllocError>
    ensures { OnOk result (rules.new.items ≡ rules.old.items ++ each_rules_in labels.now line.now processes.now) }
{
    for process in processes {
        append_rule(rules, labels, process, line)?;
    }
    Ok(())
}

/// Appends the rule of a line for one process. Where memory is wanting, the rules are as before.
fn append_rule(
    rules: &mut Vec<Rule>,
    labels: &PackageLabels,
    process: &Label,
    line: &TemplateLine,
) -> Result<(), AllocError>
    ensures { OnOk result (rules.new.items ≡ rules.old.items ++ line_rules_in labels.now line.now process.now) }
{
    let Some(subject) = labels.of_word(&line.subject, process) else {
        return Ok(());
    };
    let Some(object) = labels.of_word(&line.object, process) else {
        return Ok(());
    };
    rules.push(line.change.rule(subject.copy()?, object.copy()?))?;
    Ok(())
}
