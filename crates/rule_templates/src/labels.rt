//! The labels that the placeholders stand for in a package.

ghost use Rattle.std.specs.Prelude.{◌≡◌, Some, IfOk};
ghost use Rattle.std.specs.Option.{option_copied};
ghost use Rattle.rule_templates.specs.PackageLabels.{read_only_label, author_label};

use crate::lines::Word;
use crate::placeholders::Placeholder;
use app_registry::{Ident, package_label};
use smack_rules::Label;
use std::alloc::{AllocError, Global};

const READ_ONLY: &[u8] = b"::RO";

const AUTHOR: &[u8] = b"User::Author::";

/// The label of the files that the package may only read: its label and `::RO`, as in security-manager.
pub fn read_only_label(alloc: Global, package: &Ident) -> Result<Label, AllocError>
    ensures { IfOk result (λ label. label ≡ read_only_label «package».now) }
{
    // An ident is short enough for what stands around it in a label.
    let _name = package.as_slice();
    let own = package_label(alloc, package)?;
    let mut text = own.as_slice().to_vec(alloc)?;
    text.extend_from_slice(READ_ONLY)?;
    Label::of(alloc, &text)
}

/// The label of the files that all packages of the author share: `User::Author::` and the author's name.
pub fn author_label(alloc: Global, author: &Ident) -> Result<Label, AllocError>
    ensures { IfOk result (λ label. label ≡ author_label author.now) }
{
    let name = author.as_slice();
    let mut text = Vec::with_capacity(alloc, AUTHOR.len() + name.len())?;
    text.extend_from_slice(AUTHOR)?;
    text.extend_from_slice(name)?;
    Label::of(alloc, &text)
}

/// The labels that the placeholders stand for in a package.
#[derive(Drop)]
pub(crate) struct PackageLabels {
    own: Label,
    read_only: Label,
    author: Option<Label>,
}

impl PackageLabels {
    ghost use Rattle.std.specs.Option.{option_map};
    ghost use Rattle.app_registry.specs.Label.{package_label};
    ghost use Rattle.rule_templates.specs.parts.Labels.{labels_of, placeholder_label_in, word_label_in};

    /// The labels of a package with an author, or with none.
    pub(crate) fn of(
        alloc: Global,
        package: &Ident,
        author: Option<&Ident>,
    ) -> Result<PackageLabels, AllocError>
        ensures { IfOk result (λ labels. labels ≡ labels_of «package».now (option_copied author.entry)) }
    {
        let own = package_label(alloc, package)?;
        let read_only = read_only_label(alloc, package)?;
        let author = match author {
            Some(author) => Some(author_label(alloc, author)?),
            None => None,
        };
        Ok(PackageLabels {
            own,
            read_only,
            author,
        })
    }

    /// The label of the package itself.
    pub(crate) fn own(&self) -> &Label
        ensures { result.now ≡ self.now.own }
    {
        &self.own
    }

    /// The label that a word stands for, and `~PROCESS~` for this one. `None` where it is the author's, and there is
    /// none.
    pub(crate) fn of_word<'l>(&'l self, word: &'l Word, process: &'l Label) -> Option<&'l Label>
        ensures { option_copied result ≡ word_label_in self.now process.now word.now }
    {
        match word {
            Word::Fixed(label) => Some(label),
            Word::OfPackage(placeholder) => self.of_placeholder(*placeholder, process),
        }
    }

    fn of_placeholder<'l>(
        &'l self,
        placeholder: Placeholder,
        process: &'l Label,
    ) -> Option<&'l Label>
        ensures { option_copied result ≡ placeholder_label_in self.now process.now placeholder }
    {
        match placeholder {
            Placeholder::Process => Some(process),
            Placeholder::PathRw => Some(&self.own),
            Placeholder::PathRo => Some(&self.read_only),
            Placeholder::Author => self.author.as_ref(),
        }
    }
}
