//! Placeholders.

ghost use Rattle.std.specs.Prelude.{◌≡◌};
ghost use Rattle.rule_templates.specs.Expansion.{is_process};
ghost use Rattle.rule_templates.specs.Placeholder.{placeholder_text, placeholder_of, begins_with_tilde};

/// A word of a template that stands for a label of the package that the template is expanded for.
#[derive(Clone, Copy, Debug, PartialEq, Eq)]
pub enum Placeholder {
    /// `~PROCESS~`: the label of the package's processes, and in a hybrid package that of each application in turn.
    Process,
    /// `~PATH_RW~`: the label of the files that the package may write.
    PathRw,
    /// `~PATH_RO~`: the label of the files that the package may only read.
    PathRo,
    /// `~AUTHOR~`: the label of the files that all packages of the author share.
    Author,
}

impl Placeholder {
    /// The word that stands in a template.
    pub fn text(self) -> &'static [u8]
        ensures { result.now ≡ placeholder_text self }
    {
        match self {
            Placeholder::Process => b"~PROCESS~",
            Placeholder::PathRw => b"~PATH_RW~",
            Placeholder::PathRo => b"~PATH_RO~",
            Placeholder::Author => b"~AUTHOR~",
        }
    }

    /// Whether it is `~PROCESS~`.
    pub(crate) fn is_process(self) -> bool
        ensures { result ≡ is_process self }
    {
        match self {
            Placeholder::Process => true,
            Placeholder::PathRw | Placeholder::PathRo | Placeholder::Author => false,
        }
    }

    /// The placeholder that a word is. `None` for every other word.
    pub fn of_word(word: &[u8]) -> Option<Placeholder>
        ensures { result ≡ placeholder_of word.now }
    {
        if word == Placeholder::Process.text() {
            return Some(Placeholder::Process);
        }
        if word == Placeholder::PathRw.text() {
            return Some(Placeholder::PathRw);
        }
        if word == Placeholder::PathRo.text() {
            return Some(Placeholder::PathRo);
        }
        if word == Placeholder::Author.text() {
            return Some(Placeholder::Author);
        }
        None
    }
}

/// Whether a word begins with `~`, as placeholders do.
pub(crate) fn begins_with_tilde(word: &[u8]) -> bool
    ensures { result ≡ begins_with_tilde word.now }
{
    matches!(word, [b'~', ..])
}
