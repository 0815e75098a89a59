// Why the words of the command line are no command.
use cynara_keys::NameRefusal;
use smack_rules::LabelRefusal;
use thiserror::Error;

/// The first thing that is wrong with the words behind the program's name, whose places count from 0.
#[derive(Clone, Copy, Debug, PartialEq, Eq, Error)]
pub enum WordFault {
    /// They are too few or too many, or the first word is no command's name.
    #[error("they are the words of no command")]
    NoLine,
    #[error("a word does not begin with -, and there are no options")]
    Dash { place: usize },
    #[error("{fault}")]
    Label { place: usize, fault: LabelRefusal },
    #[error("modes are 1 to 64 of the letters r w x a t l, in either case, or - for none")]
    Modes { place: usize },
    #[error("what is asked for has a letter, and no b, which stands in rules alone")]
    NoRequest { place: usize },
    #[error("{fault}")]
    Name { place: usize, fault: NameRefusal },
    #[error("it is a decimal number from {least} to {most}, with no sign and no zero in front")]
    Number { place: usize, least: u32, most: u32 },
    #[error("an agent answers allow or deny")]
    Answer { place: usize },
}

impl WordFault {
    /// The place of the word that is wrong, where there is one.
    pub fn place(self) -> Option<usize> {
        match self {
            WordFault::NoLine => None,
            WordFault::Dash { place }
            | WordFault::Label { place, .. }
            | WordFault::Modes { place }
            | WordFault::NoRequest { place }
            | WordFault::Name { place, .. }
            | WordFault::Number { place, .. }
            | WordFault::Answer { place } => Some(place),
        }
    }
}
