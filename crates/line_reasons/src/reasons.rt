//! Reasons, and their words.

use std::fmt;

/// Why a line is outside its grammar, in a person's words: one line of plain ASCII. What it shows of the line is at
/// most 40 bytes, with `\x` and two digits of hexadecimal for a byte that is not printable. The reasons at the end are
/// those of a whole text.
#[derive(Drop)]
pub enum Reason {
    CarriageReturn,
    ByteOrderMark,
    Tab,
    SpaceInFront,
    SpacesAlone,
    SpaceAtEnd,
    TwoSpaces,
    EmptyLine,
    Comment,
    FirstWord {
        /// The word, as it is shown.
        shown: String,
        /// The form of a line whose first word is near to it.
        near: Option<&'static str>,
    },
    /// The first 40 bytes of a longer first word, as they are shown.
    LongFirstWord(String),
    NotInBatch,
    NoBlock,
    /// The line is known in a script for a service alone.
    OfAdmin,
    /// The line is known in no script for a service.
    OfLocal,
    TemplateFull,
    EndNotAlone,
    /// The form of the line.
    TooFewWords(&'static str),
    TooManyWords(&'static str),
    /// The word, `*` or `#`.
    Wildcard(&'static str),
    HashAlone,
    /// A word of a single byte, and what it stands for.
    StandsAlone {
        word: &'static str,
        what: &'static str,
    },
    BadResult,
    BadTarget,
    BadDepth,
    BadUserType,
    BadUser,
    BadScope,
    BadPackageKind,
    BadSetter,
    BadLevel,
    BadModes,
    BadRequest,
    BadPlaceholder,
    SpecialLabel,
    /// The byte, as it is shown, and what it stands in.
    BadByte {
        byte: String,
        what: &'static str,
    },
    TooLong {
        what: &'static str,
        most: u32,
    },
    LinePastLimit,
    ScriptPastLimit,
    RulesPastLimit,
    OpenBlock,
}

impl fmt::Display for Reason {
    fn fmt<W: fmt::Write>(&self, f: &mut fmt::Formatter<W>) -> fmt::Result {
        match self.fixed_words() {
            Some(words) => f.write_str(words),
            None => self.write_shown(f),
        }
    }
}

impl Reason {
    /// Whether it is about one word behind the first, so that it helps to see the form of the line.
    pub(crate) fn is_about_a_word(&self) -> bool {
        matches!(
            self,
            Reason::Wildcard(_)
                | Reason::HashAlone
                | Reason::StandsAlone { .. }
                | Reason::BadResult
                | Reason::BadTarget
                | Reason::BadDepth
                | Reason::BadUserType
                | Reason::BadUser
                | Reason::BadScope
                | Reason::BadPackageKind
                | Reason::BadSetter
                | Reason::BadLevel
                | Reason::BadRequest
                | Reason::SpecialLabel
                | Reason::BadByte { .. }
                | Reason::TooLong { .. }
        )
    }

    // The words of a reason that are the same whatever the line.
    fn fixed_words(&self) -> Option<&'static str> {
        Some(match self {
            Reason::CarriageReturn => "a carriage return, \\x0d: a line ends with a newline alone",
            Reason::ByteOrderMark => "a byte order mark: a text begins with its first word",
            Reason::Tab => "a tab: one space parts words",
            Reason::SpaceInFront => "a space in front of the first word",
            Reason::SpacesAlone => "spaces alone: an empty line has none",
            Reason::SpaceAtEnd => "a space at the end of the line",
            Reason::TwoSpaces => "two spaces between words",
            Reason::EmptyLine => "a line without words, where a rule or `end` must stand",
            Reason::Comment => "neither a rule nor a comment: here `#` begins a label",
            Reason::NotInBatch => "within a batch stand `set` and `unset` lines, and `end`",
            Reason::NoBlock => "`end` where no block is open",
            Reason::OfAdmin => "a line of scripts for a service, which `admin` sends",
            Reason::OfLocal => "a line of scripts for the program's own folder, which `local` runs",
            Reason::TemplateFull => "a template has at most 64 lines: `end` must stand",
            Reason::EndNotAlone => "`end` stands alone on its line, without a space or a tab",
            Reason::HashAlone => "`#` alone is no name: `*` or a name must stand",
            Reason::BadResult =>
                "no result: deny, none, allow, bucket:BUCKET or agent:KIND:METADATA, KIND from 2 to 65533",
            Reason::BadTarget =>
                "no bucket behind `bucket:`: `.` for the root, or at most 64 letters, digits, `_` and `-`",
            Reason::BadDepth => "no mode of evaluation: deep or flat",
            Reason::BadUserType => "no type of users: system, admin, normal or guest",
            Reason::BadUser =>
                "no user: a number from 0 to 4294967295 without a sign or leading zeros",
            Reason::BadScope =>
                "no scope: `*`, or the number of a user from 0 to 4294967295 without a sign or leading zeros",
            Reason::BadPackageKind => "no kind of a package: hybrid or plain",
            Reason::BadSetter => "no setter of a level: own, or admin and the number of a user",
            Reason::BadLevel => "no level: allow, ask, deny or unset",
            Reason::BadModes => "no modes: at most 64 of the letters rwxatlb and of -",
            Reason::BadRequest =>
                "no modes to ask for: at most 64 of the letters rwxatl and of -, a letter among them",
            Reason::BadPlaceholder => "no placeholder: ~PROCESS~, ~PATH_RW~, ~PATH_RO~ or ~AUTHOR~",
            Reason::SpecialLabel => "the labels @ and ? are not known",
            Reason::LinePastLimit => "a line has at most 65535 bytes",
            Reason::ScriptPastLimit => "a script has at most 16777216 bytes",
            Reason::RulesPastLimit => "a text of rules has at most 16777216 bytes",
            Reason::OpenBlock => "a block that is not ended: `end` is missing",
            _ => return None,
        })
    }

    // The words of a reason that shows something of the line, or of what should stand there.
    fn write_shown<W: fmt::Write>(&self, f: &mut fmt::Formatter<W>) -> fmt::Result {
        match self {
            Reason::FirstWord { shown, near: None } => {
                write!(f, "`{shown}` is no first word of a line")
            }
            Reason::FirstWord {
                shown,
                near: Some(form),
            } => write!(
                f,
                "`{shown}` is no first word of a line; did you mean: {form}"
            ),
            Reason::LongFirstWord(shown) => write!(
                f,
                "no first word of a line begins with `{shown}`"
            ),
            Reason::TooFewWords(shown) => write!(f, "too few words: {shown}"),
            Reason::TooManyWords(shown) => write!(f, "too many words: {shown}"),
            Reason::Wildcard(shown) => write!(
                f,
                "`{shown}` alone is no name, and a name must stand"
            ),
            Reason::StandsAlone { word, what } => write!(f, "`{word}` stands alone, for {what}"),
            Reason::BadByte { byte, what } => write!(
                f,
                "the byte {byte} may not stand here in {what}"
            ),
            Reason::TooLong { what, most } => write!(f, "{what} has at most {most} bytes"),
            _ => Ok(()),
        }
    }
}
