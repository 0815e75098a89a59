//! The forms of words.

ghost use Rattle.std.specs.Prelude.{◌≡◌};
ghost use Rattle.line_reasons.specs.parts.Forms.{may_lack, repeats, leaves_out};

/// What a word of a line must be. The names are those of docs/use/REFERENCE.md.
#[derive(Clone, Copy, Debug, PartialEq, Eq)]
pub(crate) enum Form {
    /// `.` or the name of a bucket.
    Bucket,
    /// `*` or a name.
    Field,
    Name,
    /// Any number of names, to the end of the line.
    Names,
    /// `#`, `*` or a name.
    FilterField,
    /// `deep` or `flat`.
    Depth,
    Result,
    Uid,
    UserType,
    /// `*` or the number of a user.
    Scope,
    /// `hybrid` or `plain`.
    PackageKind,
    /// `own`, which leaves out the word of the form that comes next, or `admin`.
    Setter,
    /// `allow`, `ask`, `deny` or `unset`.
    Level,
    Ident,
    /// `-` or the name of an author.
    Author,
    Label,
    /// Modes that may be asked for.
    Request,
    /// A label or a placeholder.
    TemplateLabel,
    Modes,
    /// Modes that may be absent.
    MoreModes,
}

impl Form {
    /// Whether a word of this form may be absent at the end of a line.
    pub(crate) fn may_lack(self) -> bool
        ensures { result ≡ may_lack self }
    {
        match self {
            Form::Names | Form::MoreModes => true,
            _ => false,
        }
    }

    /// Whether any number of words of this form may stand.
    pub(crate) fn repeats(self) -> bool
        ensures { result ≡ repeats self }
    {
        match self {
            Form::Names => true,
            _ => false,
        }
    }

    /// Whether behind this word of the form no word of the next form stands.
    pub(crate) fn leaves_out(self, word: &[u8]) -> bool
        ensures { result ≡ leaves_out self word.now }
    {
        match self {
            Form::Setter => word == b"own".as_slice(),
            _ => false,
        }
    }
}
