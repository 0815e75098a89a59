ghost use Rattle.std.specs.Prelude.{◌≡◌};
ghost use Rattle.script_words.specs.Verbs.{verb_text, verb_at};

/// What the first word of a line says, in the order in which words are compared: the most frequent first.
#[derive(Clone, Copy, Debug)]
pub enum Verb {
    Set,
    Check,
    Unset,
    Bucket,
    Drop,
    Erase,
    List,
    From,
    Layout,
    User,
    NoUser,
    Install,
    Hybrid,
    Convert,
    Remove,
    Access,
    Level,
    Levels,
    Audit,
    Share,
    Unshare,
    Shares,
    Status,
    Stop,
}

/// All of them, in that order.
pub const VERBS: [Verb; 24] = [
    Verb::Set,
    Verb::Check,
    Verb::Unset,
    Verb::Bucket,
    Verb::Drop,
    Verb::Erase,
    Verb::List,
    Verb::From,
    Verb::Layout,
    Verb::User,
    Verb::NoUser,
    Verb::Install,
    Verb::Hybrid,
    Verb::Convert,
    Verb::Remove,
    Verb::Access,
    Verb::Level,
    Verb::Levels,
    Verb::Audit,
    Verb::Share,
    Verb::Unshare,
    Verb::Shares,
    Verb::Status,
    Verb::Stop,
];

impl Verb {
    /// The word.
    pub fn text(self) -> &'static [u8]
        ensures { result.now ≡ verb_text self }
    {
        match self {
            Verb::Set => b"set",
            Verb::Check => b"check",
            Verb::Unset => b"unset",
            Verb::Bucket => b"bucket",
            Verb::Drop => b"drop",
            Verb::Erase => b"erase",
            Verb::List => b"list",
            Verb::From => b"from",
            Verb::Layout => b"layout",
            Verb::User => b"user",
            Verb::NoUser => b"nouser",
            Verb::Install => b"install",
            Verb::Hybrid => b"hybrid",
            Verb::Convert => b"convert",
            Verb::Remove => b"remove",
            Verb::Access => b"access",
            Verb::Level => b"level",
            Verb::Levels => b"levels",
            Verb::Audit => b"audit",
            Verb::Share => b"share",
            Verb::Unshare => b"unshare",
            Verb::Shares => b"shares",
            Verb::Status => b"status",
            Verb::Stop => b"stop",
        }
    }

    /// What a word says as the first of a line, `None` for every other word.
    #[tactic(auto, unfolding(crate::specs::Verbs::verb_at))]
    pub fn of_word(word: &[u8]) -> Option<Verb>
        ensures { result ≡ verb_at word.now }
    {
        VERBS.iter().copied().find(|verb| word == verb.text())
    }
}
