ghost use Rattle.std.specs.Prelude.{◌≡◌};
ghost use Rattle.level_requests.specs.Level.{level_text, level_at};

/// What is set for an application and a privilege.
#[derive(Clone, Copy, Debug, PartialEq, Eq)]
pub enum Level {
    Allow,
    /// A person is asked, by the agent for it.
    Ask,
    Deny,
    /// Nothing is set, and what was set goes.
    Unset,
}

/// All of them.
pub const LEVELS: [Level; 4] = [Level::Allow, Level::Ask, Level::Deny, Level::Unset];

impl Level {
    /// The word.
    pub fn text(self) -> &'static [u8]
        ensures { result.now ≡ level_text self }
    {
        match self {
            Level::Allow => b"allow",
            Level::Ask => b"ask",
            Level::Deny => b"deny",
            Level::Unset => b"unset",
        }
    }

    /// The level of a word, `None` for every other word.
    #[tactic(auto, unfolding(crate::specs::Level::level_at))]
    pub fn of_word(word: &[u8]) -> Option<Level>
        ensures { result ≡ level_at word.now }
    {
        LEVELS.iter().copied().find(|level| word == level.text())
    }
}
