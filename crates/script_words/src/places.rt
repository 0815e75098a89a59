ghost use Rattle.std.specs.Prelude.{◌≡◌};
ghost use Rattle.script_words.specs.Verbs.{is_known_in};

use crate::verbs::Verb;

/// For whom a script is, which decides the lines that are known.
#[derive(Clone, Copy, Debug, PartialEq, Eq)]
pub enum Place {
    /// The program that has the policy state in its own folder: each line but `stop`.
    Local,
    /// A service, by its door for administrators: each line but `access` and `status`, and those of levels, audits and
    /// shares.
    Admin,
}

impl Place {
    /// Whether a line with this first word is known.
    pub fn knows(self, verb: Verb) -> bool
        ensures { result ≡ is_known_in self verb }
    {
        match self {
            Place::Local => !matches!(verb, Verb::Stop),
            Place::Admin => !matches!(
                verb,
                Verb::Access
                    | Verb::Level
                    | Verb::Levels
                    | Verb::Audit
                    | Verb::Share
                    | Verb::Unshare
                    | Verb::Shares
                    | Verb::Status
            ),
        }
    }
}
