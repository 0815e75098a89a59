//! Rules, and the lines that spell them.

ghost use Rattle.std.specs.Prelude.{◌≡◌, IfOk};
ghost use Rattle.smack_rules.specs.declared.rule.LineRefusal.TheVariants.{Memory};
ghost use Rattle.smack_rules.specs.Rule.{line_rule, GivesLine};

use crate::label::Label;
use crate::line_rule::LineRule;
use crate::modes::Modes;
use std::alloc::{AllocError, Global};
use thiserror::Error;

/// A rule for a subject's access to an object. The two labels may be equal, by this project's profile.
#[derive(Debug, Drop)]
pub enum Rule {
    /// The pair has these modes from now on, whatever it had before.
    Set {
        subject: Label,
        object: Label,
        modes: Modes,
    },
    /// The pair gains `allow`, and then loses `deny`.
    Adjust {
        subject: Label,
        object: Label,
        allow: Modes,
        deny: Modes,
    },
}

/// Why a line is no rule.
#[derive(Clone, Copy, Debug, PartialEq, Eq, Error)]
pub enum LineRefusal {
    #[error("a rule has a subject, an object, and one or two words of the letters rwxatlb")]
    Form,
    #[error("out of memory")]
    Memory(AllocError),
}

impl From<AllocError> for LineRefusal {
    ghost from_gives = { λ error refusal. refusal ≡ Memory error };

    fn from(error: AllocError) -> LineRefusal {
        LineRefusal::Memory(error)
    }
}

impl Rule {
    /// Reads a line: two labels, and one mode word for `Set`, or two for `Adjust`. Words are parted by
    /// spaces or tabs, which may stand at the ends too. `Ok(None)` where the line has no word.
    /// Refuses a line of any other form, and then, for lack of memory, a line that is a rule.
    pub fn read_line(alloc: Global, line: &[u8]) -> Result<Option<Rule>, LineRefusal>
        ensures { GivesLine result (line_rule line.now) }
    {
        let Some(rule) = LineRule::read(line)? else {
            return Ok(None);
        };
        let rule = rule.to_rule(alloc)?;
        Ok(Some(rule))
    }

    /// An equal rule in memory of its own. Fails only for lack of memory.
    pub fn copy(&self) -> Result<Rule, AllocError>
        ensures { IfOk result (λ rule. rule ≡ self.now) }
    {
        match self {
            Rule::Set {
                subject,
                object,
                modes,
            } => Ok(Rule::Set {
                subject: subject.copy()?,
                object: object.copy()?,
                modes: *modes,
            }),
            Rule::Adjust {
                subject,
                object,
                allow,
                deny,
            } => Ok(Rule::Adjust {
                subject: subject.copy()?,
                object: object.copy()?,
                allow: *allow,
                deny: *deny,
            }),
        }
    }
}
