//! Why a line was refused.

ghost use Rattle.std.specs.Prelude.{◌≡◌, Some};
ghost use Rattle.std.specs.Result.{result_ok};
ghost use Rattle.smack_rules.specs.Rule.{line_rule};
ghost use Rattle.line_script.specs.Block.{Block};
ghost use Rattle.line_script.specs.Spots.{spot_of};
ghost use Rattle.line_script.specs.Grammar.{any_length_step_at};
ghost use Rattle.line_reasons.specs.FirstFault.{Explains};
ghost use Rattle.line_reasons.specs.parts.Places.{Finds};

use crate::grounds::Ground;
use crate::places::longest_front;
use crate::reasons::Reason;
use crate::wording::{form_at, reason_at};
use line_script::Spot;
use std::alloc::{AllocError, Global};
use std::fmt;

/// The first fault of a line.
#[derive(Drop)]
pub struct LineFault {
    /// How many bytes of the line a known line can begin with: the fault is the byte behind them, or that the line
    /// ends.
    pub place: usize,
    pub reason: Reason,
    /// The form of the line, where it is one of a script whose first word is known and the reason is about another
    /// word.
    pub form: Option<&'static str>,
}

impl fmt::Display for LineFault {
    /// Writes `byte N: WORDS`, N counted from 1, and behind them the form of the line where there is one.
    fn fmt<W: fmt::Write>(&self, f: &mut fmt::Formatter<W>) -> fmt::Result {
        let number = self.place.saturating_add(1);
        write!(f, "byte {number}: {}", self.reason)?;
        match self.form {
            Some(form) => write!(f, "; the form is: {form}"),
            None => Ok(()),
        }
    }
}

/// Why a line of a script is outside the grammar, where it stands: the first fault. `None` exactly where it is within.
/// The limit on a line's length is left to who cuts the lines: a place is told as if a line may be longer. Fails only
/// for lack of memory, for the bytes that a reason shows.
pub fn script_fault(alloc: Global, spot: Spot, line: &[u8]) -> Result<Option<LineFault>, AllocError>
    ensures { (block : Block) → spot_of block ≡ Some spot → Explains (any_length_step_at block) line.now result }
{
    fault_at(alloc, Ground::of(spot), line)
}

/// Why a line of a text of Smack rules is none. `None` exactly where it is a rule, or blank.
pub fn rule_fault(alloc: Global, line: &[u8]) -> Result<Option<LineFault>, AllocError>
    ensures { Explains (λ line. result_ok (line_rule line)) line.now result }
{
    fault_at(alloc, Ground::Rules, line)
}

fn fault_at(alloc: Global, ground: Ground, line: &[u8]) -> Result<Option<LineFault>, AllocError>
    ensures { Finds ground line.now result }
{
    if ground.is_line(line) {
        return Ok(None);
    }
    let place = longest_front(ground, line);
    match reason_at(alloc, ground, line, place) {
        Ok(reason) => {
            let form = form_at(ground, line, &reason);
            Ok(Some(LineFault {
                place,
                reason,
                form,
            }))
        }
        Err(error) => Err(error),
    }
}
