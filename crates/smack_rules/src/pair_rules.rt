//! What the rules of a text give one pair, in one pass and without memory.

ghost use Rattle.std.specs.Prelude.{◌≡◌, ◌≤◌, length, IfOk, IfErr, IsOkAnd, Err};
ghost use Rattle.std.specs.Option.{option_to_list};
ghost use Rattle.smack_rules.specs.Effective.{effective, effective_from};
ghost use Rattle.smack_rules.specs.RuleText.{rules_of};
ghost use Rattle.smack_rules.specs.Limits.{most_text_bytes};

use crate::label::Label;
use crate::line_rule::LineRule;
use crate::modes::Modes;
use text_lines::split_line;

/// What the rules of a text, a rule a line as [`crate::Rule::read_line`] takes it, give one pair of labels. One pass
/// over the text, which takes no memory. Refused is the first line that is no rule, by its number from 1.
pub fn modes_in_text(text: &[u8], subject: &Label, object: &Label) -> Result<Modes, u32>
    requires { length text.now ≤ most_text_bytes }
    ensures modes { IfOk result
        (λ modes. IsOkAnd (rules_of text.now) (λ rules. modes ≡ effective rules subject.now object.now)) }
    ensures refused { IfErr result (λ number. rules_of text.now ≡ Err number) }
{
    let subject = subject.as_slice();
    let object = object.as_slice();
    let mut modes = Modes::NO_ACCESS;
    let mut rest = text;
    let mut number = 0u32;
    while let Some((line, after)) = split_line(rest) {
        number += 1;
        let Ok(rule) = LineRule::read(line) else {
            return Err(number);
        };
        modes = modes_behind(modes, &rule, subject, object);
        rest = after;
    }
    Ok(modes)
}

/// What a line makes of a pair's modes: where it is blank, nothing.
fn modes_behind(modes: Modes, rule: &Option<LineRule<'_>>, subject: &[u8], object: &[u8]) -> Modes
    ensures { result ≡ effective_from modes (option_to_list rule.now) subject.now object.now }
{
    match rule {
        Some(rule) => rule.modes_behind(modes, subject, object),
        None => modes,
    }
}
