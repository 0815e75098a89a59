// Decisions under the modes of a table, and further modes beside them.
ghost use Rattle.std.specs.Prelude.{◌≡◌, true, IsTrue};
ghost use Rattle.smack_rules.specs.Modes.{is_request, no_access, union};
ghost use Rattle.smack_rules.specs.Decision as word;
ghost use Rattle.smack_rules.specs.Table.{granted};

use smack_rules::{Decision, Label, Modes, RuleTable};

/// The decision under what the table grants, with more modes beside it, which no case before the last two is about:
/// where the table alone does not allow what is asked, it is asked for the rest.
pub(crate) fn decide_with(
    table: &RuleTable,
    more: Modes,
    subject: &Label,
    object: &Label,
    asked: Modes,
) -> Decision
    requires request { IsTrue (is_request asked) }
    requires hat { word.is_hat subject.now ≡ true → more ≡ no_access }
    requires floor { word.is_floor object.now ≡ true → more ≡ no_access }
    ensures { result ≡ word.decision subject.now object.now asked
        (union (granted table.now subject.now object.now) more) }
{
    let decision = table.decide(subject, object, asked);
    if decision.rule != 7 {
        return decision;
    }
    let missing = asked.without(with_lock(more));
    if missing.is_empty() {
        return Decision {
            allowed: true,
            rule: 6,
        };
    }
    table.decide(subject, object, missing)
}

// What modes grant: with `w` also `l`.
fn with_lock(modes: Modes) -> Modes
    ensures { result ≡ word.with_lock modes }
{
    Modes {
        lock: modes.lock || modes.write,
        ..modes
    }
}
