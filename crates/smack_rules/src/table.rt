//! Tables of rules.

ghost use Rattle.std.specs.Prelude.{◌≡◌, ◌+◌, ◌++◌, ◌^◌, ◌<◌, Option, List, ℕ};
ghost use Rattle.std.specs.Prelude.{length, map, IfOk, IfErr, OnOk, IsOkAnd, Result};
ghost use Rattle.std.specs.Option.{option_to_list};
ghost use Rattle.std.specs.List.Sorted.{IsStrictlySortedBy};
ghost use Rattle.text_lines.specs.Lines.{lines_of};
ghost use Rattle.smack_rules.specs.declared.rule.Rule.{Rule};
ghost use Rattle.smack_rules.specs.Rule.{line_rule};
ghost use Rattle.smack_rules.specs.RuleText.{with_line, rules_from, RefusesText};
ghost use Rattle.smack_rules.specs.Table.{granted};
ghost use Rattle.smack_rules.specs.parts.Order.{pair_cmp};
ghost use Rattle.smack_rules.specs.parts.Changes.{modes_after, pair_modes, pair_change, FollowsRules, ChangeAlike};
ghost use Rattle.smack_rules.specs.Modes.{no_access};
ghost use Rattle.smack_rules.specs.parts.Pairs.{pair_of};

use crate::changes::{Change, Changes, PairChange};
use crate::decision::{Decision, decide};
use crate::label::Label;
use crate::line_rule::LineRule;
use crate::modes::Modes;
use crate::pair_key::PairKey;
use crate::rule::Rule;
use std::alloc::{AllocError, Global};
use std::marker::Model;
use text_lines::split_line;
use thiserror::Error;

/// The most bytes of a rule text.
pub const MOST_TEXT_BYTES: usize = 16_777_216;

/// Why a rule text is not read.
#[derive(Clone, Copy, Debug, PartialEq, Eq, Error)]
pub enum LoadRefusal {
    /// The number, from 1, of the first line that is no rule.
    #[error("line {0} is no rule: two labels, and one or two words of the letters rwxatlb")]
    BadLine(u32),
    #[error("out of memory")]
    Memory(AllocError),
}

/// A pair of labels with its modes.
#[derive(Debug, Drop)]
pub struct PairModes {
    pub subject: Label,
    pub object: Label,
    pub modes: Modes,
}

/// What rules grant each subject and object.
#[derive(Debug, Drop)]
pub struct RuleTable {
    pairs: Vec<PairModes>,
}

impl Model for RuleTable {
    ghost use Rattle.std.specs.Prelude.{List, map};
    ghost use Rattle.std.specs.List.Sorted.{IsStrictlySortedBy};
    ghost use Rattle.smack_rules.specs.declared.table.PairModes.{PairModes};
    ghost use Rattle.smack_rules.specs.parts.Order.{pair_cmp};
    ghost use Rattle.smack_rules.specs.parts.Pairs.{pair_of};

    ghost Value = { List PairModes };

    ghost view = { λ table. table.pairs.items };

    ghost invariant = { λ table. IsStrictlySortedBy pair_cmp (map pair_of table.pairs.items) };
}

impl RuleTable {
    ghost use Rattle.std.specs.Prelude.{◌≡◌, ◌≤◌, Bool, IsTrue, IfOk, IfErr, length};
    ghost use Rattle.smack_rules.specs.Limits.{most_text_bytes};
    ghost use Rattle.smack_rules.specs.Modes.{is_request};
    ghost use Rattle.smack_rules.specs.Table.{granted};
    ghost use Rattle.smack_rules.specs.Decision.{decision};
    ghost use Rattle.smack_rules.specs.Grants.{GrantsAs, GrantsFrom, GrantsBehind};
    ghost use Rattle.smack_rules.specs.RuleText.{rules_of, LoadsAs, NamesFirstWrongLine};

    /// The table of a list of rules, the oldest first, made by sorting: with n rules it takes some n log n comparisons.
    /// Fails only for lack of memory.
    pub fn fold(alloc: Global, rules: &[Rule]) -> Result<RuleTable, AllocError>
        ensures { IfOk result (λ table. GrantsAs table rules.now) }
    {
        let mut changes = Changes::new(alloc);
        follow_rules(&mut changes, rules)?;
        table_of(alloc, changes)
    }

    /// The table of this table's rules and further rules behind them, the oldest first; this one stays. With n pairs
    /// and m rules it takes some n + m times log (n + m) comparisons. Fails only for lack of memory.
    pub fn with(&self, rules: &[Rule]) -> Result<RuleTable, AllocError>
        ensures from { IfOk result (λ table. GrantsFrom self.now table rules.now) }
        ensures behind { IfOk result (λ table. GrantsBehind self.now table rules.now) }
    {
        let alloc = *self.pairs.allocator();
        let mut changes = Changes::new(alloc);
        follow_pairs(&mut changes, self.pairs.as_slice())?;
        follow_rules(&mut changes, rules)?;
        let table = table_of(alloc, changes)?;
        Ok(table)
    }

    /// The table of the rules of a text: a rule a line, as [`Rule::read_line`] takes it. Refuses first a text with a
    /// line of another form, by the number, from 1, of its first such line, and then, for lack of memory, a text of
    /// rules. It costs as much as [`RuleTable::fold`].
    pub fn load(alloc: Global, text: &[u8]) -> Result<RuleTable, LoadRefusal>
        requires { length text.now ≤ most_text_bytes }
        ensures loaded { LoadsAs result (rules_of text.now) }
        ensures refused { IfErr result (λ refusal. NamesFirstWrongLine refusal text.now) }
    {
        let mut changes = Changes::new(alloc);
        let mut rest = text;
        let mut number = 0u32;
        while let Some((line, after)) = split_line(rest) {
            number += 1;
            follow_line(&mut changes, line, number, after)?;
            rest = after;
        }
        match table_of(alloc, changes) {
            Ok(table) => Ok(table),
            Err(error) => Err(LoadRefusal::Memory(error)),
        }
    }

    /// Decides a request, which has a mode and no `b`, in the order of the kernel's Smack document. Takes no memory,
    /// and in a table of n pairs some log n comparisons.
    pub fn decide(&self, subject: &Label, object: &Label, asked: Modes) -> Decision
        requires { IsTrue (is_request asked) }
        ensures decided { result ≡ decision subject.now object.now asked (granted self.now subject.now object.now) }
        // A `b` in a rule never changes a decision.
        ensures bring_up { (tried : Bool) → result ≡ decision subject.now object.now asked
            (record (granted self.now subject.now object.now) { bring_up = tried }) }
    {
        let granted = modes_at(self.pairs.as_slice(), subject, object);
        decide(subject, object, asked, granted)
    }
}

/// Gives each pair the modes that a table has for it.
fn follow_pairs<'a>(changes: &mut Changes<'a>, pairs: &'a [PairModes]) -> Result<(), AllocError>
    ensures { OnOk result
        (ChangeAlike changes.new.changes.items (changes.old.changes.items ++ map pair_change pairs.now)) }
{
    for pair in pairs {
        changes.follow(PairChange {
            key: pair.key(),
            change: Change::setting(pair.modes),
        })?;
    }
    Ok(())
}

/// Follows rules, the oldest first.
fn follow_rules<'a>(changes: &mut Changes<'a>, rules: &'a [Rule]) -> Result<(), AllocError>
    ensures { OnOk result (FollowsRules changes.old.changes.items changes.new.changes.items rules.now) }
{
    for rule in rules {
        changes.follow(PairChange::of(rule))?;
    }
    Ok(())
}

/// The table of changes.
fn table_of(alloc: Global, changes: Changes) -> Result<RuleTable, AllocError>
    ensures { IfOk result
        (λ table. (s o : List ℕ) → granted table s o ≡ modes_after changes.entry.changes.items s o no_access) }
{
    let joined = changes.into_joined()?;
    let pairs = pairs_of(alloc, joined.as_slice())?;
    Ok(RuleTable { pairs })
}

/// The pairs of changes of no access.
fn pairs_of(alloc: Global, changes: &[PairChange]) -> Result<Vec<PairModes>, AllocError>
    ensures { IfOk result (λ pairs. pairs.items ≡ map pair_modes changes.now) }
{
    let mut pairs = Vec::new(alloc);
    for change in changes {
        pairs.push(PairModes {
            subject: Label::of(alloc, change.key.subject())?,
            object: Label::of(alloc, change.key.object())?,
            modes: change.change.added,
        })?;
    }
    Ok(pairs)
}

/// Follows the rule of one more line, which has this number, before the lines that come after it.
fn follow_line<'a>(
    changes: &mut Changes<'a>,
    line: &'a [u8],
    number: u32,
    after: &[u8],
) -> Result<(), LoadRefusal>
    requires { number + length after.now < 2 ^ 32 }
    ensures followed { OnOk result (IsOkAnd (line_rule line.now)
        (λ rule. FollowsRules changes.old.changes.items changes.new.changes.items (option_to_list rule))) }
    ensures refused { IfErr result (λ refusal. RefusesText refusal
        (with_line number (line_rule line.now) (rules_from (number + 1) (lines_of after.now)))) }
{
    match LineRule::read(line) {
        Ok(None) => Ok(()),
        Ok(Some(rule)) => match changes.follow(rule.change()) {
            Ok(()) => Ok(()),
            Err(error) => Err(refusal_before(after, number, error)),
        },
        Err(_) => Err(LoadRefusal::BadLine(number)),
    }
}

/// The refusal of a text for whose lines up to this number there was not memory enough: the first of the lines after
/// them that is no rule, and else the lack of memory.
fn refusal_before(lines: &[u8], read: u32, error: AllocError) -> LoadRefusal
    requires { read + length lines.now < 2 ^ 32 }
    ensures { RefusesText result (rules_from (read + 1) (lines_of lines.now)) }
{
    let mut rest = lines;
    let mut number = read;
    while let Some((line, after)) = split_line(rest) {
        number += 1;
        let Ok(_rule) = LineRule::read(line) else {
            return LoadRefusal::BadLine(number);
        };
        rest = after;
    }
    LoadRefusal::Memory(error)
}

/// What a table has for a pair.
fn modes_at(pairs: &[PairModes], subject: &Label, object: &Label) -> Modes
    requires { IsStrictlySortedBy pair_cmp (map pair_of pairs.now) }
    ensures { result ≡ granted pairs.now subject.now object.now }
{
    let asked = PairKey::of(subject.as_slice(), object.as_slice());
    match pairs.binary_search_by(|pair| pair.key().compare(&asked)) {
        Ok(place) => pairs[place].modes,
        Err(_) => Modes::NO_ACCESS,
    }
}

impl PairModes {
    /// The pair, as tables are ordered by it.
    fn key(&self) -> PairKey<'_>
        ensures { result ≡ pair_of self.now }
    {
        PairKey::of(self.subject.as_slice(), self.object.as_slice())
    }
}
