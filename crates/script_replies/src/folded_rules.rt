// The Smack rules of a policy state and of the open shares, folded when they are first asked for, and an index of its
// policies once many checks were.
ghost use Rattle.std.specs.Prelude.{◌≡◌, ◌++◌, true, None, IsTrue, IfOk, IfSome, OnOk, OnErr};
ghost use Rattle.bucket_eval.specs.Root.{root_outcome};
ghost use Rattle.smack_rules.specs.Modes.{is_request};
ghost use Rattle.smack_rules.specs.Effective.{effective};
ghost use Rattle.smack_rules.specs.Decision as word;
ghost use Rattle.smack_rules.specs.Grants.{GrantsAs};
ghost use Rattle.smack_rules.specs.declared.rule.Rule.{Rule};
ghost use Rattle.std.specs.Prelude.{List};
ghost use Rattle.private_sharing.specs.Rules.{rules};
ghost use Rattle.private_sharing.specs.declared.shares.Share.{Share};
ghost use Rattle.script_replies.specs.Folded.{unasked, AreFolded, IsIndexed};
ghost use Rattle.script_replies.specs.Reply.{decided, verdict_text};
ghost use Rattle.script_replies.specs.parts.Plain.{are_plain};

use crate::check_index::CheckIndex;
use crate::deciding::decide_with;
use crate::questions::print_from;
use cynara_keys::{BorrowedQuestion, BucketName};
use desk_ports::Bytes;
use desk_state::Desk;
use private_sharing::Shares;
use smack_rules::{Decision, Label, Modes, Rule, RuleTable, effective_of};
use std::alloc::{AllocError, Global};
use std::marker::Model;

/// How many checks of a policy state are answered from its buckets. To make an index costs as much as some of these.
const FEW_CHECKS: u32 = 64;

/// The table of the rules of all packages of a policy state, and the rules that the open shares give, once they were
/// asked for; and an index of its policies, once many checks were.
#[derive(Drop)]
pub struct FoldedRules {
    table: Option<RuleTable>,
    given: Option<Vec<Rule>>,
    index: Option<CheckIndex>,
    checks: u32,
}

impl Model for FoldedRules {
    ghost use Rattle.std.specs.Option.{option_map};
    ghost use Rattle.script_replies.specs.Folded.{Folded};

    ghost Value = { Folded };

    ghost view = { λ rules. record {
      table = rules.table;
      given = option_map (λ given. given.items) rules.given;
      indexed = rules.index;
    } };
}

impl FoldedRules {
    /// Not asked for yet. Takes no memory.
    pub fn unasked() -> FoldedRules
        ensures { result ≡ unasked }
    {
        FoldedRules {
            table: None,
            given: None,
            index: None,
            checks: 0,
        }
    }

    /// Forgets what the open shares give: they change.
    pub fn forget_given(&mut self)
        ensures { self.new ≡ record self.old { given = None } }
    {
        self.given = None;
    }

    /// Prints the verdict of the root bucket on a question at this state. Once many were asked, an index answers, where
    /// there is memory for one.
    pub fn print_check(
        &mut self,
        alloc: Global,
        desk: &Desk,
        question: &BorrowedQuestion<'_>,
        out: &mut Bytes,
    ) -> Result<(), AllocError>
        requires indexed { IsIndexed self.old desk.now }
        ensures ok { OnOk result (out.new ≡ out.old
            ++ verdict_text desk.now.commit (root_outcome desk.now.database question.now)) }
        ensures err { OnErr result (out.new ≡ out.old) }
        ensures same { self.new ≡ record self.old { indexed = self.new.indexed } }
        ensures indexed { IsIndexed self.new desk.now }
        ensures folded { (shares : List Share) → AreFolded self.old desk.now shares
            → AreFolded self.new desk.now shares }
    {
        self.count_check(alloc, desk);
        match &mut self.index {
            Some(index) => index.print_check(desk.commit(), question, out),
            None => {
                let root = BucketName::root(alloc);
                print_from(desk, &root, true, question, out)
            }
        }
    }

    // Makes an index of this state where many checks were asked of it. Without memory for one it is tried again after
    // as many.
    fn count_check(&mut self, alloc: Global, desk: &Desk)
        requires indexed { IsIndexed self.old desk.now }
        ensures same { self.new ≡ record self.old { indexed = self.new.indexed } }
        ensures indexed { IsIndexed self.new desk.now }
    {
        if self.index.is_some() {
            return;
        }
        if self.checks < FEW_CHECKS {
            self.checks += 1;
            return;
        }
        self.checks = 0;
        self.index = CheckIndex::build(alloc, desk.database()).ok();
    }

    /// The decision on a request under the rules of this state, with those of these shares behind them; where rules are
    /// folded, they are its own. Once all are folded, it costs a look into the table and one at each rule that the
    /// shares give.
    pub fn decide(
        &mut self,
        desk: &Desk,
        shares: &Shares,
        subject: &Label,
        object: &Label,
        asked: Modes,
    ) -> Result<Decision, AllocError>
        requires request { IsTrue (is_request asked) }
        requires folded { AreFolded self.old desk.now shares.now }
        ensures decision { IfOk result (λ decision. decision
            ≡ decided desk.now shares.now subject.now object.now asked) }
        ensures folded { AreFolded self.new desk.now shares.now }
    {
        let table = match self.table.take() {
            Some(table) => table,
            None => desk.rules()?,
        };
        let given = given_rules(self.given.take(), desk, shares)?;
        let decision = decide_behind(&table, &given, subject, object, asked);
        self.table = Some(table);
        self.given = Some(given);
        Ok(decision)
    }
}

// The rules that the shares give, which these are where there are some.
fn given_rules(
    given: Option<Vec<Rule>>,
    desk: &Desk,
    shares: &Shares,
) -> Result<Vec<Rule>, AllocError>
    requires { IfSome given (λ given. given.items ≡ rules desk.now.registry shares.now) }
    ensures { IfOk result (λ given. given.items ≡ rules desk.now.registry shares.now) }
{
    match given {
        Some(given) => Ok(given),
        None => shares.rules(desk.registry()),
    }
}

// The decision under the rules of a table, with these behind them. They take nothing away, so that they give modes
// more.
fn decide_behind(
    table: &RuleTable,
    given: &[Rule],
    subject: &Label,
    object: &Label,
    asked: Modes,
) -> Decision
    requires request { IsTrue (is_request asked) }
    requires plain { are_plain given.now ≡ true }
    ensures { (rules : List Rule) → GrantsAs table.now rules
        → result ≡ word.decision subject.now object.now asked (effective (rules ++ given.now) subject.now object.now) }
{
    let more = effective_of(given, subject, object);
    decide_with(table, more, subject, object, asked)
}
