// The answers to questions of a script, which change neither the policy state nor the open shares.
ghost use Rattle.std.specs.Prelude.{◌≡◌, ◌++◌, true, OnOk, OnErr};
ghost use Rattle.line_script.specs.Turn.{AsksRequest};
ghost use Rattle.line_script.specs.declared.steps.Step.TheVariants as step;
ghost use Rattle.script_replies.specs.Folded.{AreFolded};
ghost use Rattle.script_replies.specs.Reply.{reply};
ghost use Rattle.local_runs.specs.parts.Local.{is_question};

use crate::local_script::LocalScript;
use cynara_keys::BorrowedQuestion;
use desk_state::Desk;
use line_answers::{LineAnswer, print, print_decision};
use line_script::Step;
use script_replies::{print_audit, print_from, print_levels, print_list, print_shares};
use std::alloc::AllocError;

impl LocalScript {
    // Adds the verdict on a question from the root bucket to the answers that wait.
    pub(super) fn answer_check(
        &mut self,
        desk: &Desk,
        question: &BorrowedQuestion<'_>,
    ) -> Result<(), AllocError>
        requires folded { AreFolded self.old.rules desk.now self.old.shares }
        ensures answer { OnOk result (self.new.answers ≡
            self.old.answers ++ reply desk.now self.old.shares (step.Check question.now)) }
        ensures same { self.new ≡ record self.old { answers = self.new.answers; rules = self.new.rules } }
        ensures err { OnErr result (self.new.answers ≡ self.old.answers) }
        ensures folded { AreFolded self.new.rules desk.now self.new.shares }
    {
        self.rules
            .print_check(self.alloc, desk, question, &mut self.answers)
    }

    // Adds the answer to a question about the policy state to those that wait.
    pub(super) fn ask(&mut self, desk: &Desk, question: &Step<'_>) -> Result<(), AllocError>
        requires asked { AsksRequest question.now }
        requires question { is_question question.now ≡ true }
        requires folded { AreFolded self.old.rules desk.now self.old.shares }
        ensures answer { OnOk result (self.new.answers ≡ self.old.answers
            ++ reply desk.now self.old.shares question.now) }
        ensures err { OnErr result (self.new.answers ≡ self.old.answers) }
        ensures reader { self.new.reader ≡ self.old.reader }
        ensures shares { self.new.shares ≡ self.old.shares }
        ensures folded { AreFolded self.new.rules desk.now self.new.shares }
    {
        match question {
            Step::Nothing => Ok(()),
            Step::Command(_) | Step::Level(_) | Step::Share { .. } | Step::Unshare { .. } => {
                unreachable!()
            }
            Step::List { bucket, filter } => print_list(
                desk,
                bucket,
                filter.get(),
                &mut self.answers,
            ),
            Step::Check(question) => self.answer_check(desk, question),
            Step::From {
                bucket,
                deep,
                question,
            } => print_from(desk, bucket, *deep, question, &mut self.answers),
            Step::Access {
                subject,
                object,
                asked,
            } => {
                let decision = self
                    .rules
                    .decide(desk, &self.shares, subject, object, *asked)?;
                print_decision(&decision, &mut self.answers)
            }
            Step::Levels { uid } => print_levels(self.alloc, desk, *uid, &mut self.answers),
            Step::Audit { user } => print_audit(self.alloc, desk, user, &mut self.answers),
            Step::Shares => print_shares(desk, &self.shares, &mut self.answers),
            Step::Status => print(
                &LineAnswer::Status {
                    commit: desk.commit(),
                },
                &mut self.answers,
            ),
            Step::Stop => print(
                &LineAnswer::Accepted {
                    commit: desk.commit(),
                },
                &mut self.answers,
            ),
        }
    }
}

// Whether the step changes neither the policy state nor the open shares.
pub(super) fn is_question(step: &Step<'_>) -> bool
    ensures { result ≡ is_question step.now }
{
    match step {
        Step::Command(_) | Step::Level(_) | Step::Share { .. } | Step::Unshare { .. } => false,
        _ => true,
    }
}
