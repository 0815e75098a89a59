// An index of a state's policies, with room to ask it.
ghost use Rattle.std.specs.Prelude.{◌≡◌, ◌++◌, IfOk, OnOk, OnErr};
ghost use Rattle.bucket_eval.specs.Root.{root_outcome};
ghost use Rattle.script_replies.specs.Reply.{verdict_text};

use crate::questions::print_verdict;
use bucket_eval::{Index, Scratch};
use bucket_store::Database;
use cynara_keys::BorrowedQuestion;
use desk_ports::Bytes;
use std::alloc::{AllocError, Global};
use std::marker::Model;

/// Answers the checks of one database. It stands for that database.
#[derive(Drop)]
pub struct CheckIndex {
    index: Index,
    scratch: Scratch,
}

impl Model for CheckIndex {
    ghost use Rattle.bucket_store.specs.Database.{Database as Content};

    ghost Value = { Content };

    ghost view = { λ indexed. indexed.index };
}

impl CheckIndex {
    /// The index of these policies. Fails only for want of memory.
    pub fn build(alloc: Global, database: &Database) -> Result<CheckIndex, AllocError>
        ensures { IfOk result (λ indexed. indexed ≡ database.now) }
    {
        let index = Index::build(alloc, database)?;
        let scratch = Scratch::new(alloc)?;
        Ok(CheckIndex { index, scratch })
    }

    /// Prints the verdict of the root bucket on the question.
    pub fn print_check(
        &mut self,
        commit: u64,
        question: &BorrowedQuestion<'_>,
        out: &mut Bytes,
    ) -> Result<(), AllocError>
        ensures ok { OnOk result (out.new ≡ out.old ++ verdict_text commit (root_outcome self.old question.now)) }
        ensures err { OnErr result (out.new ≡ out.old) }
        ensures same { self.new ≡ self.old }
    {
        let answer = self.index.decide(&mut self.scratch, question);
        print_verdict(commit, &answer, out)
    }
}
