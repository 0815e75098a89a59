// What is to be told of the lines of a script.
ghost use Rattle.std.specs.Prelude.{◌≡◌};

use crate::absent_names::{note_of_access, note_of_check};
use crate::large_audits::audit_words;
use crate::lost_links::note_lost_link;
use crate::refusal_notes::{BrokenRule, absent_bucket_words, note_broken_rule, note_words};
use cynara_keys::{BorrowedQuestion, BucketName};
use desk_ports::Sink;
use desk_state::{Desk, Refusal};
use line_script::Step;
use policy_levels::LevelRefusal;
use private_sharing::ShareRefusal;
use std::alloc::Global;
use std::marker::Model;

/// How many questions of a script are looked at, until one names what is not there.
const MOST_LOOKS: u8 = 64;

/// What is to be told of the lines of a script: the rule that the line in hand broke, and how many questions are still
/// looked at. Contracts see nothing of it.
#[derive(Drop)]
pub struct LineNotes {
    alloc: Global,
    broken: Option<BrokenRule>,
    looks: u8,
}

impl Model for LineNotes {
    ghost Value = { Unit {0} };

    ghost view = { λ notes. tt };
}

impl LineNotes {
    /// Before the first line of a script. Takes no memory.
    pub fn new(alloc: Global) -> LineNotes {
        LineNotes {
            alloc,
            broken: None,
            looks: MOST_LOOKS,
        }
    }

    /// Keeps the rule that the command of the line in hand broke.
    pub fn keep_refusal(&mut self, refusal: Refusal) {
        self.broken = Some(BrokenRule::OfCommand(refusal));
    }

    /// Keeps the rule that the level of the line in hand broke.
    pub fn keep_level_refusal(&mut self, refusal: LevelRefusal) {
        self.broken = Some(BrokenRule::OfLevel(refusal));
    }

    /// Keeps the rule that the share of the line in hand broke.
    pub fn keep_share_refusal(&mut self, refusal: ShareRefusal) {
        self.broken = Some(BrokenRule::OfShare(refusal));
    }

    /// Tells what is to be told of the line with this number, which asked for the step and was answered. The policy
    /// state is that behind the step.
    pub fn tell<K: Sink>(&mut self, number: u32, step: &Step<'_>, desk: &Desk, sink: &mut K)
        ensures taken { K.taken sink.new ≡ K.taken sink.old }
        ensures count { K.faults sink.new ≡ K.faults sink.old }
    {
        if let Some(broken) = self.broken.take() {
            note_broken_rule(self.alloc, number, &broken, desk, sink);
            return;
        }
        match step {
            Step::Command(command) => note_lost_link(self.alloc, number, command.get(), desk, sink),
            Step::List { bucket, .. } | Step::From { bucket, .. } => {
                self.tell_of_bucket(number, bucket, desk, sink)
            }
            Step::Audit { .. } => self.tell_of_audit(number, desk, sink),
            Step::Access {
                subject,
                object,
                ..
            } => {
                if self.looks > 0 {
                    let told = note_of_access(self.alloc, number, subject, object, desk, sink);
                    self.looked(told);
                }
            }
            _ => {}
        }
    }

    /// Tells which name of a question from the root bucket is not there, once in a script.
    #[inline]
    pub fn tell_of_check<K: Sink>(
        &mut self,
        number: u32,
        question: &BorrowedQuestion<'_>,
        desk: &Desk,
        sink: &mut K,
    )
        ensures taken { K.taken sink.new ≡ K.taken sink.old }
        ensures count { K.faults sink.new ≡ K.faults sink.old }
    {
        if self.looks > 0 {
            let told = note_of_check(self.alloc, number, question, desk, sink);
            self.looked(told);
        }
    }

    // One question more was looked at, and it was told of it or not.
    fn looked(&mut self, told: bool) {
        self.looks = if told {
            0
        } else {
            self.looks.saturating_sub(1)
        };
    }

    // A list, or a question to a bucket, is refused where the bucket is not there.
    fn tell_of_bucket<K: Sink>(
        &mut self,
        number: u32,
        bucket: &BucketName,
        desk: &Desk,
        sink: &mut K,
    )
        ensures taken { K.taken sink.new ≡ K.taken sink.old }
        ensures count { K.faults sink.new ≡ K.faults sink.old }
    {
        if desk.database().place(bucket).is_none() {
            note_words(
                self.alloc,
                number,
                absent_bucket_words(self.alloc, bucket, desk),
                sink,
            );
        }
    }

    // An audit is refused where there are too many pairs to ask about.
    fn tell_of_audit<K: Sink>(&mut self, number: u32, desk: &Desk, sink: &mut K)
        ensures taken { K.taken sink.new ≡ K.taken sink.old }
        ensures count { K.faults sink.new ≡ K.faults sink.old }
    {
        if let Ok(Some(words)) = audit_words(self.alloc, desk) {
            note_words(self.alloc, number, Ok(words), sink);
        }
    }
}
