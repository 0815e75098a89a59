// The two copies between which the publisher goes to and fro.
ghost use Rattle.std.specs.Prelude.{◌≡◌, ◌≤◌, Some, IfOk};
ghost use Rattle.std.specs.Arc.{arc_value};
ghost use Rattle.std.specs.Bool.{OnTrue};
ghost use Rattle.bucket_eval.specs.Lent.{outcome_lent};
ghost use Rattle.bucket_eval.specs.Root.{root_outcome};
ghost use Rattle.live_desk.specs.History.{GoesOn};
ghost use Rattle.live_desk.specs.Seat.{HasSeen};
ghost use Rattle.live_desk.specs.Shown.{IsShown};

use crate::verdicts::BorrowedVerdict;
use bucket_eval::{Index, Scratch};
use cynara_keys::BorrowedQuestion;
use desk_state::Desk;
use left_right::Absorb;
use state_list::{Front, Naming};
use std::alloc::{AllocError, Global};
use std::marker::Model;
use std::snapshot::Snapshot;
use std::sync::Arc;

/// A state as seats read it: its commit, and what answers its checks. The rest of the state is there for contracts
/// alone.
#[derive(Drop)]
pub struct DeskCopy {
    commit: u64,
    index: Index,
    state: Snapshot<Desk>,
}

impl Model for DeskCopy {
    ghost use Rattle.std.specs.Prelude.{◌≡◌};
    ghost use Rattle.desk_state.specs.DeskState.{DeskState};

    ghost Value = { DeskState };

    ghost view = { λ copy. copy.state.value };

    ghost invariant = { λ copy. (copy.commit ≡ copy.state.value.commit) × (copy.index ≡ copy.state.value.database) };
}

impl DeskCopy {
    /// What answers the checks of this state.
    pub(crate) fn of(alloc: Global, desk: &Desk) -> Result<DeskCopy, AllocError>
        ensures { IfOk result (λ copy. copy ≡ desk.now) }
    {
        let index = Index::build(alloc, desk.database())?;
        Ok(DeskCopy {
            commit: desk.commit(),
            index,
            state: Snapshot::of(desk),
        })
    }

    /// What answers the checks of the next state, of which most is as in this one. Takes over what stayed.
    pub(crate) fn next(&self, alloc: Global, desk: &Desk) -> Result<DeskCopy, AllocError>
        ensures { IfOk result (λ copy. copy ≡ desk.now) }
    {
        let index = self.index.build_next(alloc, desk.database())?;
        Ok(DeskCopy {
            commit: desk.commit(),
            index,
            state: Snapshot::of(desk),
        })
    }

    /// The commit of the state.
    pub fn commit(&self) -> u64
        ensures { result ≡ self.now.commit }
    {
        self.commit
    }

    /// What the state answers to the question.
    pub fn verdict(
        &self,
        scratch: &mut Scratch,
        question: &BorrowedQuestion<'_>,
    ) -> BorrowedVerdict<'_>
        ensures commit { result.commit ≡ self.now.commit }
        ensures answer { outcome_lent result.answer ≡ root_outcome self.now.database question.now }
    {
        BorrowedVerdict {
            commit: self.commit,
            answer: self.index.decide(scratch, question),
        }
    }

    /// The state itself, for contracts.
    pub(crate) fn state(&self) -> &Snapshot<Desk>
        ensures { result.now.value ≡ self.now }
    {
        &self.state
    }
}

/// A state as readers are shown it, with the published states of which it is the last.
#[derive(Drop)]
pub struct Shown<J: Naming> {
    copy: Arc<DeskCopy>,
    front: Front<Desk, J>,
}

impl<J: Naming> Model for Shown<J> {
    ghost use Rattle.std.specs.Arc.{arc_value};
    ghost use Rattle.live_desk.specs.Shown.{ShownState, IsShown};

    ghost Value = { ShownState };

    ghost view = { λ shown. record { states = shown.front; desk = arc_value shown.copy } };

    ghost invariant = { λ shown. IsShown shown.front (arc_value shown.copy) };
}

impl<J: Naming> Shown<J> {
    /// This state, which is the last of these.
    pub fn of(copy: Arc<DeskCopy>, front: Front<Desk, J>) -> Shown<J>
        requires { IsShown front (arc_value copy) }
        ensures { result ≡ record { states = front; desk = arc_value copy } }
    {
        Shown { copy, front }
    }

    // The same, shown once more.
    fn again(&self) -> Result<Shown<J>, AllocError>
        ensures { IfOk result (λ shown. shown ≡ self.now) }
    {
        let copy = Arc::try_clone(&self.copy)?;
        Ok(Shown {
            copy,
            front: self.front.again(),
        })
    }

    /// Takes notice of the states up to this one, unless its commit is below the note; whether it did.
    #[tactic(auto, using(crate::proofs::Looks::caught, crate::proofs::Looks::goes_on_all))]
    pub fn is_seen_by(&self, seen: &mut Front<Desk, J>, note: u64) -> bool
        ensures seen { GoesOn seen.old seen.new }
        ensures newest { OnTrue result (HasSeen note (Some self.now.desk) seen.new) }
    {
        if self.copy.commit() < note {
            return false;
        }
        seen.catch_up(&self.front)
    }

    /// The state.
    pub fn desk(&self) -> &DeskCopy
        ensures { result.now ≡ self.now.desk }
    {
        &self.copy
    }

    /// What the state answers to the question.
    pub fn verdict(
        &self,
        scratch: &mut Scratch,
        question: &BorrowedQuestion<'_>,
    ) -> BorrowedVerdict<'_>
        ensures commit { result.commit ≡ self.now.desk.commit }
        ensures answer { outcome_lent result.answer ≡ root_outcome self.now.desk.database question.now }
    {
        self.copy.verdict(scratch, question)
    }
}

/// One of the two copies. None until the first state is published.
#[derive(Drop)]
pub struct Published<J: Naming> {
    pub latest: Option<Shown<J>>,
}

impl<J: Naming> Absorb<Shown<J>> for Published<J> {
    type State = Option<Shown<J>>;

    ghost state = { λ copies. copies.latest };

    ghost applied = { λ _ next. Some next };

    fn absorb_first(
        &mut self,
        operation: &Shown<J>,
        _other: &Published<J>,
    ) -> Result<(), AllocError> {
        self.latest = Some(operation.again()?);
        Ok(())
    }
}
