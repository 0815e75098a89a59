ghost use Rattle.std.specs.Prelude.{◌≡◌, IfOk};

use desk_state::Desk;
use std::alloc::{AllocError, Global};
use std::marker::Model;
use std::sync::Arc;

// A policy state that all worlds with it share.
#[derive(Drop)]
pub struct State {
    desk: Arc<Desk>,
}

impl Model for State {
    ghost use Rattle.desk_state.specs.DeskState.{DeskState};
    ghost use Rattle.std.specs.Arc.{arc_value};

    ghost Value = { DeskState };

    ghost view = { λ state. arc_value state.desk };
}

impl State {
    /// A committed state, to be shared.
    pub fn of(alloc: Global, desk: Desk) -> Result<State, AllocError>
        ensures { IfOk result (λ state. state ≡ desk) }
    {
        let desk = Arc::new(alloc, desk)?;
        Ok(State { desk })
    }

    /// The policy state.
    pub fn desk(&self) -> &Desk
        ensures { result.now ≡ self.now }
    {
        &self.desk
    }

    /// The same state for one more owner.
    pub fn share(&self) -> Result<State, AllocError>
        ensures { IfOk result (λ state. state ≡ self.now) }
    {
        let desk = Arc::try_clone(&self.desk)?;
        Ok(State { desk })
    }
}
