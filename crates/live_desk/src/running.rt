// The rule over the copies asks nothing: what a reader knows of the published states stands in the copies themselves.
use crate::copies::Published;
use crossbeam_utils::rule::{Outcome, Protocol};
use state_list::Naming;

pub struct Running;

impl<J: Naming> Protocol<Published<J>, u64> for Running {
    ghost holds = { λ copies views. Unit {0} };

    ghost first = { 0 };
}

/// A reader takes a copy, or the publisher shows one.
pub struct Steps;

impl<J: Naming> Outcome<Published<J>, u64> for Steps {
    ghost then = { λ old before after new. Unit {0} };
}
