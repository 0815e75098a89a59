use crate::agent_entries::AgentEntry;
use crate::clients::Slot;
use crate::links::{Asked, Link};
use crate::replies::Given;
use crate::states::State;

// The world as the code keeps it. The policy states are shared, and an event changes in place what it changes.
#[derive(Drop)]
pub struct Parts {
    pub first: State,
    pub later: Vec<State>,
    pub acknowledged: u64,
    pub candidate: Option<State>,
    pub published: u64,
    pub note: u64,
    pub run: u32,
    pub links: Vec<Link>,
    pub clients: Vec<Slot>,
    pub asks: Vec<Asked>,
    pub given: Vec<Given>,
    pub agents: Vec<u16>,
    pub entries: Vec<AgentEntry>,
}
