ghost use Rattle.std.specs.Prelude.{◌≡◌};
ghost use Rattle.client_core.specs.Machine as does;

use crate::{AdminMachine, AgentMachine, ClientMachine, Step};

/// A machine of any of the three kinds, for whoever holds one and learns its kind at run time.
#[derive(Drop)]
pub enum Machine {
    Client(ClientMachine),
    Admin(AdminMachine),
    Agent(AgentMachine),
}

impl Machine {
    /// The service was dialled.
    pub fn dialled(&mut self) -> Step
        ensures { does.Dialled result self.old self.new }
    {
        match self {
            Machine::Client(client) => client.dialled(),
            Machine::Admin(admin) => admin.dialled(),
            Machine::Agent(agent) => agent.dialled(),
        }
    }

    /// The connection ended, or could not be made.
    pub fn down(&mut self) -> Step
        ensures { does.Falls result self.old self.new }
    {
        match self {
            Machine::Client(client) => client.down(),
            Machine::Admin(admin) => admin.down(),
            Machine::Agent(agent) => agent.down(),
        }
    }

    /// The caller gave the connection up.
    pub fn leave(&mut self)
        ensures { self.new ≡ does.left self.old }
    {
        match self {
            Machine::Client(client) => client.leave(),
            Machine::Admin(admin) => admin.leave(),
            Machine::Agent(agent) => agent.leave(),
        }
    }

    /// These bytes came.
    pub fn came(&mut self, piece: &[u8]) -> Step
        ensures { does.Comes piece.now result self.old self.new }
    {
        match self {
            Machine::Client(client) => client.came(piece),
            Machine::Admin(admin) => admin.came(piece),
            Machine::Agent(agent) => agent.came(piece),
        }
    }

    /// The frame that was to be sent last.
    pub fn frame(&self) -> &[u8]
        ensures { result.now ≡ does.frame_in self.now }
    {
        match self {
            Machine::Client(client) => client.frame(),
            Machine::Admin(admin) => admin.frame(),
            Machine::Agent(agent) => agent.frame(),
        }
    }

    /// How many bytes may come next, at most; 0 where none is waited for.
    pub fn wanted(&self) -> usize
        ensures { result ≡ does.wanted_in self.now }
    {
        match self {
            Machine::Client(client) => client.wanted(),
            Machine::Admin(admin) => admin.wanted(),
            Machine::Agent(agent) => agent.wanted(),
        }
    }
}
