ghost use Rattle.std.specs.Prelude.{◌≡◌, None};
ghost use Rattle.wire_fields.specs.Operation.{number_of, operation_of};

/// Who hears: each side knows operations of its own.
#[derive(Clone, Copy, Debug, PartialEq, Eq)]
pub enum Heard {
    /// The service, at the door for clients.
    AtClient,
    /// The service, at the door for administrators.
    AtAdmin,
    /// The service, at the door for agents.
    AtAgent,
    /// Clients and administrators.
    Replies,
    /// Agents.
    AgentReplies,
}

/// What a message is about, one for each kind of message.
#[derive(Clone, Copy, Debug, PartialEq, Eq)]
pub enum Operation {
    Check,
    SimpleCheck,
    SetBucket,
    RemoveBucket,
    SetPolicies,
    Erase,
    Layout,
    SetTemplate,
    UserSet,
    UserRemove,
    Install,
    Uninstall,
    Listing,
    AdminCheck,
    Stop,
    InstallHybrid,
    Convert,
    ReadState,
    ReadService,
    Register,
    AgentAnswer,
    Judged,
    FromAgent,
    NotResolved,
    NoAgent,
    AgentGone,
    AgentFull,
    Done,
    Refused,
    ListRow,
    ListEnd,
    StoreFault,
    StoreDamaged,
    StateFile,
    StateEnd,
    AgentHere,
    ServiceEnd,
    Registered,
    KindTaken,
    AgentQuestion,
    UnknownNumber,
    AgentWithdrawn,
}

impl Operation {
    /// The operation of this number, if this side knows it.
    pub fn of(heard: Heard, number: u8) -> Option<Operation>
        ensures { result ≡ operation_of heard number }
    {
        match heard {
            Heard::AtClient => at_client(number),
            Heard::AtAdmin => at_admin(number),
            Heard::AtAgent => at_agent(number),
            Heard::Replies => reply(number),
            Heard::AgentReplies => agent_reply(number),
        }
    }

    /// The number of the operation in a frame.
    pub fn number(self) -> u8
        ensures { result ≡ number_of self }
    {
        match self {
            Operation::Check => 0x01,
            Operation::SimpleCheck => 0x02,
            Operation::SetBucket => 0x10,
            Operation::RemoveBucket => 0x11,
            Operation::SetPolicies => 0x12,
            Operation::Erase => 0x13,
            Operation::Layout => 0x14,
            Operation::SetTemplate => 0x15,
            Operation::UserSet => 0x16,
            Operation::UserRemove => 0x17,
            Operation::Install => 0x18,
            Operation::Uninstall => 0x19,
            Operation::Listing => 0x1A,
            Operation::AdminCheck => 0x1B,
            Operation::Stop => 0x1C,
            Operation::InstallHybrid => 0x1D,
            Operation::Convert => 0x1E,
            Operation::ReadState => 0x1F,
            Operation::ReadService => 0x30,
            Operation::Register => 0x20,
            Operation::AgentAnswer => 0x21,
            Operation::Judged => 0x81,
            Operation::FromAgent => 0x82,
            Operation::NotResolved => 0x83,
            Operation::NoAgent => 0x84,
            Operation::AgentGone => 0x85,
            Operation::AgentFull => 0x86,
            Operation::Done => 0x90,
            Operation::Refused => 0x91,
            Operation::ListRow => 0x92,
            Operation::ListEnd => 0x93,
            Operation::StoreFault => 0x95,
            Operation::StoreDamaged => 0x96,
            Operation::StateFile => 0x97,
            Operation::StateEnd => 0x98,
            Operation::AgentHere => 0x99,
            Operation::ServiceEnd => 0x9A,
            Operation::Registered => 0xA0,
            Operation::KindTaken => 0xA1,
            Operation::AgentQuestion => 0xA2,
            Operation::UnknownNumber => 0xA3,
            Operation::AgentWithdrawn => 0xA4,
        }
    }
}

fn at_client(number: u8) -> Option<Operation>
    ensures { result ≡ operation_of Heard.AtClient number }
{
    match number {
        0x01 => Some(Operation::Check),
        0x02 => Some(Operation::SimpleCheck),
        _ => None,
    }
}

fn at_admin(number: u8) -> Option<Operation>
    ensures { result ≡ operation_of Heard.AtAdmin number }
{
    match number {
        0x10 => Some(Operation::SetBucket),
        0x11 => Some(Operation::RemoveBucket),
        0x12 => Some(Operation::SetPolicies),
        0x13 => Some(Operation::Erase),
        0x14 => Some(Operation::Layout),
        0x15 => Some(Operation::SetTemplate),
        0x16 => Some(Operation::UserSet),
        0x17 => Some(Operation::UserRemove),
        0x18 => Some(Operation::Install),
        0x19 => Some(Operation::Uninstall),
        0x1A => Some(Operation::Listing),
        0x1B => Some(Operation::AdminCheck),
        0x1C => Some(Operation::Stop),
        0x1D => Some(Operation::InstallHybrid),
        0x1E => Some(Operation::Convert),
        0x1F => Some(Operation::ReadState),
        0x30 => Some(Operation::ReadService),
        _ => None,
    }
}

fn at_agent(number: u8) -> Option<Operation>
    ensures { result ≡ operation_of Heard.AtAgent number }
{
    match number {
        0x20 => Some(Operation::Register),
        0x21 => Some(Operation::AgentAnswer),
        _ => None,
    }
}

fn reply(number: u8) -> Option<Operation>
    ensures { result ≡ operation_of Heard.Replies number }
{
    match number {
        0x81 => Some(Operation::Judged),
        0x82 => Some(Operation::FromAgent),
        0x83 => Some(Operation::NotResolved),
        0x84 => Some(Operation::NoAgent),
        0x85 => Some(Operation::AgentGone),
        0x86 => Some(Operation::AgentFull),
        0x90 => Some(Operation::Done),
        0x91 => Some(Operation::Refused),
        0x92 => Some(Operation::ListRow),
        0x93 => Some(Operation::ListEnd),
        0x95 => Some(Operation::StoreFault),
        0x96 => Some(Operation::StoreDamaged),
        0x97 => Some(Operation::StateFile),
        0x98 => Some(Operation::StateEnd),
        0x99 => Some(Operation::AgentHere),
        0x9A => Some(Operation::ServiceEnd),
        _ => None,
    }
}

fn agent_reply(number: u8) -> Option<Operation>
    ensures { result ≡ operation_of Heard.AgentReplies number }
{
    match number {
        0xA0 => Some(Operation::Registered),
        0xA1 => Some(Operation::KindTaken),
        0xA2 => Some(Operation::AgentQuestion),
        0xA3 => Some(Operation::UnknownNumber),
        0xA4 => Some(Operation::AgentWithdrawn),
        _ => None,
    }
}
