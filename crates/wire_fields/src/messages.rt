ghost use Rattle.std.specs.Prelude.{◌≡◌};
ghost use Rattle.wire_fields.specs.Message as words;
ghost use Rattle.wire_fields.specs.Operation.{number_of};

use crate::{Operation, PackedVerdict};
use app_registry::{Ident, Install, Scope, UserType};
use bucket_store::Changes;
use cynara_keys::{BucketName, Filter, Kind, Policy, PolicyResult, Question};
use desk_ports::{Bytes, FileName};
use desk_state::Refusal;
use rule_templates::Template;

/// What a client, an administrator or an agent says, and what they are answered.
#[derive(Debug, Drop)]
pub enum Message {
    /// A client asks whether the use of a privilege is granted; an agent may be asked.
    Check {
        question: Question,
    },
    /// A client asks the same, and no agent is asked.
    SimpleCheck {
        question: Question,
    },
    SetBucket {
        bucket: BucketName,
        fallback: PolicyResult,
    },
    RemoveBucket {
        bucket: BucketName,
    },
    SetPolicies {
        changes: Changes,
    },
    Erase {
        bucket: BucketName,
        filter: Filter,
    },
    Layout,
    SetTemplate {
        template: Template,
    },
    UserSet {
        uid: u32,
        kind: UserType,
    },
    UserRemove {
        uid: u32,
    },
    /// An application of a plain package is installed.
    Install {
        install: Install,
    },
    Uninstall {
        app: Ident,
        scope: Scope,
    },
    /// An administrator asks for the policies of a bucket that a filter admits.
    Listing {
        bucket: BucketName,
        filter: Filter,
    },
    /// An administrator asks what a bucket answers, with the buckets that it points to or by its own policies alone.
    AdminCheck {
        bucket: BucketName,
        recursive: bool,
        question: Question,
    },
    Stop,
    /// An application of a hybrid package is installed.
    InstallHybrid {
        install: Install,
    },
    /// A package becomes hybrid, or plain.
    Convert {
        package: Ident,
        hybrid: bool,
    },
    /// An administrator asks for the whole policy state.
    ReadState,
    /// An administrator asks which agents are there, and how many workers there are for clients.
    ReadService,
    /// An agent says what kind it answers.
    Register {
        kind: Kind,
    },
    /// An agent answers the question of a number.
    AgentAnswer {
        number: u32,
        allowed: bool,
    },
    /// The policies decide.
    Judged {
        verdict: PackedVerdict,
    },
    /// An agent decided.
    FromAgent {
        commit: u64,
        kind: Kind,
        number: u32,
        allowed: bool,
    },
    /// An agent would have to be asked.
    NotResolved {
        commit: u64,
        kind: Kind,
    },
    /// No agent of the kind is there.
    NoAgent {
        commit: u64,
        kind: Kind,
    },
    /// The agent left before it answered.
    AgentGone {
        commit: u64,
        number: u32,
    },
    /// No further question can be put to an agent.
    AgentFull {
        commit: u64,
        kind: Kind,
        most: u32,
    },
    /// The command is accepted, or the service stops.
    Done {
        commit: u64,
        erased: u32,
    },
    /// The command is refused by a rule.
    Refused {
        refusal: Refusal,
    },
    /// One policy that was asked for.
    ListRow {
        policy: Policy,
    },
    /// The end of the policies that were asked for, and how many there were.
    ListEnd {
        count: u32,
    },
    /// The disk failed.
    StoreFault,
    /// The line of the file is damaged, or the file as a whole where the line is 0.
    StoreDamaged {
        file: FileName,
        line: u32,
    },
    /// Bytes of a file of the policy state that was asked for, at most 65,536 of them. A file of more comes in several
    /// replies, one behind the other.
    StateFile {
        name: FileName,
        bytes: Bytes,
    },
    /// The end of the policy state that was asked for, and the commit that it is of.
    StateEnd {
        commit: u64,
    },
    /// An agent of the kind is there.
    AgentHere {
        kind: Kind,
    },
    /// The end of the agents that are there: how many workers for clients have begun, and how many of these serve a
    /// connection now.
    ServiceEnd {
        workers: u32,
        served: u32,
    },
    /// The agent is registered.
    Registered {
        kind: Kind,
    },
    /// Another agent of the kind is there.
    KindTaken {
        kind: Kind,
    },
    /// An agent is asked.
    AgentQuestion {
        number: u32,
        question: Question,
        result: PolicyResult,
    },
    /// No question of the number waits for an answer.
    UnknownNumber {
        number: u32,
    },
    /// The question of the number needs no answer any more: who asked it has left.
    AgentWithdrawn {
        number: u32,
    },
}

/// A message with its sequence number. A reply carries that of its question.
#[derive(Debug, Drop)]
pub struct Framed {
    pub sequence: u16,
    pub message: Message,
}

impl Message {
    /// The number of the message's operation in a frame.
    pub fn operation(&self) -> u8
        ensures { result ≡ number_of (words.operation self.now) }
    {
        operation(self).number()
    }

    /// The commit that a reply tells: of the policies that it was given under, or of the command that it accepts.
    /// `None` exactly for a message that tells none.
    pub fn commit(&self) -> Option<u64>
        ensures { result ≡ words.commit_of self.now }
    {
        match self {
            Message::Judged { verdict } => Some(verdict.commit()),
            Message::FromAgent { commit, .. } => Some(*commit),
            Message::NotResolved { commit, .. } => Some(*commit),
            Message::NoAgent { commit, .. } => Some(*commit),
            Message::AgentGone { commit, .. } => Some(*commit),
            Message::AgentFull { commit, .. } => Some(*commit),
            Message::Done { commit, .. } => Some(*commit),
            Message::StateEnd { commit } => Some(*commit),
            _ => None,
        }
    }
}

/// The operation of a message.
pub fn operation(message: &Message) -> Operation
    ensures { result ≡ words.operation message.now }
{
    match message {
        Message::Check { .. } => Operation::Check,
        Message::SimpleCheck { .. } => Operation::SimpleCheck,
        Message::SetBucket { .. } => Operation::SetBucket,
        Message::RemoveBucket { .. } => Operation::RemoveBucket,
        Message::SetPolicies { .. } => Operation::SetPolicies,
        Message::Erase { .. } => Operation::Erase,
        Message::Layout => Operation::Layout,
        Message::SetTemplate { .. } => Operation::SetTemplate,
        Message::UserSet { .. } => Operation::UserSet,
        Message::UserRemove { .. } => Operation::UserRemove,
        Message::Install { .. } => Operation::Install,
        Message::Uninstall { .. } => Operation::Uninstall,
        Message::Listing { .. } => Operation::Listing,
        Message::AdminCheck { .. } => Operation::AdminCheck,
        Message::Stop => Operation::Stop,
        Message::InstallHybrid { .. } => Operation::InstallHybrid,
        Message::Convert { .. } => Operation::Convert,
        Message::ReadState => Operation::ReadState,
        Message::ReadService => Operation::ReadService,
        Message::Register { .. } => Operation::Register,
        Message::AgentAnswer { .. } => Operation::AgentAnswer,
        Message::Judged { .. } => Operation::Judged,
        Message::FromAgent { .. } => Operation::FromAgent,
        Message::NotResolved { .. } => Operation::NotResolved,
        Message::NoAgent { .. } => Operation::NoAgent,
        Message::AgentGone { .. } => Operation::AgentGone,
        Message::AgentFull { .. } => Operation::AgentFull,
        Message::Done { .. } => Operation::Done,
        Message::Refused { .. } => Operation::Refused,
        Message::ListRow { .. } => Operation::ListRow,
        Message::ListEnd { .. } => Operation::ListEnd,
        Message::StoreFault => Operation::StoreFault,
        Message::StoreDamaged { .. } => Operation::StoreDamaged,
        Message::StateFile { .. } => Operation::StateFile,
        Message::StateEnd { .. } => Operation::StateEnd,
        Message::AgentHere { .. } => Operation::AgentHere,
        Message::ServiceEnd { .. } => Operation::ServiceEnd,
        Message::Registered { .. } => Operation::Registered,
        Message::KindTaken { .. } => Operation::KindTaken,
        Message::AgentQuestion { .. } => Operation::AgentQuestion,
        Message::UnknownNumber { .. } => Operation::UnknownNumber,
        Message::AgentWithdrawn { .. } => Operation::AgentWithdrawn,
    }
}
