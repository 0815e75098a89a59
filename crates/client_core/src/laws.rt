//! What holds over runs of calls. These functions do nothing; their clauses are the laws.

ghost use Rattle.std.specs.Prelude.{List};
ghost use Rattle.client_core.specs.Client.{Client};
ghost use Rattle.client_core.specs.ClientCalls.{Call, Ran, Does, Means, answer_of};
ghost use Rattle.client_core.specs.Admin.{Admin};
ghost use Rattle.client_core.specs.AdminCalls.{Call as AdminCall, Ran as AdminRan, Does as AdminDoes};
ghost use Rattle.client_core.specs.AdminCalls as admins;
ghost use Rattle.cynara_keys.specs.declared.results.Kind as kind_type;
ghost use Rattle.client_core.specs.Agent.{Agent};
ghost use Rattle.client_core.specs.AgentCalls.{Call as AgentCall, Ran as AgentRan, Does as AgentDoes};
ghost use Rattle.client_core.specs.AgentCalls as agents;

use wire_messages::pieces_do_not_matter;

/// What a client's answers mean, whatever calls were made before, each doing what its contract says. A kept verdict
/// comes only where the caller just said that the connection is up; the service gave it on this very connection, to
/// this question in this session, it is no agent's, and it is no older than what the client was told of. A reply comes
/// only of bytes that are one frame and no more, with the sequence number of the question's frame, and no older. And
/// what is to be sent is the frame of the question that was asked last.
pub fn what_an_answer_means()
    ensures { (calls : List Call) (call : Call) (before after : Client) → Ran calls before → Does call before after
        → Means (answer_of call) call calls before after }
{}

/// What an administrator's answers mean, whatever calls were made before. What is to be sent is the one frame of the
/// message that was given last, and by bytes only where the service hears it. A row or a last reply comes only of bytes
/// that are the frames of all replies since then and no more: rows, where the message asks for them, and this one, each
/// with the number of that frame.
pub fn what_an_administrators_answer_means()
    ensures { (calls : List AdminCall) (call : AdminCall) (before after : Admin) → AdminRan calls before
        → AdminDoes call before after → admins.Means (admins.answer_of call) call calls before after }
{
    pieces_do_not_matter();
}

/// What an agent sends, whatever calls were made before: behind a dial its registration; and else the answer that is
/// given, to the number of the question that was asked last on this connection, and that was neither answered nor
/// withdrawn since.
pub fn what_an_agent_sends()
    ensures { (kind : kind_type.Kind) (calls : List AgentCall) (call : AgentCall) (before after : Agent)
        → AgentRan kind calls before → AgentDoes call before after → agents.Means kind call calls after }
{}
