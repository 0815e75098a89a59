ghost use Rattle.desk_world.specs.Growth.{EachGrows};
ghost use Rattle.desk_world.specs.Headline.{Freshness};
ghost use Rattle.desk_world.specs.Older.{NeverOlder};
ghost use Rattle.desk_world.specs.Stops.{Recovery};
ghost use Rattle.desk_world.specs.Unanswered.{Unanswered};

/// The promise of this crate, for every list of events: over every interleaving of checks, commits, hang-ups and stops
/// each verdict, cached or not, is the bucket evaluation of one committed state no older than any commit acknowledged
/// before its question was asked, or the agent's reply to that very question. Calling it does nothing.
pub fn freshness()
    ensures { Freshness }
{}

/// The other half of it: after a stop at any moment, also while a command is being stored, the policy state that is
/// found, with its policies and Smack rules, is that of the last acknowledged commit or of a commit then under way.
/// Calling it does nothing.
pub fn recovery()
    ensures { Recovery }
{}

/// A reply to an ask is no older than what its client was told by then, where the client was told nothing while the
/// ask was open. Calling it does nothing.
pub fn never_older()
    ensures { NeverOlder }
{}

/// No event takes anything back: histories, asks and replies only grow, numbers do not fall, a closed link stays
/// closed. That holds from every world whose numbers are in order and whose states are a chain. Calling it does
/// nothing.
pub fn each_grows()
    ensures { EachGrows }
{}

/// A question that was withdrawn has no reply on the connection that it was asked on, whatever happens afterwards, and
/// no answer of an agent is to it. Calling it does nothing.
pub fn withdrawn_is_unanswered()
    ensures { Unanswered }
{}
