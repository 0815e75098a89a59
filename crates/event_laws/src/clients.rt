// What a client that keeps its answers does, as events. These functions do nothing; their clauses are the laws.
ghost use Rattle.std.specs.Prelude.{◌≡◌, ◌≤◌, ℕ, max, Some, true, false, Result, Ok, slice_get};
ghost use Rattle.bucket_eval.specs.declared.answers.Verdict as verdict_of;
ghost use Rattle.answer_cache.specs.Cache as cache_of;
ghost use Rattle.answer_cache.specs.Cache.{empty_cache};
ghost use Rattle.cynara_client.specs.State.{State};
ghost use Rattle.cynara_client.specs.Checking.{Hits};
ghost use Rattle.cynara_client.specs.Looking.{FindsDown};
ghost use Rattle.cynara_client.specs.declared.refusals.Checked as checked_of;
ghost use Rattle.cynara_client.specs.declared.refusals.ClientRefusal as refusal_of;
ghost use Rattle.desk_world.specs.Client.{unnamed};
ghost use Rattle.desk_world.specs.World.{World, client_of};
ghost use Rattle.desk_world.specs.Clients.{given};
ghost use Rattle.desk_world.specs.declared.events.Event as event;
ghost use Rattle.desk_world.specs.declared.links.Link as connection;
ghost use Rattle.desk_world.specs.declared.links.Transit as transit_of;
ghost use Rattle.desk_world.specs.declared.replies.Reply as reply_of;
ghost use Rattle.event_laws.specs.Happens.{Happens};
ghost use Rattle.event_laws.specs.Caching.{CacheStands, IsAsking, Says, KeepsBehind};

use link_ports::Dial;

/// A client that was made stands for one that no event has named.
pub fn a_new_client_stands()
    ensures { (world : World) (client most : ℕ)
        → client_of world client ≡ unnamed → CacheStands (empty_cache most) (client_of world client) }
{}

/// A check that `Client` answers by an entry is the event `Hit`, where the connection that said that it is up is up:
/// `Hits` of `Client::check`. The reply that is given is the verdict that the call answers.
pub fn a_hit_is_an_event<N: Dial>()
    ensures { (old new : State N N.Link) (key : cache_of.Asked) (world : World) (client ask link : ℕ)
        (found : connection.Link) (result : Result checked_of.Checked refusal_of.ClientRefusal)
        → CacheStands old.cache (client_of world client) → IsAsking world client ask key.question link found
        → found.up ≡ true → Hits N.Link.faults N.Link.marks N.Link.traffic N.Link.content key result old new
        → (verdict : verdict_of.Verdict) × (entry : ℕ) × (result ≡ Ok (checked_of.Checked.Judged verdict))
        × Happens (event.Event.Hit client entry) world (λ next.
        (next ≡ given client ask found.run (reply_of.Reply.Judged verdict) world)
        × CacheStands new.cache (client_of next client)) }
{}

/// A client that finds its connection down is the event `Notice`, where that is closed: `FindsDown` of
/// `Client::check`. No entry is left.
pub fn a_closed_connection_is_noticed<N: Dial>()
    ensures { (old new : State N N.Link) (world : World) (client link : ℕ) (found : connection.Link)
        → CacheStands old.cache (client_of world client) → (client_of world client).link ≡ Some link
        → slice_get world.links link ≡ Some found → found.up ≡ false
        → FindsDown N.Link.faults N.Link.marks N.Link.traffic N.Link.content N.faults N.dials N.given_back old new
        → Happens (event.Event.Notice client) world (λ next. CacheStands new.cache (client_of next client)) }
{}

/// A reply that came over the connection of an open question is the event `Deliver`: what `Client::check` then keeps
/// (`IsKeptOf`) are verdicts that the client received over this connection. Behind a reply that says why there is no
/// answer it keeps what it kept.
pub fn a_received_reply_is_an_event()
    ensures { (old new : cache_of.Cache) (key : cache_of.Asked)
        (result : Result checked_of.Checked refusal_of.ClientRefusal) (world : World) (client ask link : ℕ)
        (found : connection.Link) (transit : transit_of.Transit)
        → CacheStands old (client_of world client) → IsAsking world client ask key.question link found
        → found.reply ≡ Some transit → transit.ask ≡ ask → Says transit.reply result → KeepsBehind key result old new
        → Happens (event.Event.Deliver client) world (λ next. CacheStands new (client_of next client)) }
{}

/// A client that is told of an acknowledged commit is the event `Tell`.
pub fn a_told_commit_is_an_event()
    ensures { (cache : cache_of.Cache) (world : World) (client commit : ℕ)
        → CacheStands cache (client_of world client) → commit ≤ world.acknowledged
        → Happens (event.Event.Tell client commit) world
        (λ next. CacheStands (record cache { told = max cache.told commit }) (client_of next client)) }
{}
