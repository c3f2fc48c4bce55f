//! The law of a run's logs, as a function whose contract is the statement.

ghost use Rattle.std.specs.Prelude.{◌≡◌, ◌<◌, ℕ, List, Some, slice_get, length, map, All};
ghost use Rattle.edit_apply.specs.declared.Edit.{Edit as AnEdit};
ghost use Rattle.edit_post.specs.Merge.{Merge};
ghost use Rattle.edit_post.specs.Post.{PostId, Sender, Taker, ended_lists};
ghost use Rattle.guild_hub.specs.Writes.{Publishing};
ghost use Rattle.guild_actor.specs.Acts.{edits_of, sealed_log};
ghost use Rattle.run_ends.specs.Senders.{HaveSent, AreTakenWhole};
ghost use Rattle.run_ends.specs.Logs.{IsMergedLog, IsOfActor};

/// If all that each sender sent was taken, the sealed log of each guild of an actor is one order of what all
/// senders sent for that guild.
pub fn logs_are_merged()
    ensures { (posts : List PostId) (guilds : List ℕ) (senders : List (List (ℕ × AnEdit))) (passes : List (List Sender)) (takers : List Taker) (taker : Taker) (actor : ℕ) (writers : List (ℕ × Publishing))
        → HaveSent posts guilds 0 senders passes → All (AreTakenWhole takers) passes
        → slice_get takers actor ≡ Some taker → actor < length posts → taker.senders ≡ length senders
        → ((guild : ℕ) → Merge (map (edits_of guild) (ended_lists taker)) (edits_of guild taker.taken))
        → All (λ (w : ℕ × Publishing). IsOfActor guilds (length posts) actor w.0) writers
        → All (IsMergedLog senders) (map (sealed_log taker.taken) writers) }
{}
