//! What a client folds dispatches by.

ghost use Rattle.std.specs.Prelude.{◌≡◌};
ghost use Rattle.intent_set.specs.Intents.{guild_members};
ghost use Rattle.dispatch_types.specs.Projection.{told};
ghost use Rattle.dispatch_types.specs.Fold.{if_unavailable};

use dispatch_types::GuildView;
use intent_set::Intents;
use snowflake_id::Snowflake;
use std::alloc::Global;

/// What a client folds dispatches by: the intents that it asks for, and its bot.
#[derive(Clone, Copy)]
pub(crate) struct Fold {
    pub(crate) alloc: Global,
    pub(crate) intents: Intents,
    /// The bot of the last READY; the id 0 before the first.
    pub(crate) bot: Snowflake,
}

impl Fold {
    /// A number of members or of users in a thread, if GUILD_MEMBERS tells it.
    pub(crate) fn counted<N: Copy>(&self, count: N) -> Option<N>
        ensures { result ≡ told self.now.intents guild_members count }
    {
        if self.intents.has(Intents::GUILD_MEMBERS) {
            Some(count)
        } else {
            None
        }
    }

    /// The view of a guild in an outage; `None` for one that the bot has left (Gateway Events,
    /// Guild Delete).
    pub(crate) fn unavailable_view(&self, unavailable: bool) -> Option<GuildView>
        ensures { result ≡ if_unavailable self.now.intents unavailable }
    {
        if unavailable && self.intents.has(Intents::GUILDS) {
            Some(GuildView::Unavailable)
        } else {
            None
        }
    }
}
