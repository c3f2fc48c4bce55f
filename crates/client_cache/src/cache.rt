//! What a client holds of its guilds, dispatch after dispatch.

ghost use Rattle.std.specs.Prelude.{◌≡◌, ℕ, [], None, OnOk, OnErr};
ghost use Rattle.std.specs.Option.{option_copied};
ghost use Rattle.collections.specs.ById.{IsById};
ghost use Rattle.guild_model.specs.Record.{own_id};
ghost use Rattle.dispatch_types.specs.declared.dispatch.Dispatch.TheVariants.{Ready as ReadyDispatch};
ghost use Rattle.dispatch_types.specs.GuildOf.{guild_of};
ghost use Rattle.dispatch_types.specs.Fold.{changed, folded};
ghost use Rattle.client_cache.specs.Sent.{ready_of};
ghost use Rattle.client_cache.specs.Cached.{held_of, AreViewed};

use crate::fold::Fold;
use crate::guilds::Guilds;
use crate::purge::leaves_over;
use dispatch_types::{Dispatch, GuildView, Ready};
use intent_set::Intents;
use snowflake_id::Snowflake;
use std::alloc::{AllocError, Global};
use std::marker::Model;

/// What a client holds of its guilds, by the dispatches that it was sent (Gateway Events, Receive
/// Events).
pub struct Cache {
    fold: Fold,
    guilds: Guilds,
}

impl Drop for Cache {
    fn drop(self) {
        let Cache { fold: _, guilds } = self;
        drop(guilds);
    }
}

impl Model for Cache {
    ghost use Rattle.client_cache.specs.Cached.{Cached};

    ghost Value = { Cached };

    ghost view = { λ c. record { intents = c.fold.intents; bot = c.fold.bot; guilds = c.guilds } };
}

// What READY says, if the dispatch is READY.
fn ready_of(dispatch: &Dispatch) -> Option<&Ready>
    ensures { option_copied result ≡ ready_of dispatch.now }
{
    match dispatch {
        Dispatch::Ready(ready) => Some(ready),
        _ => None,
    }
}

impl Cache {
    /// What a client that asks for these intents holds before it is sent anything.
    pub fn new(alloc: Global, intents: Intents) -> Cache
        ensures { result ≡ record { intents = intents; bot = 0; guilds = [] } }
    {
        Cache {
            fold: Fold {
                alloc,
                intents,
                bot: Snowflake(0),
            },
            guilds: Guilds::new(alloc),
        }
    }

    /// The view of a guild; `None` exactly if the client holds none.
    pub fn view(&self, guild: Snowflake) -> Option<&GuildView>
        ensures { option_copied result ≡ (held_of self.now guild).view }
    {
        self.guilds.view(guild)
    }

    /// The users that the client was told of in a guild, ascending.
    pub fn known(&self, guild: Snowflake) -> &[Snowflake]
        ensures { result.now ≡ (held_of self.now guild).known }
    {
        self.guilds.known(guild)
    }

    /// The guilds that have a view, ascending. `Guilds` keeps this list for this call alone.
    pub fn guilds(&self) -> &[Snowflake]
        ensures ascending { IsById own_id result.now }
        ensures exact { AreViewed result.now self.now.guilds }
    {
        self.guilds.viewed()
    }

    /// Folds the next dispatch: changes what is held of its guild, and then, after all but
    /// THREAD_UPDATE, drops each thread that the bot does not see (Gateway Events, Receive Events).
    /// An `Err` changes nothing.
    pub fn fold(&mut self, dispatch: Dispatch) -> Result<(), AllocError>
        ensures ok { OnOk result ((g : ℕ) → held_of self.new g
            ≡ folded self.old.intents g (held_of self.old g) dispatch) }
        ensures intents { self.new.intents ≡ self.old.intents }
        ensures err { OnErr result (self.new ≡ self.old) }
    {
        if leaves_over(&dispatch) {
            return self.change(dispatch);
        }
        self.change(dispatch)?;
        self.guilds.purge();
        Ok(())
    }

    // Changes what is held of the dispatch's guild; READY changes what is held of every guild.
    fn change(&mut self, dispatch: Dispatch) -> Result<(), AllocError>
        ensures ok { OnOk result ((g : ℕ) → held_of self.new g
            ≡ changed self.old.intents g (held_of self.old g) dispatch) }
        ensures intents { self.new.intents ≡ self.old.intents }
        ensures err { OnErr result (self.new ≡ self.old) }
    {
        match dispatch.guild() {
            Some(guild) => self.guilds.change(&self.fold, guild, dispatch),
            None => {
                let begun = self.begin_by(&dispatch);
                drop(dispatch);
                begun
            }
        }
    }

    // A dispatch of no guild: READY, or RESUMED, which changes nothing.
    fn begin_by(&mut self, dispatch: &Dispatch) -> Result<(), AllocError>
        requires { guild_of dispatch.now ≡ None }
        ensures ok { OnOk result ((g : ℕ) → held_of self.new g
            ≡ changed self.old.intents g (held_of self.old g) dispatch.now) }
        ensures intents { self.new.intents ≡ self.old.intents }
        ensures err { OnErr result (self.new ≡ self.old) }
    {
        match ready_of(dispatch) {
            Some(ready) => self.begin(ready),
            None => Ok(()),
        }
    }

    // READY: holds the guilds that it names, each unavailable so far, and no other.
    fn begin(&mut self, ready: &Ready) -> Result<(), AllocError>
        ensures ok { OnOk result ((g : ℕ) → held_of self.new g
            ≡ changed self.old.intents g (held_of self.old g) (ReadyDispatch ready.now)) }
        ensures intents { self.new.intents ≡ self.old.intents }
        ensures err { OnErr result (self.new ≡ self.old) }
    {
        self.guilds.begin(&self.fold, ready.guilds.as_slice())?;
        self.fold.bot = ready.user.id;
        Ok(())
    }
}
