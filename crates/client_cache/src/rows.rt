//! What a dispatch of a guild makes of what is held of that guild.

ghost use Rattle.std.specs.Prelude.{◌≡◌, unwrap_or, IfOk, OnOk, OnErr};
ghost use Rattle.dispatch_types.specs.Fold.{known_after, open_after, view_after};
ghost use Rattle.client_cache.specs.Cached.{entry_after};

use crate::channels::{drop_channel, set_channel};
use crate::fold::Fold;
use crate::guild::{created_view, update_guild};
use crate::held::HeldGuild;
use crate::known::{created_users, with_user, with_users, without_user};
use crate::members::{add_member, remove_member, set_members, update_member};
use crate::presences::set_presence;
use crate::roles::{drop_role, set_role};
use crate::thread_list::sync_threads;
use crate::thread_members::update_members;
use crate::threads::{create_thread, drop_thread, update_thread};
use crate::voices::set_voice;
use collections::ById;
use dispatch_types::{Dispatch, GuildView, OpenView};
use snowflake_id::Snowflake;
use std::alloc::{AllocError, Global};
use std::mem::replace;

// The known users, if a dispatch changes them.
fn known_after(
    alloc: Global,
    known: &ById<Snowflake>,
    dispatch: &Dispatch,
) -> Result<Option<ById<Snowflake>>, AllocError>
    ensures { IfOk result (λ after.
        unwrap_or after known.now ≡ known_after dispatch.now known.now) }
{
    match dispatch {
        Dispatch::GuildCreate(create) => created_users(alloc, create.members.as_slice()),
        Dispatch::GuildDelete(_) => Ok(Some(ById::new(alloc))),
        Dispatch::GuildMemberAdd(add) => with_user(alloc, known, add.member.user.id),
        Dispatch::GuildMemberUpdate(update) => with_user(alloc, known, update.member.user.id),
        Dispatch::GuildMemberRemove(remove) => without_user(alloc, known, remove.user.id),
        Dispatch::GuildMembersChunk(chunk) => with_users(alloc, known, chunk.members.as_slice()),
        Dispatch::Ready(_)
        | Dispatch::Resumed
        | Dispatch::GuildUpdate(_)
        | Dispatch::GuildRoleCreate(_)
        | Dispatch::GuildRoleUpdate(_)
        | Dispatch::GuildRoleDelete(_)
        | Dispatch::ChannelCreate(_)
        | Dispatch::ChannelUpdate(_)
        | Dispatch::ChannelDelete(_)
        | Dispatch::ThreadCreate(_)
        | Dispatch::ThreadUpdate(_)
        | Dispatch::ThreadDelete(_)
        | Dispatch::ThreadListSync(_)
        | Dispatch::ThreadMembersUpdate(_)
        | Dispatch::VoiceStateUpdate(_)
        | Dispatch::PresenceUpdate(_)
        | Dispatch::MessageCreate(_)
        | Dispatch::MessageUpdate(_)
        | Dispatch::MessageDelete(_)
        | Dispatch::MessageReactionAdd(_)
        | Dispatch::MessageReactionRemove(_)
        | Dispatch::TypingStart(_) => Ok(None),
    }
}

impl Fold {
    // Folds a dispatch of its guild into an open view.
    fn change_open(&self, view: &mut OpenView, dispatch: Dispatch) -> Result<(), AllocError>
        ensures ok { OnOk result (view.new
            ≡ open_after self.now.intents self.now.bot dispatch view.old) }
        ensures err { OnErr result (view.new ≡ view.old) }
    {
        match dispatch {
            Dispatch::GuildUpdate(update) => update_guild(view, update),
            Dispatch::GuildRoleCreate(create) => set_role(view, create.into_role())?,
            Dispatch::GuildRoleUpdate(update) => set_role(view, update.into_role())?,
            Dispatch::GuildRoleDelete(delete) => drop_role(view, delete.role),
            Dispatch::ChannelCreate(channel) => set_channel(self, view, channel)?,
            Dispatch::ChannelUpdate(channel) => set_channel(self, view, channel)?,
            Dispatch::ChannelDelete(channel) => drop_channel(view, channel.id),
            Dispatch::ThreadCreate(create) => create_thread(self, view, create)?,
            Dispatch::ThreadUpdate(thread) => update_thread(self, view, thread)?,
            Dispatch::ThreadDelete(delete) => drop_thread(view, delete.id),
            Dispatch::ThreadListSync(sync) => sync_threads(self, view, sync)?,
            Dispatch::ThreadMembersUpdate(update) => update_members(self, view, &update),
            Dispatch::GuildMemberAdd(add) => add_member(self, view, add)?,
            Dispatch::GuildMemberUpdate(update) => update_member(self, view, update)?,
            Dispatch::GuildMemberRemove(remove) => remove_member(view, &remove),
            Dispatch::GuildMembersChunk(chunk) => set_members(self, view, chunk.into_members())?,
            Dispatch::VoiceStateUpdate(update) => set_voice(view, &update.voice)?,
            Dispatch::PresenceUpdate(presence) => set_presence(view, &presence)?,
            rest @ (Dispatch::Ready(_)
            | Dispatch::Resumed
            | Dispatch::GuildCreate(_)
            | Dispatch::GuildDelete(_)
            | Dispatch::MessageCreate(_)
            | Dispatch::MessageUpdate(_)
            | Dispatch::MessageDelete(_)
            | Dispatch::MessageReactionAdd(_)
            | Dispatch::MessageReactionRemove(_)
            | Dispatch::TypingStart(_)) => drop(rest),
        }
        Ok(())
    }

    // Folds a dispatch of its guild into a view. Without an open view nothing changes but by
    // GUILD_CREATE and GUILD_DELETE.
    fn change_view(
        &self,
        view: &mut Option<GuildView>,
        dispatch: Dispatch,
    ) -> Result<(), AllocError>
        ensures ok { OnOk result (view.new
            ≡ view_after self.now.intents self.now.bot dispatch view.old) }
        ensures err { OnErr result (view.new ≡ view.old) }
    {
        match dispatch {
            Dispatch::GuildCreate(create) => {
                let created = created_view(self, create)?;
                drop(replace(view, created));
                Ok(())
            }
            Dispatch::GuildDelete(delete) => {
                drop(replace(view, self.unavailable_view(delete.unavailable)));
                Ok(())
            }
            dispatch => match view {
                Some(GuildView::Open(view)) => self.change_open(view, dispatch),
                Some(GuildView::Unavailable) | None => {
                    drop(dispatch);
                    Ok(())
                }
            },
        }
    }

    /// Folds a dispatch of its guild into what is held of that guild.
    pub(crate) fn change(&self, held: &mut HeldGuild, dispatch: Dispatch) -> Result<(), AllocError>
        ensures ok { OnOk result (held.new
            ≡ entry_after self.now.intents self.now.bot dispatch held.old) }
        ensures id { held.new.id ≡ held.old.id }
        ensures err { OnErr result (held.new ≡ held.old) }
    {
        let Ok(known) = known_after(self.alloc, &held.known, &dispatch) else {
            drop(dispatch);
            return Err(AllocError);
        };
        self.change_view(&mut held.view, dispatch)?;
        if let Some(known) = known {
            held.known = known;
        }
        Ok(())
    }
}
