//! A client drops each thread that its bot does not see, by its own view alone (Threads, Private
//! Threads).

ghost use Rattle.std.specs.Prelude.{◌≡◌, filter, is_some, refl};
ghost use Rattle.guild_model.specs.Sight.{Standing, sees_in};
ghost use Rattle.dispatch_types.specs.declared.view.ThreadView.{ThreadView};
ghost use Rattle.dispatch_types.specs.Fold.{leaves_over, purged};
ghost use Rattle.client_cache.specs.Cached.{entry_purged};
ghost use Rattle.client_cache.specs.Settled.{may_hide};

use crate::held::HeldGuild;
use collections::{ById, Change};
use dispatch_types::{Dispatch, GuildView, OpenView, ThreadView};
use overwrite_eval::StandingRef;
use snowflake_id::Snowflake;

/// Whether a thread that is no longer seen may stay until the next dispatch.
pub(crate) fn leaves_over(dispatch: &Dispatch) -> bool
    ensures { result ≡ leaves_over dispatch.now }
{
    match dispatch {
        Dispatch::ThreadUpdate(_) => true,
        Dispatch::Ready(_)
        | Dispatch::Resumed
        | Dispatch::GuildCreate(_)
        | Dispatch::GuildUpdate(_)
        | Dispatch::GuildDelete(_)
        | Dispatch::GuildRoleCreate(_)
        | Dispatch::GuildRoleUpdate(_)
        | Dispatch::GuildRoleDelete(_)
        | Dispatch::ChannelCreate(_)
        | Dispatch::ChannelUpdate(_)
        | Dispatch::ChannelDelete(_)
        | Dispatch::ThreadCreate(_)
        | Dispatch::ThreadDelete(_)
        | Dispatch::ThreadListSync(_)
        | Dispatch::ThreadMembersUpdate(_)
        | Dispatch::GuildMemberAdd(_)
        | Dispatch::GuildMemberUpdate(_)
        | Dispatch::GuildMemberRemove(_)
        | Dispatch::GuildMembersChunk(_)
        | Dispatch::VoiceStateUpdate(_)
        | Dispatch::PresenceUpdate(_)
        | Dispatch::MessageCreate(_)
        | Dispatch::MessageUpdate(_)
        | Dispatch::MessageDelete(_)
        | Dispatch::MessageReactionAdd(_)
        | Dispatch::MessageReactionRemove(_)
        | Dispatch::TypingStart(_) => false,
    }
}

/// Whether the bot may see less of the threads after a dispatch of their guild.
pub(crate) fn may_hide(dispatch: &Dispatch) -> bool
    ensures { result ≡ may_hide dispatch.now }
{
    match dispatch {
        Dispatch::Ready(_)
        | Dispatch::Resumed
        | Dispatch::GuildCreate(_)
        | Dispatch::GuildUpdate(_)
        | Dispatch::GuildDelete(_)
        | Dispatch::GuildRoleCreate(_)
        | Dispatch::GuildRoleUpdate(_)
        | Dispatch::GuildRoleDelete(_)
        | Dispatch::ChannelCreate(_)
        | Dispatch::ChannelUpdate(_)
        | Dispatch::ChannelDelete(_)
        | Dispatch::ThreadCreate(_)
        | Dispatch::ThreadUpdate(_)
        | Dispatch::ThreadDelete(_)
        | Dispatch::ThreadListSync(_)
        | Dispatch::ThreadMembersUpdate(_)
        | Dispatch::GuildMemberUpdate(_) => true,
        Dispatch::GuildMemberAdd(_)
        | Dispatch::GuildMemberRemove(_)
        | Dispatch::GuildMembersChunk(_)
        | Dispatch::VoiceStateUpdate(_)
        | Dispatch::PresenceUpdate(_)
        | Dispatch::MessageCreate(_)
        | Dispatch::MessageUpdate(_)
        | Dispatch::MessageDelete(_)
        | Dispatch::MessageReactionAdd(_)
        | Dispatch::MessageReactionRemove(_)
        | Dispatch::TypingStart(_) => false,
    }
}

fn keep_seen(threads: &mut ById<ThreadView>, standing: &StandingRef<'_>)
    ensures { threads.new ≡ filter
        (λ (t : ThreadView). sees_in standing.now t.parent t.kind (is_some t.mine)) threads.old }
{
    threads.retain(|thread| standing.sees_in(thread.parent, thread.kind, thread.mine.is_some()));
}

fn drop_unseen(guild: Snowflake, view: &mut OpenView)
    ensures { view.new ≡ purged 0 guild view.old }
{
    let standing = StandingRef::new(guild, view.owner, &view.roles, &view.channels, &view.me);
    keep_seen(&mut view.threads, &standing);
}

/// Drops the threads that the bot does not see.
#[derive(Clone, Copy)]
pub(crate) struct Purge;

impl Change<HeldGuild> for Purge {
    ghost changed = { λ change h. entry_purged h };

    fn change(self, held: &mut HeldGuild) {
        let guild = held.id;
        if let Some(GuildView::Open(view)) = &mut held.view {
            drop_unseen(guild, view);
        }
    }

    ghost keeps_key = { λ change h. refl };
}
