//! The edits of channels and their overwrites: when each is refused, and what it makes of a
//! guild's record.
#![tactic(auto)]

ghost use Rattle.std.specs.Prelude.{◌≡◌, None, true, IfOk, OnOk, OnErr};
ghost use Rattle.guild_model.specs.Tests.{outcome};
ghost use Rattle.channel_edit.specs.ChannelEdits.{channel_verdict, channel_applied};

pub mod channel_create;
pub mod channel_delete;
pub mod channel_update;
pub mod overwrite_delete;
pub mod overwrite_set;
pub mod parent;

pub use channel_create::ChannelCreate;
pub use channel_update::ChannelUpdate;
use guild_model::{Guild, Verdict};
pub use overwrite_delete::OverwriteDelete;
pub use overwrite_set::OverwriteSet;
use snowflake_id::Snowflake;
use std::alloc::{AllocError, Global};

/// An edit of a guild's channels or their overwrites.
#[derive(Drop)]
pub enum ChannelEdit {
    /// Creates a channel.
    ChannelCreate(ChannelCreate),
    /// Replaces a channel's name, parent and position.
    ChannelUpdate(ChannelUpdate),
    /// Deletes a channel, with its threads, its messages and the voice states in it.
    ChannelDelete { channel: Snowflake },
    /// Sets a channel's overwrite of a role or a member.
    OverwriteSet(OverwriteSet),
    /// Deletes a channel's overwrite of a role or a member.
    OverwriteDelete(OverwriteDelete),
}

/// Why an edit of an open guild is refused: the first of its tests that fails. Does not allocate.
pub fn check(guild: &Guild, edit: &ChannelEdit) -> Result<(), Verdict>
    ensures { result ≡ outcome (channel_verdict guild.now edit.now) }
{
    match edit {
        ChannelEdit::ChannelCreate(edit) => channel_create::check(guild, edit),
        ChannelEdit::ChannelUpdate(edit) => channel_update::check(guild, edit),
        ChannelEdit::ChannelDelete { channel } => channel_delete::check(guild, *channel),
        ChannelEdit::OverwriteSet(edit) => overwrite_set::check(guild, edit),
        ChannelEdit::OverwriteDelete(edit) => overwrite_delete::check(guild, edit),
    }
}

/// Makes an edit that [`check`] does not refuse. If it runs out of memory, the record stays as it
/// was.
pub fn apply(alloc: Global, guild: &mut Guild, edit: ChannelEdit) -> Result<(), AllocError>
    requires open { guild.old.opened ≡ true }
    requires accepted { channel_verdict guild.old edit ≡ None }
    ensures ok { OnOk result (guild.new ≡ channel_applied guild.old edit) }
    ensures err { OnErr result (guild.new ≡ guild.old) }
{
    match edit {
        ChannelEdit::ChannelCreate(edit) => channel_create::apply(alloc, guild, edit)?,
        ChannelEdit::ChannelUpdate(edit) => channel_update::apply(guild, edit),
        ChannelEdit::ChannelDelete { channel } => channel_delete::apply(guild, channel),
        ChannelEdit::OverwriteSet(edit) => overwrite_set::apply(alloc, guild, edit)?,
        ChannelEdit::OverwriteDelete(edit) => overwrite_delete::apply(guild, edit),
    }
    Ok(())
}

impl ChannelEdit {
    /// An edit that is equal to this.
    pub fn copy(&self, alloc: Global) -> Result<ChannelEdit, AllocError>
        ensures { IfOk result (λ copy. copy ≡ self.now) }
    {
        Ok(match self {
            ChannelEdit::ChannelCreate(edit) => ChannelEdit::ChannelCreate(edit.copy(alloc)?),
            ChannelEdit::ChannelUpdate(edit) => ChannelEdit::ChannelUpdate(edit.copy(alloc)?),
            ChannelEdit::ChannelDelete { channel } => {
                ChannelEdit::ChannelDelete { channel: *channel }
            }
            ChannelEdit::OverwriteSet(edit) => ChannelEdit::OverwriteSet(*edit),
            ChannelEdit::OverwriteDelete(edit) => ChannelEdit::OverwriteDelete(*edit),
        })
    }
}
